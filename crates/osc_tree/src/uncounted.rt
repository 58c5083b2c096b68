//! The matching methods, for whoever doesn't count steps.
ghost use Rattle.std.specs.Prelude.{◌≡◌, ◌<◌, ◌≤◌};
ghost use Rattle.osc_tree.specs.Registry.{IsLawful};
ghost use Rattle.osc_tree.specs.Matching.{matching_ids};

use crate::hits::Hits;
use crate::tree::Tree;
use osc_pattern::{Pattern, Steps};
use std::marker::Brand;
use std::sync::ledger::{Blank, Ledger};

impl Tree {
    ghost use Rattle.std.specs.Prelude.{◌≡◌, ◌≤◌, length, All, Some};
    ghost use Rattle.osc_tree.specs.Registry.{address_by_id};
    ghost use Rattle.osc_tree.specs.Matching.{matching, matching_ids};

    /// Fills `hits` with the ids of the methods that the pattern matches, as `matches` does.
    #[inline(always)]
    pub fn find(&self, pattern: &Pattern<'_>, hits: &mut Hits)
        requires { self.now.method_limit ≤ hits.old.limit }
        ensures ids { hits.new.ids ≡ matching_ids pattern.now self.now.methods }
        ensures few { length hits.new.ids ≤ self.now.method_limit }
        ensures named { All
            (λ method. address_by_id self.now.methods method.id ≡ Some method.address)
            (matching pattern.now self.now.methods) }
        ensures limit { hits.new.limit ≡ hits.old.limit }
    {
        crate::laws::the_matching_methods_ascend();
        find_in::<Brand>(self, pattern, hits, Blank::new(1));
    }
}

#[inline(always)]
fn find_in<L: Ledger>(tree: &Tree, pattern: &Pattern<'_>, hits: &mut Hits, blank: Blank)
    requires name { blank.name ≡ L.name }
    requires parts { blank.parts ≡ L.parts }
    requires some { 0 < blank.parts }
    requires limit { tree.now.method_limit ≤ hits.old.limit }
    ensures ids { hits.new.ids ≡ matching_ids pattern.now tree.now.methods }
    ensures lawful { IsLawful tree.now }
    ensures limit { hits.new.limit ≡ hits.old.limit }
{
    let mut steps = Steps::<L>::new(blank);
    tree.matches(pattern, hits, &mut steps);
}
