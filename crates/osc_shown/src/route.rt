//! The methods of a patch.
ghost use Rattle.std.specs.Prelude.{◌≡◌, ◌<◌};
ghost use Rattle.osc_pattern.specs.Patterns.{matches};

use osc_pattern::{Address, Pattern, Steps};
use std::marker::Brand;
use std::sync::ledger::{Blank, Ledger};

/// The address of a method, and where it sends its calls.
#[derive(Drop)]
pub struct Route {
    pub address: Address,
    /// In words, as `10.0.0.7:8000`; empty where it sends nothing.
    pub to: Vec<u8>,
}

/// Whether the pattern matches the route's address.
pub(crate) fn reaches(pattern: &Pattern<'_>, route: &Route) -> bool
    ensures { result ≡ matches pattern.now route.now.address }
{
    reaches_in::<Brand>(pattern, route, Blank::new(1))
}

fn reaches_in<L: Ledger>(pattern: &Pattern<'_>, route: &Route, blank: Blank) -> bool
    requires name { blank.name ≡ L.name }
    requires parts { blank.parts ≡ L.parts }
    requires some { 0 < blank.parts }
    ensures { result ≡ matches pattern.now route.now.address }
{
    let mut steps = Steps::<L>::new(blank);
    pattern.matches(&route.address, &mut steps)
}
