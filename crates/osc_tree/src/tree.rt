//! The tree of methods: a list in the order of adding, and their places in the order of their
//! addresses, in room that is reserved at opening.
ghost use Rattle.std.specs.Prelude.{◌≡◌, ◌≤◌, ◌+◌, ◌↔◌, ℕ, List, [], ◌∷◌, ◌++◌, Some, None, IsOk};
ghost use Rattle.std.specs.Prelude.{IsErr, IfOk, IfErr, IfSome, IsNone, OnOk, OnErr};
ghost use Rattle.std.specs.Option.{option_map, option_copied};
ghost use Rattle.std.specs.Result.{result_ok};
ghost use Rattle.osc_tree.specs.Registry.{Registry, IsLawful, IsAt, IsNewId, NoneAt, id_at};
ghost use Rattle.osc_tree.specs.Registry.{address_by_id, without};
ghost use Rattle.osc_tree.specs.Adding.{IsAddable, IsRefused, refusal_of, add_refusal};
ghost use Rattle.osc_tree.specs.Matching.{AreHits, matching_ids};
ghost use Rattle.osc_tree.specs.Views.{methods_of};
ghost use Rattle.osc_tree.specs.Walking.{most_steps};

use crate::admission::admit;
use crate::depth::{count_levels, depth_left};
use crate::guesses::Guesses;
use crate::hits::Hits;
use crate::lookup::{is_there, with_id};
use crate::matches::{Hints, find_ids};
use crate::nodes::new_nodes;
use crate::order::{enter, leave};
use crate::refusals::{NotThere, TreeRefusal};
use crate::registered::Registered;
use crate::search::count_before;
use osc_pattern::{Address, Pattern, Steps};
use std::alloc::{AllocError, Global};
use std::marker::Model;
use std::sync::ledger::Ledger;

/// The methods, each with its id and its address. A contract sees their list in the order of
/// adding, and how many methods and nodes there may be. A node is a prefix by parts of a method's
/// address, the whole address among them.
///
/// The list is lawful: ids and addresses differ, and no method lies below another (OSC 1.0, "OSC
/// Address Spaces and OSC Addresses"). No call but `open` takes memory.
pub struct Tree {
    methods: Vec<Registered>,
    places: Vec<u32>,
    guesses: Guesses,
    method_limit: u32,
    node_limit: u32,
    node_count: u32,
    depth: u32,
}

impl Drop for Tree {
    fn drop(self) {
        let Tree {
            methods: _,
            places: _,
            guesses: _,
            method_limit: _,
            node_limit: _,
            node_count: _,
            depth: _,
        } = self;
    }
}

impl Model for Tree {
    ghost use Rattle.std.specs.Prelude.{vec_capacity};
    ghost use Rattle.osc_tree.specs.Registry.{Registry};

    ghost Value = { Registry };

    ghost use Rattle.osc_tree.specs.Views.{methods_of};
    ghost use Rattle.osc_tree.specs.Order.{IsIndexed};

    ghost view = { λ tree. record {
      methods = methods_of tree.methods.items;
      method_limit = tree.method_limit;
      node_limit = tree.node_limit;
    } };

    ghost invariant = { λ tree. IsIndexed tree.methods.items tree.places.items tree.method_limit
        tree.node_limit tree.node_count (vec_capacity tree.methods) (vec_capacity tree.places)
        tree.depth };
}

impl Tree {
    /// An empty tree, with room for `methods` methods, which may have `nodes` nodes. The `Err`
    /// means that there is no memory for them.
    pub fn open(alloc: Global, methods: u32, nodes: u32) -> Result<Tree, AllocError>
        ensures empty { IfOk result (λ tree. tree.methods ≡ []) }
        ensures method_limit { IfOk result (λ tree. tree.method_limit ≡ methods) }
        ensures node_limit { IfOk result (λ tree. tree.node_limit ≡ nodes) }
        ensures lawful { IfOk result (λ tree. IsLawful tree) }
    {
        Ok(Tree {
            methods: Vec::with_capacity(alloc, methods as usize)?,
            places: Vec::with_capacity(alloc, methods as usize)?,
            guesses: Guesses::open(alloc, methods)?,
            method_limit: methods,
            node_limit: nodes,
            node_count: 0,
            depth: 0,
        })
    }

    /// Adds a method with the id at the address. A refusal hands the address back.
    pub fn add(&mut self, address: Address, id: u32) -> Result<(), (TreeRefusal, Address)>
        requires { IsNewId self.old.methods id }
        ensures accepted { IsOk result ↔ IsAddable self.old address }
        ensures test { IsOk result ↔ (add_refusal self.old address ≡ None) }
        ensures added { OnOk result
            (self.new ≡ record self.old {
              methods = self.old.methods
                  ++ record { id = id; address = address } ∷ [];
            }) }

        // The first line that applies, as a relation and as it is read.
        ensures refused { IfErr result (λ refused. IsRefused self.old address refused.0) }
        ensures read { IfErr result
            (λ refused. add_refusal self.old address ≡ Some (refusal_of refused.0)) }
        ensures handed_back { IfErr result (λ refused. refused.1 ≡ address) }
        ensures unchanged { OnErr result (self.new ≡ self.old) }
        ensures lawful { IsLawful self.new }
    {
        let admission = match admit(
            &self.methods,
            &self.places,
            &address,
            self.method_limit,
            self.node_limit,
            self.node_count,
        ) {
            Ok(admission) => admission,
            Err(refusal) => return Err((refusal, address)),
        };
        let place = self.methods.len() as u32;
        self.depth = self.depth.max(count_levels(&address));
        self.guesses.keep(address.bytes(), place);
        match self.methods.push(Registered { id, address }) {
            Ok(()) => {}
            Err(_) => unreachable!(),
        }
        enter(admission.at, place, &mut self.places);
        self.node_count += admission.need;
        Ok(())
    }

    /// Removes the method at the address, and tells its id.
    pub fn remove(&mut self, address: &Address) -> Result<u32, NotThere>
        ensures not_there { IsErr result ↔ NoneAt self.old.methods address.now }
        ensures unchanged { OnErr result (self.new ≡ self.old) }
        ensures removed { IfOk result (λ id. IsAt self.old.methods id address.now) }
        ensures read { result_ok result ≡ id_at self.old.methods address.now }
        ensures others { OnOk result
            (self.new ≡ record self.old { methods = without self.old.methods address.now }) }
        ensures lawful { IsLawful self.new }
    {
        let at = count_before(&self.methods, &self.places, address.bytes());
        if !is_there(&self.methods, &self.places, at, address.bytes()) {
            return Err(NotThere);
        }
        let place = leave(at, &mut self.places);
        let method = self.methods.remove(place as usize);
        self.node_count -= new_nodes(&self.methods, &self.places, at, &method.address);
        self.depth = depth_left(&self.methods, self.depth);
        Ok(method.id)
    }

    /// Fills `hits` with the ids of the methods that the pattern matches.
    ///
    /// Steps are counted as in `Pattern::matches_part`. For each node of the methods they are at
    /// most 64 for each byte of the part at the node's depth and for its end, and none for a node
    /// deeper than the pattern. A part that is a star alone takes none, nor does a pattern that is
    /// plain but for one star in its last part. To find and to read the parts, once for all
    /// methods, and to search takes none.
    #[inline(always)]
    pub fn matches<L: Ledger>(&self, pattern: &Pattern<'_>, hits: &mut Hits, steps: &mut Steps<L>)
        requires { self.now.method_limit ≤ hits.old.limit }
        ensures hits { AreHits pattern.now self.now.methods hits.new.ids }
        ensures read { hits.new.ids ≡ matching_ids pattern.now self.now.methods }
        ensures limit { hits.new.limit ≡ hits.old.limit }
        ensures lawful { IsLawful self.now }
        ensures counted { steps.old ≤ steps.new }
        ensures bounded { steps.new ≤ steps.old + most_steps pattern.now self.now.methods }
    {
        find_ids(
            &self.methods,
            &self.places,
            Hints {
                guesses: &self.guesses,
                depth: self.depth,
            },
            pattern,
            &mut hits.ids,
            steps,
        );
    }

    /// The address of the method with the id.
    pub fn address_of(&self, id: u32) -> Option<&Address>
        ensures none { IsNone result ↔ IsNewId self.now.methods id }
        ensures found { IfSome result (λ address. IsAt self.now.methods id address.now) }
        ensures read { option_copied result ≡ address_by_id self.now.methods id }
        ensures lawful { IsLawful self.now }
    {
        Some(&with_id(&self.methods, id)?.address)
    }
}
