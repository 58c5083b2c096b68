// How many nodes an address would add.
ghost use Rattle.std.specs.Prelude.{◌≡◌, ◌<◌, ◌≤◌, length, All};
ghost use Rattle.std.specs.List.{slice_split};
ghost use Rattle.osc_pattern.specs.Items.{is_slash};
ghost use Rattle.osc_pattern.specs.Methods.{IsMethodList};
ghost use Rattle.osc_tree.specs.Adding.{IsApart};
ghost use Rattle.osc_tree.specs.Nodes.{new_nodes};
ghost use Rattle.osc_tree.specs.Order.{IsOrder, IsSearched};
ghost use Rattle.osc_tree.specs.Views.{methods_of, methods_at};
ghost use Rattle.osc_tree.specs.Walking.{shared_at, shared_before};

use crate::names::{count_names, names_of, shared_names};
use crate::registered::Registered;
use osc_pattern::Address;

/// How many prefixes by parts of the address no method's address has. No method has more names in
/// common with it than one of the two next to the place that the search for it came to.
pub(crate) fn new_nodes(methods: &[Registered], places: &[u32], at: usize, address: &Address) -> u32
    requires list { IsMethodList (methods_of methods.now) }
    requires order { IsOrder methods.now places.now }
    requires apart { IsApart (methods_of methods.now) address.now }
    requires searched { IsSearched address.now (methods_at methods.now places.now) at at }
    ensures { result ≡ new_nodes (methods_of methods.now) address.now }
{
    let names = names_of(address);
    let before = shared_before(methods, places, at, names);
    let after = shared_at(methods, places, at, names);
    (count_names(names) - before.max(after)) as u32
}

/// How many of the names the method before a place has, from the first on.
fn shared_before(methods: &[Registered], places: &[u32], at: usize, names: &[u8]) -> usize
    requires { All (λ place. place < length methods.now) places.now }
    ensures count { result
        ≡ shared_before (methods_at methods.now places.now) (slice_split is_slash names.now) at }
{
    if at == 0 {
        return 0;
    }
    shared_at(methods, places, at - 1, names)
}

/// How many of the names the method at a place has, from the first on; none where there is no
/// method.
fn shared_at(methods: &[Registered], places: &[u32], at: usize, names: &[u8]) -> usize
    requires { All (λ place. place < length methods.now) places.now }
    ensures count { result
        ≡ shared_at (methods_at methods.now places.now) (slice_split is_slash names.now) at }
{
    if places.len() <= at {
        return 0;
    }
    shared_names(names, names_of(&methods[places[at] as usize].address))
}
