// How many names the addresses of a tree have at most.
ghost use Rattle.osc_pattern.specs.declared.limits.TheConstants.{MAX_NAMES};
ghost use Rattle.std.specs.Prelude.{◌≡◌, ◌≤◌, length};
ghost use Rattle.osc_pattern.specs.Patterns.{parts_of};
ghost use Rattle.osc_tree.specs.Order.{IsDepth};
ghost use Rattle.osc_tree.specs.Views.{methods_of};

use crate::names::{count_names, names_of};
use crate::registered::Registered;
use osc_pattern::Address;

/// How many names the address has.
pub(crate) fn count_levels(address: &Address) -> u32
    ensures count { result ≡ length (parts_of address.now) }
    ensures few { result ≤ MAX_NAMES }
{
    count_names(names_of(address)) as u32
}

/// How many names the addresses of the methods that are left have at most, where a removed one is
/// counted as well. A tree without methods begins anew.
pub(crate) fn depth_left(methods: &[Registered], depth: u32) -> u32
    requires { IsDepth (methods_of methods.now) depth }
    ensures deep { IsDepth (methods_of methods.now) result }
    ensures anew { length methods.now ≡ 0 → result ≡ 0 }
{
    if methods.is_empty() { 0 } else { depth }
}
