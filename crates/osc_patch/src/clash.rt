// What stands against an entry.
ghost use Rattle.std.specs.Prelude.{◌≡◌, ◌||◌, find, option_map};
ghost use Rattle.osc_pattern.specs.Addresses;
ghost use Rattle.osc_patch.specs.Patches;
ghost use Rattle.osc_patch.specs.Patches.{is_at};

use crate::entry::Entry;
use crate::fault::Fault;
use crate::method::{PatchMethod, Route};
use osc_pattern::Address;

/// What stands against an entry, where there may be so many methods.
pub(crate) fn clash(limit: u32, methods: &[PatchMethod], entry: &Entry) -> Option<Fault>
    ensures { result ≡ Patches.clash limit methods.now entry.now }
{
    match method_at(methods, &entry.address) {
        Some(method) => repeated(&entry.route, method),
        None => refused(limit, methods, &entry.address),
    }
}

/// What stands against one method more.
fn refused(limit: u32, methods: &[PatchMethod], address: &Address) -> Option<Fault>
    ensures { result ≡ Patches.refused limit methods.now
        (find (Patches.is_nested address.now) methods.now) }
{
    if let Some(method) = nested_method(methods, address) {
        return Some(Fault::Nested(method.line));
    }
    if methods.len() >= limit as usize {
        Some(Fault::TooMany(limit))
    } else {
        None
    }
}

/// What stands against a route of the method.
fn repeated(route: &Option<Route>, method: &PatchMethod) -> Option<Fault>
    ensures { result ≡ Patches.repeated route.now method.now }
{
    match route {
        Some(route) => match same_route(route, method.routes.as_slice()) {
            Some(other) => Some(Fault::Repeated(other.line)),
            None => None,
        },
        None => None,
    }
}

fn method_at<'a>(methods: &'a [PatchMethod], address: &Address) -> Option<&'a PatchMethod>
    ensures { option_map (λ method. method.now) result ≡ find (is_at address.now) methods.now }
{
    methods.iter().find(|method| method.address == *address)
}

fn nested_method<'a>(methods: &'a [PatchMethod], address: &Address) -> Option<&'a PatchMethod>
    ensures { option_map (λ method. method.now) result
        ≡ find (Patches.is_nested address.now) methods.now }
{
    methods.iter().find(|method| is_nested(address, method))
}

fn same_route<'a>(route: &Route, routes: &'a [Route]) -> Option<&'a Route>
    ensures { option_map (λ other. other.now) result
        ≡ find (Patches.is_same route.now) routes.now }
{
    routes.iter().find(|other| is_same(route, other))
}

fn is_same(route: &Route, other: &Route) -> bool
    ensures { result ≡ Patches.is_same route.now other.now }
{
    other.host.as_slice() == route.host.as_slice() && other.port == route.port
}

/// Whether the method lies above the address, or under it.
fn is_nested(address: &Address, method: &PatchMethod) -> bool
    ensures { result ≡ Patches.is_nested address.now method.now }
{
    is_proper_prefix(method.address.bytes(), address.bytes())
        || is_proper_prefix(address.bytes(), method.address.bytes())
}

/// Whether the second address is the first, a slash, and more.
#[tactic(auto, using(crate::proofs::Above::above_is))]
fn is_proper_prefix(prefix: &[u8], address: &[u8]) -> bool
    ensures { result ≡ Addresses.is_proper_prefix prefix.now address.now }
{
    prefix.len() < address.len() && address[prefix.len()] == b'/' && address.starts_with(prefix)
}
