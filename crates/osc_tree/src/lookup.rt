// Which methods stand at, above and below an address.
ghost use Rattle.std.specs.Prelude.{◌≡◌, ◌<◌, if◌then◌else◌, find, length, nat_eq, slice_index};
ghost use Rattle.std.specs.Prelude.{take, true, All, None, Some, IfSome, MatchBool};
ghost use Rattle.std.specs.Option.{option_copied};
ghost use Rattle.std.specs.List.{list_any};
ghost use Rattle.osc_pattern.specs.Addresses.{is_proper_prefix, IsAddress};
ghost use Rattle.osc_pattern.specs.Items.{is_slash};
ghost use Rattle.osc_pattern.specs.Methods.{IsMethodList};
ghost use Rattle.osc_tree.specs.Order.{IsOrder, IsSearched, StandsAt, begins_with};
ghost use Rattle.osc_tree.specs.Registry.{NoneAt, id_at, id_above};
ghost use Rattle.osc_tree.specs.Views.{method_at, methods_of, methods_at};

use crate::guesses::Guesses;
use crate::registered::Registered;
use crate::search::{count_before, count_before_both};

/// The first address, a slash and more are the second.
#[tactic(auto, using(crate::proofs::Above::above_is))]
pub(crate) fn is_above(prefix: &[u8], address: &[u8]) -> bool
    ensures { result ≡ is_proper_prefix prefix.now address.now }
{
    prefix.len() < address.len() && address[prefix.len()] == b'/' && address.starts_with(prefix)
}

/// Whether the method that the search for an address came to has it. No other method does.
pub(crate) fn is_there(methods: &[Registered], places: &[u32], at: usize, address: &[u8]) -> bool
    requires order { IsOrder methods.now places.now }
    requires searched { IsSearched address.now (methods_at methods.now places.now) at at }
    ensures { MatchBool result (StandsAt methods.now places.now at address.now)
        (NoneAt (methods_of methods.now) address.now) }
{
    at < places.len() && methods[places[at] as usize].address.bytes() == address
}

/// The id of the method at the address.
pub(crate) fn id_at(methods: &[Registered], places: &[u32], address: &[u8]) -> Option<u32>
    requires list { IsMethodList (methods_of methods.now) }
    requires order { IsOrder methods.now places.now }
    ensures { result ≡ id_at (methods_of methods.now) address.now }
{
    let at = count_before(methods, places, address);
    id_there(methods, places, at, address)
}

/// The id of the method at the address, where it stands where it is guessed to.
pub(crate) fn guessed_id(methods: &[Registered], guesses: &Guesses, address: &[u8]) -> Option<u32>
    requires { IsMethodList (methods_of methods.now) }
    ensures id { IfSome result (λ id. id_at (methods_of methods.now) address.now ≡ Some id) }
    ensures lawful { IfSome result (λ _. IsAddress address.now) }
    ensures some { IfSome result (λ _. 0 < length methods.now) }
{
    let method = methods.get(guesses.place(address)?)?;
    if method.address.bytes() != address {
        return None;
    }
    Some(method.id)
}

/// The id of the method that the search for an address came to, if it has it.
pub(crate) fn id_there(
    methods: &[Registered],
    places: &[u32],
    at: usize,
    address: &[u8],
) -> Option<u32>
    requires list { IsMethodList (methods_of methods.now) }
    requires order { IsOrder methods.now places.now }
    requires searched { IsSearched address.now (methods_at methods.now places.now) at at }
    ensures { result ≡ id_at (methods_of methods.now) address.now }
{
    if !is_there(methods, places, at, address) {
        return None;
    }
    Some(methods[places[at] as usize].id)
}

/// The id of the method at a proper prefix of the address, whose neighbours in order stand around a
/// place.
pub(crate) fn id_above(
    methods: &[Registered],
    places: &[u32],
    at: usize,
    address: &[u8],
) -> Option<u32>
    requires list { IsMethodList (methods_of methods.now) }
    requires order { IsOrder methods.now places.now }
    ensures { result ≡ id_above (methods_of methods.now) address.now }
{
    for end in 1..address.len() {
        if let Some(id) = id_before(methods, places, at, address, end) {
            return Some(id);
        }
    }
    None
}

/// The id of the method at what the address has before a slash at this place.
fn id_before(
    methods: &[Registered],
    places: &[u32],
    at: usize,
    address: &[u8],
    end: usize,
) -> Option<u32>
    requires list { IsMethodList (methods_of methods.now) }
    requires order { IsOrder methods.now places.now }
    requires within { end < length address.now }
    ensures { result
        ≡ if is_slash (slice_index address.now end)
        then id_at (methods_of methods.now) (take end address.now) else None }
{
    if address[end] != b'/' {
        return None;
    }
    id_beside(methods, places, at, &address[..end])
}

/// The id of the method at the address. There is none where a neighbour of the place lies below it,
/// and then none is searched for.
fn id_beside(methods: &[Registered], places: &[u32], at: usize, address: &[u8]) -> Option<u32>
    requires list { IsMethodList (methods_of methods.now) }
    requires order { IsOrder methods.now places.now }
    ensures { result ≡ id_at (methods_of methods.now) address.now }
{
    if lies_below(methods, places, at, address) {
        return None;
    }
    if at > 0 && lies_below(methods, places, at - 1, address) {
        return None;
    }
    id_at(methods, places, address)
}

/// Whether a method stands at the place, and lies below the address.
fn lies_below(methods: &[Registered], places: &[u32], at: usize, address: &[u8]) -> bool
    requires list { IsMethodList (methods_of methods.now) }
    requires order { IsOrder methods.now places.now }
    ensures { result ≡ true → id_at (methods_of methods.now) address.now ≡ None }
{
    at < places.len() && is_above(address, methods[places[at] as usize].address.bytes())
}

/// Whether a method lies below the address that the search came to this place for. Those that do
/// begin with it and a slash, and others may stand between. Where the method there doesn't begin
/// with the address, none does.
pub(crate) fn has_below(methods: &[Registered], places: &[u32], at: usize, address: &[u8]) -> bool
    requires order { IsOrder methods.now places.now }
    requires searched { IsSearched address.now (methods_at methods.now places.now) at at }
    ensures { result ≡ list_any (λ method. is_proper_prefix address.now method.address)
        (methods_of methods.now) }
{
    begins_there(methods, places, at, address) && has_below_slash(methods, places, address)
}

/// Whether a method begins with the text that the search came to this place for.
fn begins_there(methods: &[Registered], places: &[u32], at: usize, text: &[u8]) -> bool
    requires order { IsOrder methods.now places.now }
    requires searched { IsSearched text.now (methods_at methods.now places.now) at at }
    ensures { result ≡ list_any (begins_with text.now) (methods_at methods.now places.now) }
{
    at < places.len()
        && methods[places[at] as usize]
            .address
            .bytes()
            .starts_with(text)
}

/// Whether a method begins with the address and a slash.
fn has_below_slash(methods: &[Registered], places: &[u32], address: &[u8]) -> bool
    requires { IsOrder methods.now places.now }
    ensures { result ≡ list_any (λ method. is_proper_prefix address.now method.address)
        (methods_of methods.now) }
{
    let at = count_before_both(methods, places, address, b"/");
    at < places.len() && is_above(address, methods[places[at] as usize].address.bytes())
}

/// The method with the id. It is first looked for at the place of that number, where ids that count
/// the methods added stand until one is removed.
pub(crate) fn with_id(methods: &[Registered], id: u32) -> Option<&Registered>
    requires { IsMethodList (methods_of methods.now) }
    ensures { option_copied result ≡ find (λ method. nat_eq method.id id) methods.now }
{
    match methods.get(id as usize) {
        Some(method) if method.id == id => Some(method),
        _ => first_with_id(methods, id),
    }
}

fn first_with_id(methods: &[Registered], id: u32) -> Option<&Registered>
    ensures { option_copied result ≡ find (λ method. nat_eq method.id id) methods.now }
{
    methods.iter().find(|method| method.id == id)
}
