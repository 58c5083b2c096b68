// Patterns that are plain but for one choice of plain texts: each text makes one address.
ghost use Rattle.osc_pattern.specs.declared.limits.TheConstants.{MAX_ADDRESS};
ghost use Rattle.std.specs.Prelude.{◌≡◌, ◌≤◌, ◌+◌, ◌++◌, ◌||◌, [], true, position, IfSome, Some};
ghost use Rattle.std.specs.Prelude.{length, map, filter, take, vec_len, vec_capacity};
ghost use Rattle.std.specs.List.{slice_split};
ghost use Rattle.std.specs.Option.{option_to_list};
ghost use Rattle.osc_pattern.specs.Items.{is_comma, is_slash};
ghost use Rattle.osc_pattern.specs.Methods.{IsMethodList};
ghost use Rattle.osc_pattern.specs.Patterns.{is_special};
ghost use Rattle.osc_tree.specs.Choosing.{spelled, is_chosen, is_odd, AreInOrder, IsPlainChoice};
ghost use Rattle.osc_tree.specs.Order.{IsOrder};
ghost use Rattle.osc_tree.specs.Registry.{id_at};
ghost use Rattle.osc_tree.specs.Views.{methods_of, methods_at};
ghost use Rattle.osc_tree.specs.Walking.{is_ahead};

use crate::aim::{cut_choice, first_text};
use crate::guesses::Guesses;
use crate::literal::{first_special, is_special};
use crate::lookup::{guessed_id, id_at};
use crate::registered::Registered;
use osc_pattern::MAX_ADDRESS;

/// What a pattern has before its choice, the choice's texts, and what it has after it.
#[derive(Clone, Copy)]
pub(crate) struct PlainChoice<'a> {
    front: &'a [u8],
    texts: &'a [u8],
    back: &'a [u8],
}

/// The choice at the pattern's first special byte, where all else is plain, the texts are, and the
/// addresses that they make ascend.
pub(crate) fn find_choice<'a>(pattern: &'a [u8], end: usize) -> Option<PlainChoice<'a>>
    requires { position is_special pattern.now ≡ Some end }
    ensures { IfSome result
        (λ choice. IsPlainChoice pattern.now choice.front.now choice.texts.now choice.back.now) }
{
    if pattern[end] != b'{' {
        return None;
    }
    let (texts, back) = cut_choice(&pattern[end + 1..])?;
    if first_odd(texts).is_some() || first_special(back).is_some() || !are_in_order(texts, back) {
        return None;
    }
    Some(PlainChoice {
        front: &pattern[..end],
        texts,
        back,
    })
}

/// The place of the first byte that a name can't have.
pub(crate) fn first_odd(texts: &[u8]) -> Option<usize>
    ensures { result ≡ position is_odd texts.now }
{
    texts.iter().position(|byte| is_odd(*byte))
}

fn is_odd(byte: u8) -> bool
    ensures { result ≡ is_odd byte }
{
    is_special(byte) || byte == b'/'
}

/// Whether each text of a choice, with what stands after the choice, is before the next.
fn are_in_order(texts: &[u8], back: &[u8]) -> bool
    ensures { result ≡ true → AreInOrder back.now (slice_split is_comma texts.now) }
{
    let (first, Some(more)) = first_text(texts) else {
        return true;
    };
    let mut last = first;
    let mut left = more;
    loop {
        let (text, more) = first_text(left);
        if !is_ahead(last, back, text) {
            return false;
        }
        let Some(more) = more else {
            return true;
        };
        last = text;
        left = more;
    }
}

/// Whether a text with what follows it is before another.
fn is_ahead(text: &[u8], back: &[u8], other: &[u8]) -> bool
    ensures { result ≡ is_ahead (text.now ++ back.now) other.now }
{
    if other.starts_with(text) {
        return back.cmp(&other[text.len()..]).is_lt();
    }
    text.cmp(other).is_lt()
}

/// Adds the ids of the methods at the addresses that the texts make, in their order.
pub(crate) fn add_chosen(
    methods: &[Registered],
    places: &[u32],
    guesses: &Guesses,
    choice: &PlainChoice<'_>,
    ids: &mut Vec<u32>,
)
    requires list { IsMethodList (methods_of methods.now) }
    requires order { IsOrder methods.now places.now }
    requires texts { AreInOrder choice.now.back.now (slice_split is_comma choice.now.texts.now) }
    requires empty { ids.old.items ≡ [] }
    requires room { length places.now ≤ vec_capacity ids.old }
    ensures ids { ids.new.items ≡ map (λ method. method.id)
        (filter (λ method. is_chosen choice.now.front.now choice.now.back.now
        (slice_split is_comma choice.now.texts.now) method.address)
        (methods_at methods.now places.now)) }
    ensures len { vec_len ids.new ≤ length places.now }
    ensures capacity { vec_capacity ids.old ≤ vec_capacity ids.new }
{
    let mut left = choice.texts;
    loop {
        let (text, more) = first_text(left);
        add_text(methods, places, guesses, choice, text, ids);
        let Some(more) = more else {
            return;
        };
        left = more;
    }
}

/// Adds the id of the method at the address that a text makes, if there is one.
fn add_text(
    methods: &[Registered],
    places: &[u32],
    guesses: &Guesses,
    choice: &PlainChoice<'_>,
    text: &[u8],
    ids: &mut Vec<u32>,
)
    requires list { IsMethodList (methods_of methods.now) }
    requires order { IsOrder methods.now places.now }
    requires room { length (ids.old.items ++ option_to_list (id_at (methods_of methods.now)
        (spelled choice.now.front.now choice.now.back.now text.now))) ≤ vec_capacity ids.old }
    ensures ids { ids.new.items ≡ ids.old.items ++ option_to_list (id_at (methods_of methods.now)
        (spelled choice.now.front.now choice.now.back.now text.now)) }
    ensures capacity { vec_capacity ids.old ≤ vec_capacity ids.new }
{
    let Some(id) = chosen_id(methods, places, guesses, choice, text) else {
        return;
    };
    match ids.push(id) {
        Ok(()) => {}
        Err(_) => unreachable!(),
    }
}

/// The id of the method at the address that a text makes.
fn chosen_id(
    methods: &[Registered],
    places: &[u32],
    guesses: &Guesses,
    choice: &PlainChoice<'_>,
    text: &[u8],
) -> Option<u32>
    requires list { IsMethodList (methods_of methods.now) }
    requires order { IsOrder methods.now places.now }
    ensures { result ≡ id_at (methods_of methods.now)
        (spelled choice.now.front.now choice.now.back.now text.now) }
{
    let plain = choice.front.len() + choice.back.len();
    if plain > MAX_ADDRESS {
        return None;
    }
    if text.len() > MAX_ADDRESS - plain {
        return None;
    }
    let mut bytes = [0; MAX_ADDRESS];
    spell(choice, text, &mut bytes);
    spelled_id(methods, places, guesses, &bytes[..plain + text.len()])
}

/// Writes the address that a text makes.
fn spell(choice: &PlainChoice<'_>, text: &[u8], bytes: &mut [u8; MAX_ADDRESS])
    requires { length choice.now.front.now + length choice.now.back.now + length text.now
        ≤ MAX_ADDRESS }
    ensures { take (length choice.now.front.now + length choice.now.back.now + length text.now)
        bytes.new ≡ spelled choice.now.front.now choice.now.back.now text.now }
{
    let first = choice.front.len();
    let second = first + text.len();
    bytes[..first].copy_from_slice(choice.front);
    bytes[first..second].copy_from_slice(text);
    bytes[second..second + choice.back.len()].copy_from_slice(choice.back);
}

/// The id of the method at the address, which is looked for first where it is guessed to stand.
fn spelled_id(
    methods: &[Registered],
    places: &[u32],
    guesses: &Guesses,
    address: &[u8],
) -> Option<u32>
    requires list { IsMethodList (methods_of methods.now) }
    requires order { IsOrder methods.now places.now }
    ensures { result ≡ id_at (methods_of methods.now) address.now }
{
    match guessed_id(methods, guesses, address) {
        Some(id) => Some(id),
        None => id_at(methods, places, address),
    }
}
