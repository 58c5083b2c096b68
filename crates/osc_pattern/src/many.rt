// What stands many times in a part: items that follow one another, and texts of a choice.
ghost use Rattle.std.specs.Prelude.{◌≡◌, ◌≤◌, ◌<◌, ◌+◌, ◌*◌, ℕ, List, length, IfSome, true, Bool};
ghost use Rattle.std.specs.List.{list_any, flat_map, slice_split};
ghost use Rattle.osc_pattern.specs.Items.{is_comma};
ghost use Rattle.osc_pattern.specs.Cuts.{after_text};
ghost use Rattle.osc_pattern.specs.Reading.{match_part};
ghost use Rattle.osc_pattern.specs.Views.{item_of};
ghost use Rattle.osc_pattern.specs.Repeats.{after_part, after_times};

use crate::cut::first_piece;
use crate::item::{Item, first_item};

/// Items that stand in a part so many times, one after another.
#[derive(Clone, Copy)]
pub(crate) struct Many<'a> {
    pub(crate) unit: &'a [u8],
    pub(crate) times: usize,
}

/// The most items that are looked for as one unit.
const MOST_TOGETHER: usize = 8;

/// Fewer repeats than these are read item by item.
const FEW_TIMES: usize = 4;

/// The choices and stars that a part begins with many times, and what follows them.
pub(crate) fn first_many(part: &[u8]) -> Option<(Many<'_>, &[u8])>
    ensures same { IfSome result (λ found. (name : List ℕ)
        → list_any (match_part found.1.now) (after_times found.0.times found.0.unit.now name)
        ≡ match_part part.now name) }
    ensures size { IfSome result
        (λ found. found.0.times * length found.0.unit.now + length found.1.now
        ≤ length part.now) }
{
    for items in 1..=MOST_TOGETHER {
        let unit = first_items(part, items)?;
        let (times, left) = repeats(unit, part);
        if times > FEW_TIMES {
            return Some((Many { unit, times }, left));
        }
    }
    None
}

/// All choices and stars that a part begins with, and what follows them.
pub(crate) fn first_run(part: &[u8]) -> Option<(Many<'_>, &[u8])>
    ensures same { IfSome result (λ found. (name : List ℕ)
        → list_any (match_part found.1.now) (after_times found.0.times found.0.unit.now name)
        ≡ match_part part.now name) }
    ensures size { IfSome result
        (λ found. found.0.times * length found.0.unit.now + length found.1.now
        ≤ length part.now) }
{
    let unit = run_of(part);
    let (times, left) = repeats(unit, part);
    if times == 0 {
        return None;
    }
    Some((Many { unit, times }, left))
}

/// The choices and stars that a part begins with.
fn run_of(part: &[u8]) -> &[u8] {
    let mut rest = part;
    while let Some((Item::Star | Item::Choice(_), others)) = first_item(rest) {
        rest = others;
    }
    &part[..part.len() - rest.len()]
}

/// The first so many items of a part, if they are choices and stars.
fn first_items(part: &[u8], items: usize) -> Option<&[u8]> {
    let mut rest = part;
    for _ in 0..items {
        match first_item(rest) {
            Some((Item::Star | Item::Choice(_), others)) => rest = others,
            _ => return None,
        }
    }
    Some(&part[..part.len() - rest.len()])
}

/// How many times the part begins with the unit, and what follows.
fn repeats<'a>(unit: &[u8], part: &'a [u8]) -> (usize, &'a [u8])
    ensures same { (name : List ℕ)
        → list_any (match_part result.1.now) (after_times result.0 unit.now name)
        ≡ match_part part.now name }
    ensures size { result.0 * length unit.now + length result.1.now ≤ length part.now }
{
    let mut times = 0;
    let mut rest = part;
    while let Some(others) = after_unit(unit, rest) {
        times += 1;
        rest = others;
    }
    (times, rest)
}

/// What follows the unit's items, if the part begins with them.
fn after_unit<'a>(unit: &[u8], part: &'a [u8]) -> Option<&'a [u8]>
    ensures same { IfSome result (λ rest. (name : List ℕ)
        → list_any (match_part rest.now) (after_part unit.now name) ≡ match_part part.now name) }
    ensures size { IfSome result (λ rest. length unit.now + length rest.now ≤ length part.now) }
    ensures shorter { IfSome result (λ rest. length rest.now < length part.now) }
{
    let mut unit = unit;
    let mut rest = part;
    while let Some((item, others)) = first_item(unit) {
        let (own, left) = first_item(rest)?;
        if !is_same(item, own) {
            return None;
        }
        unit = others;
        rest = left;
    }
    if !unit.is_empty() {
        return None;
    }
    if rest.len() < part.len() {
        return Some(rest);
    }
    None
}

/// Whether both items are stars, or choices of the same texts.
fn is_same(item: Item<'_>, other: Item<'_>) -> bool
    ensures { result ≡ true → item_of item.entry ≡ item_of other.entry }
{
    match (item, other) {
        (Item::Star, Item::Star) => true,
        (Item::Choice(texts), Item::Choice(others)) => texts == others,
        _ => false,
    }
}

/// The texts of a choice, without each that stands again right after it.
pub(crate) fn without_repeats(texts: &[u8]) -> &[u8]
    ensures same { (name : List ℕ) (test : List ℕ → Bool)
        → list_any test (flat_map (after_text name) (slice_split is_comma result.now))
        ≡ list_any test (flat_map (after_text name) (slice_split is_comma texts.now)) }
    ensures shorter { length result.now ≤ length texts.now }
{
    let mut rest = texts;
    while let Some(others) = after_repeat(rest) {
        rest = others;
    }
    rest
}

/// The texts after the first, if the second is the same.
fn after_repeat(texts: &[u8]) -> Option<&[u8]>
    ensures same { IfSome result (λ others. (name : List ℕ) (test : List ℕ → Bool)
        → list_any test (flat_map (after_text name) (slice_split is_comma others.now))
        ≡ list_any test (flat_map (after_text name) (slice_split is_comma texts.now))) }
    ensures shorter { IfSome result (λ others. length others.now < length texts.now) }
{
    let (text, others) = first_piece(texts, b',');
    let others = others?;
    let (next, _) = first_piece(others, b',');
    if text == next {
        return Some(others);
    }
    None
}
