// Items of a pattern, borrowed from its bytes.
ghost use Rattle.std.specs.Prelude.{◌≡◌, ◌<◌, ◌≤◌, ◌+◌, length, option_map, IfSome};
ghost use Rattle.osc_pattern.specs.Items.{item_text, stands_for, is_in_set, is_between};
ghost use Rattle.osc_pattern.specs.Cuts.{has_byte};
ghost use Rattle.osc_pattern.specs.Reading.{first_item, first_range};
ghost use Rattle.osc_pattern.specs.Views.{item_of};

use crate::cut::cut_at;
use crate::steps::Steps;
use std::sync::ledger::Ledger;

/// One item. `Set` and `Choice` have the bytes between the brackets.
#[derive(Clone, Copy)]
pub(crate) enum Item<'a> {
    Any,
    Star,
    Set(&'a [u8]),
    Choice(&'a [u8]),
    Plain(u8),
}

/// The first item of a part, and what follows it. `None` comes for an empty part, and where a
/// bracket isn't closed.
pub(crate) fn first_item(part: &[u8]) -> Option<(Item<'_>, &[u8])>
    ensures value { option_map (λ found. (item_of found.0, found.1.now)) result
        ≡ first_item part.now }
    ensures shorter { IfSome result (λ found. length found.1.now < length part.now) }
{
    let [first, rest @ ..] = part else {
        return None;
    };
    match *first {
        b'?' => Some((Item::Any, rest)),
        b'*' => Some((Item::Star, rest)),
        b'[' => cut_at(rest, b']').map(|(list, after)| (Item::Set(list), after)),
        b'{' => cut_at(rest, b'}').map(|(texts, after)| (Item::Choice(texts), after)),
        b'/' => None,
        byte => Some((Item::Plain(byte), rest)),
    }
}

/// Whether a set with this list matches the byte.
fn is_in_set<L: Ledger>(list: &[u8], byte: u8, steps: &mut Steps<L>) -> bool
    ensures value { result ≡ is_in_set list.now byte }
    ensures counted { steps.old ≤ steps.new }
    ensures bounded { steps.new ≤ steps.old + length list.now }
{
    match list {
        [b'!', rest @ ..] => !stands_for(rest, byte, steps),
        _ => stands_for(list, byte, steps),
    }
}

/// Whether the byte is one of those that the list stands for. A range counts as one byte, so it
/// takes one step.
fn stands_for<L: Ledger>(list: &[u8], byte: u8, steps: &mut Steps<L>) -> bool
    ensures value { result ≡ stands_for list.now byte }
    ensures counted { steps.old ≤ steps.new }
    ensures bounded { steps.new ≤ steps.old + length list.now }
{
    let mut rest = list;
    while let Some(((first, last), after)) = first_range(rest) {
        steps.tick();
        if is_between(first, last, byte) {
            return true;
        }
        rest = after;
    }
    false
}

/// The ends of the first range of a list, and what follows it. A byte that begins no range is both
/// ends.
pub(crate) fn first_range(list: &[u8]) -> Option<((u8, u8), &[u8])>
    ensures { option_map (λ found. (found.0, found.1.now)) result ≡ first_range list.now }
{
    match list {
        [] => None,
        [first, b'-', last, after @ ..] if *first != b'-' => Some(((*first, *last), after)),
        [first, after @ ..] => Some(((*first, *first), after)),
    }
}

/// Whether the byte is one of those between the two ends, whichever is greater.
fn is_between(first: u8, last: u8, byte: u8) -> bool
    ensures { result ≡ is_between first last byte }
{
    first.min(last) <= byte && byte <= first.max(last)
}

/// Whether the byte alone is a text of the item: of `?`, a set or a plain byte.
///
/// The item's first byte has had its step. Each range of a set takes another.
pub(crate) fn has_byte<L: Ledger>(item: Item<'_>, byte: u8, steps: &mut Steps<L>) -> bool
    ensures value { result ≡ has_byte (item_of item.entry) byte }
    ensures counted { steps.old ≤ steps.new }
    ensures bounded { steps.new + 1 ≤ steps.old + length (item_text (item_of item.entry)) }
{
    match item {
        Item::Any => true,
        Item::Set(list) => is_in_set(list, byte, steps),
        Item::Plain(own) => byte == own,
        Item::Star | Item::Choice(_) => false,
    }
}
