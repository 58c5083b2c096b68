//! Parts whose lists are read once for all names.
ghost use Rattle.osc_pattern.specs.declared.limits.TheConstants.{MOST_READY};
ghost use Rattle.std.specs.Prelude.{◌≡◌, ◌≤◌, ◌+◌, ℕ, List, [], length, take, true, Bool, IfSome};
ghost use Rattle.std.specs.Prelude.{◌*◌};
ghost use Rattle.std.specs.List.{list_any};
ghost use Rattle.osc_pattern.specs.Reading.{match_part};
ghost use Rattle.osc_pattern.specs.Items.{item_text};
ghost use Rattle.osc_pattern.specs.Cuts.{after_item};
ghost use Rattle.osc_pattern.specs.Repeats.{after_times};
ghost use Rattle.osc_pattern.specs.Views.{item_of};
ghost use Rattle.osc_pattern.specs.ReadyParts.{after_ready, match_ready, ready_size, IsReadOf};
ghost use Rattle.osc_pattern.specs.ReadyParts.{StandsFor};

use crate::bytes::ReadSet;
use crate::item::{Item, first_item};
use crate::limits::MOST_READY;
use crate::many::{Many, first_many, first_run, without_repeats};
use crate::matcher::{rest_after, without_empty};

/// An item whose list, if it is one, has been read.
#[derive(Clone, Copy)]
pub(crate) enum Ready<'a> {
    Set(ReadSet),
    Many(Many<'a>),
    Other(Item<'a>),
}

/// Room for the items of a part, and what follows them.
#[derive(Clone, Copy)]
pub struct ReadyPart<'a> {
    items: [Ready<'a>; MOST_READY],
    count: usize,
    rest: &'a [u8],
}

/// A part as it is tried on names: the items that were made ready, and the text after them.
#[derive(Clone, Copy)]
pub struct Part<'a> {
    pub(crate) items: &'a [Ready<'a>],
    pub(crate) rest: &'a [u8],
}

impl<'a> ReadyPart<'a> {
    /// The empty part.
    pub fn empty() -> ReadyPart<'a>
        ensures { IsReadOf result [] }
    {
        ReadyPart {
            items: [Ready::Other(Item::Any); MOST_READY],
            count: 0,
            rest: b"",
        }
    }

    /// Reads the part's lists, and leaves out what adds nothing. It takes no step.
    pub fn read(part: &'a [u8]) -> ReadyPart<'a>
        ensures { IsReadOf result part.now }
    {
        let mut items = [Ready::Other(Item::Any); MOST_READY];
        let mut count = 0;
        let mut rest = without_empty(part);
        while count < MOST_READY {
            let Some((item, others)) = first_ready(rest, count < MOST_ALONE) else {
                break;
            };
            items[count] = item;
            count += 1;
            rest = others;
        }
        ReadyPart { items, count, rest }
    }

    /// The part, to be tried on names.
    pub fn part(&self) -> Part<'_>
        requires { self.now.count ≤ MOST_READY }
        ensures items { result.items.now ≡ take self.now.count self.now.items }
        ensures rest { result.rest.now ≡ self.now.rest.now }
    {
        Part {
            items: &self.items[..self.count],
            rest: self.rest,
        }
    }
}

impl<'a> Part<'a> {
    /// Whether the part is a star alone, which each name matches.
    pub fn is_star(&self) -> bool
        ensures { result ≡ true → (name : List ℕ)
            → match_ready self.now.items.now self.now.rest.now name ≡ true }
    {
        if !self.items.is_empty() {
            return false;
        }
        if self.rest.len() != 1 {
            return false;
        }
        self.rest[0] == b'*'
    }

    /// The part as it stands.
    pub fn whole(part: &'a [u8]) -> Part<'a>
        ensures { StandsFor result part.now }
    {
        Part {
            items: &[],
            rest: part,
        }
    }
}

/// Choices and stars after so many items are made ready all together, so that there is room for the
/// lists after them.
const MOST_ALONE: usize = 16;

/// What the part begins with, made ready, and what follows it without what adds nothing there.
fn first_ready(part: &[u8], alone: bool) -> Option<(Ready<'_>, &[u8])>
    ensures same { IfSome result (λ found. (name : List ℕ)
        → list_any (match_part found.1.now) (after_ready found.0 name) ≡ match_part part.now name) }
    ensures size { IfSome result
        (λ found. ready_size found.0 + length found.1.now ≤ length part.now) }
{
    if let Some((many, others)) = first_together(part, alone) {
        return Some((Ready::Many(many), others));
    }
    match first_item(part) {
        Some((item, others)) => Some((ready_item(item), rest_after(item, others))),
        None => None,
    }
}

/// What repeats, or all choices and stars that the part begins with.
fn first_together(part: &[u8], alone: bool) -> Option<(Many<'_>, &[u8])>
    ensures same { IfSome result (λ found. (name : List ℕ)
        → list_any (match_part found.1.now) (after_times found.0.times found.0.unit.now name)
        ≡ match_part part.now name) }
    ensures size { IfSome result
        (λ found. found.0.times * length found.0.unit.now + length found.1.now
        ≤ length part.now) }
{
    if alone {
        return first_many(part);
    }
    first_run(part)
}

/// The item, with its list read, or its choice without what stands twice.
fn ready_item(item: Item<'_>) -> Ready<'_>
    ensures same { (name : List ℕ) (test : List ℕ → Bool)
        → list_any test (after_ready result name)
        ≡ list_any test (after_item (item_of item.entry) name) }
    ensures size { ready_size result ≤ length (item_text (item_of item.entry)) }
{
    match item {
        Item::Set(list) => Ready::Set(ReadSet::uncounted(list)),
        Item::Choice(texts) => Ready::Other(Item::Choice(without_repeats(texts))),
        Item::Any | Item::Star | Item::Plain(_) => Ready::Other(item),
    }
}
