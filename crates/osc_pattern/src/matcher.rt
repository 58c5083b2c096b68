// The matcher: one item of a part after another, and the places of the name that they reach.
ghost use Rattle.osc_pattern.specs.declared.limits.TheConstants.{MAX_NAME};
ghost use Rattle.std.specs.Prelude.{◌≡◌, ◌≤◌, ◌<◌, ◌+◌, ◌*◌, ◌||◌, ℕ, Bool, false, List, ◌∷◌};
ghost use Rattle.std.specs.Prelude.{length, IsTrue, IfSome, MatchOption, Some, None};
ghost use Rattle.std.specs.List.{flat_map, list_any, slice_split};
ghost use Rattle.osc_pattern.specs.Items.{is_comma, item_text, any, set, choice, plain};
ghost use Rattle.osc_pattern.specs.Items.{Item as Spelled};
ghost use Rattle.osc_pattern.specs.Cuts.{rests, after_text, after_byte, after_item};
ghost use Rattle.osc_pattern.specs.Reading.{first_item, match_part};
ghost use Rattle.osc_pattern.specs.Views.{item_of, passes, is_choice, idle_bytes, begins_empty};
ghost use Rattle.osc_pattern.specs.Views.{AreMarks, is_place_of, texts_left};
ghost use Rattle.osc_pattern.specs.Repeats.{after_part, after_times};
ghost use Rattle.osc_pattern.specs.ReadyParts.{match_ready, all_ready_size, ready_size};
ghost use Rattle.osc_pattern.specs.ReadyParts.{after_ready, after_one, is_as};

use crate::bytes::{ByteSet, ReadSet};
use crate::item::{Item, first_item, has_byte};
use crate::many::Many;
use crate::marks::marks_of;
use crate::places::Places;
use crate::ready::{Part, Ready};
use crate::steps::Steps;
use std::sync::ledger::Ledger;

/// Whether a part matches a name.
///
/// Until the first star or choice there is one place, so it goes on in both together.
pub(crate) fn match_part<L: Ledger>(part: &[u8], name: &[u8], steps: &mut Steps<L>) -> bool
    requires { length name.now ≤ MAX_NAME }
    ensures value { result ≡ match_part part.now name.now }
    ensures begun { steps.old < steps.new }
    ensures bounded { steps.new ≤ steps.old + (length name.now + 1) * length part.now + 1 }
{
    let mut part = part;
    let mut name = name;
    loop {
        steps.tick();
        let Some((item, others)) = first_item(part) else {
            return part.is_empty() && name.is_empty();
        };
        match item {
            Item::Star => return others.is_empty() || match_places(part, name, steps),
            Item::Choice(_) => return match_choices(part, &first_place(), name, steps),
            Item::Any | Item::Set(_) | Item::Plain(_) => {
                let [byte, rest @ ..] = name else {
                    return false;
                };
                if !has_byte(item, *byte, steps) {
                    return false;
                }
                part = others;
                name = rest;
            }
        }
    }
}

/// A part with more bytes than this is worth noting at which places of the name each byte stands.
const SHORT_PART: usize = 64;

/// Whether a part matches a name, by the places that its items reach, up to the first choice. A
/// long part isn't begun.
fn match_places<L: Ledger>(part: &[u8], name: &[u8], steps: &mut Steps<L>) -> bool
    requires { length name.now ≤ MAX_NAME }
    ensures value { result ≡ match_part part.now name.now }
    ensures counted { steps.old ≤ steps.new }
    ensures bounded { steps.new ≤ steps.old + (length name.now + 1) * length part.now }
{
    let mut reached = first_place();
    let mut part = part;
    while let Some((item, others)) = first_item(part) {
        if reached.is_empty() {
            return false;
        }
        if part.len() > SHORT_PART || is_choice(item) {
            return match_choices(part, &reached, name, steps);
        }
        reached = places_after(item, &reached, name, steps);
        part = rest_after(item, others);
    }
    part.is_empty() && reached.has(name.len())
}

/// Whether a part matches what is left of a name at one of the places. The places at which each
/// byte of the name stands are noted once, so that a byte of a choice is tried at all places at
/// once. Their room takes long to clear, and so this is not put into its callers.
#[inline(never)]
fn match_choices<L: Ledger>(part: &[u8], from: &Places, name: &[u8], steps: &mut Steps<L>) -> bool
    requires { length name.now ≤ MAX_NAME }
    ensures value { result ≡ passes (match_part part.now) from.now name.now }
    ensures counted { steps.old ≤ steps.new }
    ensures bounded { steps.new ≤ steps.old + (length name.now + 1) * length part.now }
{
    let marks = marks_of(name);
    let mut reached = from.again();
    let mut part = part;
    loop {
        if reached.is_empty() {
            return false;
        }
        let Some((next, others)) = after_first(part, &reached, &marks, name, steps) else {
            return part.is_empty() && reached.has(name.len());
        };
        reached = next;
        part = others;
    }
}

/// The places that stand after a text of the part's first item from one of these, and what follows
/// the item, without what adds nothing there.
#[inline(always)]
fn after_first<'a, L: Ledger>(
    part: &'a [u8],
    reached: &Places,
    marks: &[u64; 256],
    name: &[u8],
    steps: &mut Steps<L>,
) -> Option<(Places, &'a [u8])>
    requires short { length name.now ≤ MAX_NAME }
    requires marks { AreMarks marks.now name.now }
    ensures value { MatchOption result (first_item part.now ≡ None)
        (λ found. passes (match_part found.1.now) found.0 name.now
        ≡ passes (match_part part.now) reached.now name.now) }
    ensures counted { steps.old ≤ steps.new }
    ensures bounded { steps.new ≤ steps.old + (length name.now + 1) * length part.now }
    ensures size { IfSome result (λ found. steps.new + (length name.now + 1) * length found.1.now
        ≤ steps.old + (length name.now + 1) * length part.now) }
    ensures shorter { IfSome result (λ found. length found.1.now < length part.now) }
{
    let [first, others @ ..] = part else {
        return None;
    };
    if *first == b'*' {
        return Some((after_star(reached, steps), without_idle(others)));
    }
    let (next, left) = after_next(part, reached, marks, name, steps)?;
    Some((next, without_empty(left)))
}

/// The places that stand after a text of the part's first item from one of these, and what follows
/// the item. A choice's end is found on the way.
#[inline(always)]
fn after_next<'a, L: Ledger>(
    part: &'a [u8],
    reached: &Places,
    marks: &[u64; 256],
    name: &[u8],
    steps: &mut Steps<L>,
) -> Option<(Places, &'a [u8])>
    requires short { length name.now ≤ MAX_NAME }
    requires marks { AreMarks marks.now name.now }
    ensures value { MatchOption result (first_item part.now ≡ None)
        (λ found. (item : Spelled) × (first_item part.now ≡ Some (item, found.1.now))
        × ((test : List ℕ → Bool) → passes test found.0 name.now
        ≡ passes (λ rest. list_any test (after_item item rest)) reached.now name.now)) }
    ensures counted { steps.old ≤ steps.new }
    ensures bounded { steps.new ≤ steps.old + (length name.now + 1) * length part.now }
    ensures size { IfSome result (λ found. steps.new + (length name.now + 1) * length found.1.now
        ≤ steps.old + (length name.now + 1) * length part.now) }
    ensures shorter { IfSome result (λ found. length found.1.now < length part.now) }
{
    let [first, texts @ ..] = part else {
        return None;
    };
    if *first == b'{' {
        return after_texts(texts, reached, marks, steps);
    }
    if *first == b'*' {
        return Some((after_star(reached, steps), texts));
    }
    let (item, others) = first_item(part)?;
    let next = places_after_any(item, reached, marks, name, steps);
    Some((next, others))
}

/// The places that stand after one of the texts of a choice, and what follows its end. The text
/// begins after its brace.
#[inline(always)]
fn after_texts<'a, L: Ledger>(
    texts: &'a [u8],
    reached: &Places,
    marks: &[u64; 256],
    steps: &mut Steps<L>,
) -> Option<(Places, &'a [u8])>
    ensures value { MatchOption result (first_item (123 ∷ texts.now) ≡ None)
        (λ found. (own : List ℕ)
        × (first_item (123 ∷ texts.now) ≡ Some (choice own, found.1.now))
        × ((name : List ℕ) (test : List ℕ → Bool) → length name ≤ MAX_NAME
        → AreMarks marks.now name → passes test found.0 name
        ≡ passes (λ rest. list_any test (after_item (choice own) rest)) reached.now name)) }
    ensures counted { steps.old ≤ steps.new }
    ensures bounded { steps.new ≤ steps.old + length texts.now }
    ensures size { IfSome result
        (λ found. steps.new + length found.1.now ≤ steps.old + length texts.now) }
    ensures shorter { IfSome result (λ found. length found.1.now < length texts.now) }
{
    let mut next = Places::none();
    let mut places = reached.again();
    let mut rest = texts;
    loop {
        let [byte, others @ ..] = rest else {
            return None;
        };
        if *byte == b'}' {
            steps.tick();
            next.join(&places);
            return Some((next, others));
        }
        try_byte(*byte, reached, marks, &mut places, &mut next, steps);
        rest = others;
    }
}

/// Whether a part whose items were made ready matches a name.
pub(crate) fn match_ready<L: Ledger>(part: Part<'_>, name: &[u8], steps: &mut Steps<L>) -> bool
    requires { length name.now ≤ MAX_NAME }
    ensures value { result ≡ match_ready part.entry.items.now part.entry.rest.now name.now }
    ensures begun { steps.old < steps.new }
    ensures bounded { steps.new ≤ steps.old + (length name.now + 1)
        * (all_ready_size part.entry.items.now + length part.entry.rest.now) + 1 }
{
    if part.items.is_empty() {
        return match_part(part.rest, name, steps);
    }
    match_items(part, name, steps)
}

/// The same, for a part with items. It alone needs the room of the marks, which takes long to
/// clear, and so is not put into its caller.
#[inline(never)]
fn match_items<L: Ledger>(part: Part<'_>, name: &[u8], steps: &mut Steps<L>) -> bool
    requires { length name.now ≤ MAX_NAME }
    ensures value { result ≡ match_ready part.entry.items.now part.entry.rest.now name.now }
    ensures begun { steps.old < steps.new }
    ensures bounded { steps.new ≤ steps.old + (length name.now + 1)
        * (all_ready_size part.entry.items.now + length part.entry.rest.now) + 1 }
{
    steps.tick();
    let marks = marks_of(name);
    let mut reached = first_place();
    let mut items = part.items;
    while let [item, others @ ..] = items {
        if reached.is_empty() {
            return false;
        }
        reached = places_after_ready(item, &reached, &marks, name, steps);
        items = others;
    }
    match_choices(part.rest, &reached, name, steps)
}

/// The first place alone.
fn first_place() -> Places
    ensures { (test : List ℕ → Bool) (name : List ℕ) → passes test result name ≡ test name }
{
    let mut first = Places::none();
    first.add(0);
    first
}

/// What follows an item, without what adds nothing there.
pub(crate) fn rest_after<'a>(item: Item<'_>, others: &'a [u8]) -> &'a [u8]
    ensures same { (name : List ℕ)
        → list_any (match_part result.now) (after_item (item_of item.entry) name)
        ≡ list_any (match_part others.now) (after_item (item_of item.entry) name) }
    ensures shorter { length result.now ≤ length others.now }
{
    match item {
        Item::Star => without_idle(others),
        Item::Any | Item::Set(_) | Item::Choice(_) | Item::Plain(_) => without_empty(others),
    }
}

/// The part after each star and each `{}` that it begins with. After a star they add nothing.
fn without_idle(part: &[u8]) -> &[u8]
    ensures same { (name : List ℕ) → match_part (42 ∷ result.now) name
        ≡ match_part (42 ∷ part.now) name }
    ensures shorter { length result.now ≤ length part.now }
{
    let mut rest = part;
    loop {
        let idle = idle_bytes(rest);
        if idle == 0 {
            return rest;
        }
        rest = &rest[idle..];
    }
}

/// How many bytes a star or a `{}` takes that the part begins with.
fn idle_bytes(part: &[u8]) -> usize
    ensures value { result ≡ idle_bytes part.now }
    ensures within { result ≤ length part.now }
{
    match part {
        [b'*', ..] => 1,
        [b'{', b'}', ..] => 2,
        _ => 0,
    }
}

/// The part after each `{}` that it begins with. They match the empty text alone.
pub(crate) fn without_empty(part: &[u8]) -> &[u8]
    ensures same { (name : List ℕ) → match_part result.now name ≡ match_part part.now name }
    ensures shorter { length result.now ≤ length part.now }
{
    let mut rest = part;
    while begins_empty(rest) {
        rest = &rest[2..];
    }
    rest
}

/// Whether a part begins with `{}`.
fn begins_empty(part: &[u8]) -> bool
    ensures value { result ≡ begins_empty part.now }
    ensures long { IsTrue result → 2 ≤ length part.now }
{
    match part {
        [first, second, ..] => *first == b'{' && *second == b'}',
        _ => false,
    }
}

fn is_choice(item: Item<'_>) -> bool
    ensures { result ≡ is_choice item.entry }
{
    match item {
        Item::Choice(_) => true,
        Item::Any | Item::Star | Item::Set(_) | Item::Plain(_) => false,
    }
}

/// The places that stand after a text of the item from one of these.
fn places_after_ready<L: Ledger>(
    item: &Ready<'_>,
    reached: &Places,
    marks: &[u64; 256],
    name: &[u8],
    steps: &mut Steps<L>,
) -> Places
    requires short { length name.now ≤ MAX_NAME }
    requires marks { AreMarks marks.now name.now }
    ensures value { (test : List ℕ → Bool) → passes test result name.now
        ≡ passes (λ rest. list_any test (after_ready item.now rest)) reached.now name.now }
    ensures counted { steps.old ≤ steps.new }
    ensures bounded { steps.new ≤ steps.old + (length name.now + 1) * ready_size item.now }
{
    match item {
        Ready::Set(set) => after_one(&set.bytes, set.within, reached, name, steps),
        Ready::Many(many) => after_many(many, reached, marks, name, steps),
        Ready::Other(item) => places_after_any(*item, reached, marks, name, steps),
    }
}

/// The places that stand after so many repeats of the items from one of these. Where one of them
/// leaves the places as they were, the others do.
#[inline(never)]
fn after_many<L: Ledger>(
    many: &Many<'_>,
    from: &Places,
    marks: &[u64; 256],
    name: &[u8],
    steps: &mut Steps<L>,
) -> Places
    requires short { length name.now ≤ MAX_NAME }
    requires marks { AreMarks marks.now name.now }
    ensures value { (test : List ℕ → Bool) → passes test result name.now
        ≡ passes (λ rest. list_any test (after_times many.now.times many.now.unit.now rest))
        from.now name.now }
    ensures counted { steps.old ≤ steps.new }
    ensures bounded { steps.new
        ≤ steps.old + (length name.now + 1) * (many.now.times * length many.now.unit.now) }
{
    let mut reached = from.again();
    let mut left = many.times;
    while left > 0 {
        let next = places_after_all(many.unit, &reached, marks, name, steps);
        if next.is_same(&reached) {
            return next;
        }
        reached = next;
        left -= 1;
    }
    reached
}

/// The places that stand after the items of a text from one of these.
fn places_after_all<L: Ledger>(
    items: &[u8],
    from: &Places,
    marks: &[u64; 256],
    name: &[u8],
    steps: &mut Steps<L>,
) -> Places
    requires short { length name.now ≤ MAX_NAME }
    requires marks { AreMarks marks.now name.now }
    ensures value { (test : List ℕ → Bool) → passes test result name.now
        ≡ passes (λ rest. list_any test (after_part items.now rest)) from.now name.now }
    ensures counted { steps.old ≤ steps.new }
    ensures bounded { steps.new ≤ steps.old + (length name.now + 1) * length items.now }
{
    let mut reached = from.again();
    let mut items = items;
    while let Some((next, others)) = after_next(items, &reached, marks, name, steps) {
        reached = next;
        items = others;
    }
    if items.is_empty() {
        return reached;
    }
    Places::none()
}

/// The places that stand one byte after one of these, where the byte is in the set, or where it
/// isn't.
fn after_one<L: Ledger>(
    bytes: &ByteSet,
    within: bool,
    reached: &Places,
    name: &[u8],
    steps: &mut Steps<L>,
) -> Places
    requires { length name.now ≤ MAX_NAME }
    ensures value { (test : List ℕ → Bool) → passes test result name.now
        ≡ passes (λ rest. list_any test (after_one (is_as bytes.now within) rest)) reached.now
        name.now }
    ensures counted { steps.old ≤ steps.new }
    ensures bounded { steps.new ≤ steps.old + (length name.now + 1) }
{
    let mut next = Places::none();
    let mut place = 0;
    let mut rest = name;
    loop {
        steps.tick();
        let [byte, after @ ..] = rest else {
            return next;
        };
        if reached.has(place) && bytes.has(*byte) == within {
            next.add(place + 1);
        }
        place += 1;
        rest = after;
    }
}

/// The places that stand after a text of the item from one of these.
fn places_after_any<L: Ledger>(
    item: Item<'_>,
    reached: &Places,
    marks: &[u64; 256],
    name: &[u8],
    steps: &mut Steps<L>,
) -> Places
    requires short { length name.now ≤ MAX_NAME }
    requires marks { AreMarks marks.now name.now }
    ensures value { (test : List ℕ → Bool) → passes test result name.now
        ≡ passes (λ rest. list_any test (after_item (item_of item.entry) rest)) reached.now
        name.now }
    ensures counted { steps.old ≤ steps.new }
    ensures bounded { steps.new
        ≤ steps.old + (length name.now + 1) * length (item_text (item_of item.entry)) }
{
    match item {
        Item::Choice(texts) => after_choice(texts, reached, marks, steps),
        Item::Plain(own) => after_plain(own, reached, marks, steps),
        Item::Any | Item::Star | Item::Set(_) => places_after(item, reached, name, steps),
    }
}

/// The places that stand after a text of the item, which is no choice, from one of these.
fn places_after<L: Ledger>(
    item: Item<'_>,
    reached: &Places,
    name: &[u8],
    steps: &mut Steps<L>,
) -> Places
    requires short { length name.now ≤ MAX_NAME }
    requires other { is_choice item ≡ false }
    ensures value { (test : List ℕ → Bool) → passes test result name.now
        ≡ passes (λ rest. list_any test (after_item (item_of item.entry) rest)) reached.now
        name.now }
    ensures counted { steps.old ≤ steps.new }
    ensures bounded { steps.new
        ≤ steps.old + (length name.now + 1) * length (item_text (item_of item.entry)) }
{
    match item {
        Item::Star => after_star(reached, steps),
        Item::Choice(_) => unreachable!(),
        Item::Set(list) => after_set(list, reached, name, steps),
        Item::Any => after_any(reached, steps),
        Item::Plain(_) => after_byte(item, reached, name, steps),
    }
}

/// The places that stand one byte after one of these.
fn after_any<L: Ledger>(reached: &Places, steps: &mut Steps<L>) -> Places
    ensures value { (name : List ℕ) (test : List ℕ → Bool) → length name ≤ MAX_NAME
        → passes test result name
        ≡ passes (λ rest. list_any test (after_byte any rest)) reached.now name }
    ensures counted { steps.old ≤ steps.new }
    ensures bounded { steps.new ≤ steps.old + 1 }
{
    steps.tick();
    reached.after(u64::MAX)
}

/// The places that stand one byte after one of these, where it is this byte.
fn after_plain<L: Ledger>(
    own: u8,
    reached: &Places,
    marks: &[u64; 256],
    steps: &mut Steps<L>,
) -> Places
    ensures value { (name : List ℕ) (test : List ℕ → Bool) → length name ≤ MAX_NAME
        → AreMarks marks.now name → passes test result name
        ≡ passes (λ rest. list_any test (after_byte (plain own) rest)) reached.now name }
    ensures counted { steps.old ≤ steps.new }
    ensures bounded { steps.new ≤ steps.old + 1 }
{
    steps.tick();
    reached.after(marks[own as usize])
}

/// The places that stand one byte after one of these, where the set matches the byte. The list is
/// read once for all places, a step for each range.
fn after_set<L: Ledger>(list: &[u8], reached: &Places, name: &[u8], steps: &mut Steps<L>) -> Places
    requires { length name.now ≤ MAX_NAME }
    ensures value { (test : List ℕ → Bool) → passes test result name.now
        ≡ passes (λ rest. list_any test (after_byte (set list.now) rest)) reached.now name.now }
    ensures counted { steps.old ≤ steps.new }
    ensures bounded { steps.new
        ≤ steps.old + (length name.now + 1) * length (item_text (set list.now)) }
{
    let set = ReadSet::of(list, steps);
    after_one(&set.bytes, set.within, reached, name, steps)
}

/// The places that stand one byte after one of these, where the byte is a text of the item.
fn after_byte<L: Ledger>(
    item: Item<'_>,
    reached: &Places,
    name: &[u8],
    steps: &mut Steps<L>,
) -> Places
    requires { length name.now ≤ MAX_NAME }
    ensures value { (test : List ℕ → Bool) → passes test result name.now
        ≡ passes (λ rest. list_any test (after_byte (item_of item.entry) rest)) reached.now
        name.now }
    ensures counted { steps.old ≤ steps.new }
    ensures bounded { steps.new
        ≤ steps.old + (length name.now + 1) * length (item_text (item_of item.entry)) }
{
    let mut next = Places::none();
    let mut place = 0;
    let mut rest = name;
    loop {
        steps.tick();
        let [byte, after @ ..] = rest else {
            return next;
        };
        if reached.has(place) && has_byte(item, *byte, steps) {
            next.add(place + 1);
        }
        place += 1;
        rest = after;
    }
}

/// The first of the places, and all after it.
fn after_star<L: Ledger>(reached: &Places, steps: &mut Steps<L>) -> Places
    ensures value { (name : List ℕ) (test : List ℕ → Bool) → length name ≤ MAX_NAME
        → passes test result name
        ≡ passes (λ rest. list_any test (rests rest)) reached.now name }
    ensures counted { steps.old ≤ steps.new }
    ensures bounded { steps.new ≤ steps.old + 1 }
{
    steps.tick();
    reached.onward()
}

/// The places that stand after one of the texts from one of these. Each byte is tried at all places
/// at once.
fn after_choice<L: Ledger>(
    texts: &[u8],
    reached: &Places,
    marks: &[u64; 256],
    steps: &mut Steps<L>,
) -> Places
    ensures value { (name : List ℕ) (test : List ℕ → Bool) → length name ≤ MAX_NAME
        → AreMarks marks.now name → passes test result name
        ≡ passes (λ rest. list_any test
        (flat_map (after_text rest) (slice_split is_comma texts.now)))
        reached.now name }
    ensures counted { steps.old ≤ steps.new }
    ensures bounded { steps.new ≤ steps.old + (length texts.now + 1) }
{
    let mut next = Places::none();
    let mut places = reached.again();
    let mut texts = try_eights(texts, reached, marks, &mut places, &mut next, steps);
    while let [byte, others @ ..] = texts {
        try_byte(*byte, reached, marks, &mut places, &mut next, steps);
        texts = others;
    }
    steps.tick();
    next.join(&places);
    next
}

/// Takes the places on by the bytes of a choice, eight at a time, and answers the bytes that are
/// left, fewer than eight.
fn try_eights<'a, L: Ledger>(
    texts: &'a [u8],
    reached: &Places,
    marks: &[u64; 256],
    places: &mut Places,
    next: &mut Places,
    steps: &mut Steps<L>,
) -> &'a [u8]
    ensures value { (name : List ℕ) (test : List ℕ → Bool) → length name ≤ MAX_NAME
        → AreMarks marks.now name
        → (passes test next.new name
        || texts_left test (is_place_of places.new) (is_place_of reached.now)
        (slice_split is_comma result.now) name)
        ≡ (passes test next.old name
        || texts_left test (is_place_of places.old) (is_place_of reached.now)
        (slice_split is_comma texts.now) name) }
    ensures counted { steps.old ≤ steps.new }
    ensures bounded { steps.new + length result.now ≤ steps.old + length texts.now }
{
    let mut texts = texts;
    while let [a, b, c, d, e, f, g, h, others @ ..] = texts {
        try_byte(*a, reached, marks, places, next, steps);
        try_byte(*b, reached, marks, places, next, steps);
        try_byte(*c, reached, marks, places, next, steps);
        try_byte(*d, reached, marks, places, next, steps);
        try_byte(*e, reached, marks, places, next, steps);
        try_byte(*f, reached, marks, places, next, steps);
        try_byte(*g, reached, marks, places, next, steps);
        try_byte(*h, reached, marks, places, next, steps);
        texts = others;
    }
    texts
}

/// Takes the places on by one byte of a choice. A comma ends a text.
#[inline(always)]
fn try_byte<L: Ledger>(
    byte: u8,
    reached: &Places,
    marks: &[u64; 256],
    places: &mut Places,
    next: &mut Places,
    steps: &mut Steps<L>,
)
    ensures value { (name others : List ℕ) (test : List ℕ → Bool) → length name ≤ MAX_NAME
        → AreMarks marks.now name
        → (passes test next.new name
        || texts_left test (is_place_of places.new) (is_place_of reached.now)
        (slice_split is_comma others) name)
        ≡ (passes test next.old name
        || texts_left test (is_place_of places.old) (is_place_of reached.now)
        (slice_split is_comma (byte ∷ others)) name) }
    ensures counted { steps.new ≡ steps.old + 1 }
{
    steps.tick();
    if byte == b',' {
        next.join(places);
        *places = reached.again();
    } else {
        *places = places.after(marks[byte as usize]);
    }
}
