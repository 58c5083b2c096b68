// How many parts of a pattern match the names of a method.
ghost use Rattle.osc_pattern.specs.declared.limits.TheConstants.{MAX_NAME, MAX_NAMES};
ghost use Rattle.std.specs.Prelude.{◌≡◌, ◌≤◌, ◌<◌, ◌+◌, ◌*◌, ◌==◌, ◌&&◌, true, length, drop};
ghost use Rattle.std.specs.Prelude.{get_or, All, false};
ghost use Rattle.std.specs.List.{slice_split};
ghost use Rattle.osc_pattern.specs.Items.{is_slash};
ghost use Rattle.osc_pattern.specs.Patterns.{parts_of, part_at};
ghost use Rattle.osc_pattern.specs.Reading.{match_part};
ghost use Rattle.osc_pattern.specs.ReadyParts.{StandsFor};
ghost use Rattle.osc_tree.specs.Views.{method_at, methods_at};
ghost use Rattle.osc_tree.specs.Walking.{agreeing, spent, known_at, IsSorted, IsFront, AreParts};

use crate::names::{Front, first_name, names_of, shared_front};
use crate::registered::Registered;
use osc_pattern::{MAX_NAMES, Part, Pattern, Steps};
use std::sync::ledger::Ledger;

/// How many parts match the names at their places, from the first on; whether these are all parts
/// and all names, whether no more than one name stands after them, and whether none does where
/// parts are left.
#[derive(Clone, Copy)]
pub(crate) struct Agreement {
    pub(crate) matching: u32,
    pub(crate) is_whole: bool,
    pub(crate) is_last: bool,
    pub(crate) is_ended: bool,
}

/// The names that the method at this place has in common with the one before it, if any is. All
/// begin with the front.
pub(crate) fn known_at(
    methods: &[Registered],
    places: &[u32],
    at: usize,
    names: &[u8],
    front: Front,
) -> Front
    requires within { All (λ place. place < length methods.now) places.now }
    requires sorted { IsSorted (methods_at methods.now places.now) }
    requires at { at < length places.now }
    requires front { IsFront front.names front.bytes (methods_at methods.now places.now) }
    requires bytes { names.now
        ≡ drop 1 (get_or (methods_at methods.now places.now) at (method_at methods.now 0)).address }
    requires names { slice_split is_slash names.now
        ≡ parts_of (get_or (methods_at methods.now places.now) at
        (method_at methods.now 0)).address }
    ensures count { result.names
        ≡ known_at (methods_at methods.now places.now) at (method_at methods.now 0) }
    ensures bound { result.bytes ≤ length names.now }
    ensures cut { slice_split is_slash (drop result.bytes names.now)
        ≡ drop result.names (slice_split is_slash names.now) }
{
    if at == 0 {
        return Front { names: 0, bytes: 0 };
    }
    let before = &methods[places[at - 1] as usize];
    shared_front(front, names, names_of(&before.address))
}

/// Whether a part matches a name. A star alone does, and takes no step.
#[inline(always)]
fn matches_name<L: Ledger>(
    pattern: &Pattern<'_>,
    place: u32,
    part: Part<'_>,
    name: &[u8],
    steps: &mut Steps<L>,
) -> bool
    requires part { place < length (parts_of pattern.now) }
    requires found { StandsFor part (part_at pattern.now place) }
    requires name { length name.now ≤ MAX_NAME }
    ensures test { result ≡ match_part (part_at pattern.now place) name.now }
    ensures counted { steps.old ≤ steps.new }
    ensures bounded { steps.new
        ≤ steps.old + (length (part_at pattern.now place) + 1) * (length name.now + 1) }
{
    if part.is_star() {
        return true;
    }
    pattern.matches_found(place, part, name, steps)
}

/// How far a pattern and the names of a method agree. Those parts that the names are known to begin
/// with match.
pub(crate) fn count_matching<L: Ledger>(
    pattern: &Pattern<'_>,
    parts: u32,
    found: &[Part<'_>; MAX_NAMES],
    known: Front,
    names: &[u8],
    steps: &mut Steps<L>,
) -> Agreement
    requires parts { parts ≡ length (parts_of pattern.now) }
    requires few { parts ≤ MAX_NAMES }
    requires found { AreParts found.now pattern.now }
    requires short { All (λ name. length name ≤ MAX_NAME) (slice_split is_slash names.now) }
    requires known { known.names
        ≤ agreeing (parts_of pattern.now) (slice_split is_slash names.now) }
    requires bound { known.bytes ≤ length names.now }
    requires cut { slice_split is_slash (drop known.bytes names.now)
        ≡ drop known.names (slice_split is_slash names.now) }
    ensures count { result.matching
        ≡ agreeing (parts_of pattern.now) (slice_split is_slash names.now) }
    ensures whole { result.is_whole ≡ (result.matching == parts
        && result.matching == length (slice_split is_slash names.now)) }
    ensures last { result.is_last ≡ true
        → length (slice_split is_slash names.now) ≤ result.matching + 1 }
    ensures more { result.is_last ≡ true → result.is_whole ≡ false → result.matching < parts }
    ensures counted { steps.old ≤ steps.new }
    ensures bounded { steps.new
        ≤ steps.old + spent known.names (parts_of pattern.now) (slice_split is_slash names.now) }
{
    let mut place = known.names as u32;
    let mut rest = &names[known.bytes..];
    while place < parts {
        let (name, more) = first_name(rest);
        if !matches_name(pattern, place, found[place as usize], name, steps) {
            return Agreement {
                matching: place,
                is_whole: false,
                is_last: more.is_none(),
                is_ended: false,
            };
        }
        place += 1;
        match more {
            Some(more) => rest = more,
            None => return ended(place, parts),
        }
    }
    Agreement {
        matching: place,
        is_whole: false,
        is_last: false,
        is_ended: false,
    }
}

/// Where all names match, which are so many.
fn ended(names: u32, parts: u32) -> Agreement
    ensures count { result.matching ≡ names }
    ensures whole { result.is_whole ≡ (result.matching == parts) }
    ensures last { result.is_last ≡ true }
{
    Agreement {
        matching: names,
        is_whole: names == parts,
        is_last: true,
        is_ended: names < parts,
    }
}
