//! A pattern that selects lines.
ghost use Rattle.std.specs.Prelude.{◌≡◌, ◌<◌, ◌+◌, ◌∷◌, ◌&&◌, [], length, MatchOption, IfSome};
ghost use Rattle.std.specs.Prelude.{ℕ, List, option_map, position};
ghost use Rattle.std.specs.List.{list_all, slice_split};
ghost use Rattle.osc_pattern.specs.Items.{is_slash};
ghost use Rattle.osc_pattern.specs.Patterns.{match_parts, part_at, parts_of};
ghost use Rattle.osc_pattern.specs.Reading.{match_part, cut_at};
ghost use Rattle.osc_report.specs.Selections as spec;

use osc_atoms::Bytes;
use osc_pattern::{MAX_NAME, Pattern, Steps};
use std::alloc::{AllocError, Global};
use std::marker::{Brand, Model};
use std::sync::ledger::{Blank, Ledger};

/// A pattern that selects lines by the addresses in them. A contract sees its bytes.
pub struct Selector {
    pattern: Bytes,
}

impl Drop for Selector {
    fn drop(self) {
        let Selector { pattern: _ } = self;
    }
}

impl Model for Selector {
    ghost use Rattle.std.specs.Prelude.{List, ℕ, ◌≤◌, length, IsTrue};
    ghost use Rattle.osc_pattern.specs.declared.limits.TheConstants.{MAX_PATTERN};
    ghost use Rattle.osc_pattern.specs.Patterns.{is_pattern};

    ghost Value = { List ℕ };

    ghost view = { λ s. s.pattern };

    ghost invariant = { λ s. IsTrue (is_pattern s.pattern) × (length s.pattern ≤ MAX_PATTERN) };
}

impl Selector {
    ghost use Rattle.std.specs.Prelude.{◌≡◌, IfOk};

    /// The pattern, in memory of its own. An `Err` means out of memory.
    pub fn of(alloc: Global, pattern: &Pattern<'_>) -> Result<Selector, AllocError>
        ensures { IfOk result (λ selector. selector ≡ pattern.now) }
    {
        Ok(Selector {
            pattern: Bytes::copied(alloc, pattern.bytes())?,
        })
    }

    /// Whether the pattern matches a text that is read as an address.
    pub(crate) fn selects(&self, text: &[u8]) -> bool
        ensures { result ≡ spec.selects self.now text.now }
    {
        let pattern = Pattern::known(self.pattern.as_slice());
        match text.split_first() {
            Some((first, names)) => *first == b'/' && matches_names(&pattern, names),
            None => false,
        }
    }
}

/// Whether the parts of a pattern match names, which are short.
fn matches_names(pattern: &Pattern<'_>, names: &[u8]) -> bool
    ensures { result ≡ (list_all spec.is_short (slice_split is_slash names.now)
        && match_parts (parts_of pattern.now) (slice_split is_slash names.now)) }
{
    matches_in::<Brand>(pattern, names, Blank::new(1))
}

fn matches_in<L: Ledger>(pattern: &Pattern<'_>, names: &[u8], blank: Blank) -> bool
    requires name { blank.name ≡ L.name }
    requires parts { blank.parts ≡ L.parts }
    requires some { 0 < blank.parts }
    ensures { result ≡ (list_all spec.is_short (slice_split is_slash names.now)
        && match_parts (parts_of pattern.now) (slice_split is_slash names.now)) }
{
    let mut steps = Steps::<L>::new(blank);
    let mut place = 0;
    let mut rest = names;
    loop {
        let (name, others) = first_name(rest);
        if place >= pattern.parts() {
            return false;
        }
        if !matches_name(pattern, place, name, &mut steps) {
            return false;
        }
        place += 1;
        match others {
            Some(more) => rest = more,
            None => return place == pattern.parts(),
        }
    }
}

/// Whether the part at a place matches a name, which is short.
fn matches_name<L: Ledger>(
    pattern: &Pattern<'_>,
    place: u32,
    name: &[u8],
    steps: &mut Steps<L>,
) -> bool
    requires { place < length (parts_of pattern.now) }
    ensures { result ≡ (spec.is_short name.now && match_part (part_at pattern.now place) name.now) }
{
    name.len() <= MAX_NAME && pattern.matches_part(place, name, steps)
}

/// The bytes before the first slash, and those after it if there is one.
fn first_name(names: &[u8]) -> (&[u8], Option<&[u8]>)
    ensures pieces { MatchOption result.1
        (slice_split is_slash names.now ≡ result.0.now ∷ [])
        (λ rest. slice_split is_slash names.now
        ≡ result.0.now ∷ slice_split is_slash rest.now) }
    ensures first { (others : List (List ℕ)) × (slice_split is_slash names.now
        ≡ result.0.now ∷ others) }
    ensures size { MatchOption result.1 (length result.0.now ≡ length names.now)
        (λ rest. length result.0.now + (1 + length rest.now) ≡ length names.now) }
{
    match cut_at_slash(names) {
        Some((name, rest)) => (name, Some(rest)),
        None => (names, None),
    }
}

/// The same, where there is a slash.
fn cut_at_slash(names: &[u8]) -> Option<(&[u8], &[u8])>
    ensures cut { option_map (λ parts. (parts.0.now, parts.1.now)) result
        ≡ cut_at is_slash names.now }
    ensures size { IfSome result
        (λ parts. length parts.0.now + (1 + length parts.1.now) ≡ length names.now) }
{
    let at = first_slash(names)?;
    Some((&names[..at], &names[at + 1..]))
}

fn first_slash(names: &[u8]) -> Option<usize>
    ensures { result ≡ position is_slash names.now }
{
    names.iter().position(|byte| *byte == b'/')
}
