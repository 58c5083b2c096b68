//! Patterns.
ghost use Rattle.osc_pattern.specs.declared.limits.TheConstants.{MAX_NAME, MAX_PATTERN, MAX_PLACES};
ghost use Rattle.std.specs.Prelude.{◌≡◌, ◌≤◌, ◌<◌, ◌+◌, ◌*◌, ◌↔◌, ℕ, length, count_by, nat_lt};
ghost use Rattle.std.specs.Prelude.{false, IsTrue, IsOk, IfOk, IfErr, Err, slice_get, unwrap_or};
ghost use Rattle.std.specs.Prelude.{is_ok, []};
ghost use Rattle.std.specs.List.{list_any, slice_split};
ghost use Rattle.std.specs.Result.{result_err};
ghost use Rattle.osc_pattern.specs.Items.{is_slash};
ghost use Rattle.osc_pattern.specs.Parts.{MatchesName};
ghost use Rattle.osc_pattern.specs.Reading.{match_part};
ghost use Rattle.osc_pattern.specs.Patterns.{IsPattern, IsFault, Match, begins_with_slash};
ghost use Rattle.osc_pattern.specs.Patterns.{parts_of, part_at, is_pattern, pattern_fault, matches};
ghost use Rattle.osc_pattern.specs.Patterns.{match_parts};
ghost use Rattle.osc_pattern.specs.ReadyParts.{StandsFor};

use crate::address::Address;
use crate::check::first_fault;
use crate::cut::{count, first_piece};
use crate::faults::PatternFault;
use crate::matcher::{match_part, match_ready};
use crate::ready::Part;
use crate::steps::Steps;
use std::marker::Model;
use std::sync::ledger::Ledger;

/// A pattern, borrowed. It begins with `/`, has bytes from 0x20 to 0x7E, and closes each `[` and
/// `{` in its part.
///
/// The pieces that a part is made of stand in docs/FORMATS.md, "Patterns" (after OSC 1.0, "OSC
/// Message Dispatching and Pattern Matching").
#[derive(Debug, Drop)]
pub struct Pattern<'a> {
    bytes: &'a [u8],
}

impl<'a> Model for Pattern<'a> {
    ghost use Rattle.osc_pattern.specs.declared.limits.TheConstants.{MAX_PATTERN};
    ghost use Rattle.std.specs.Prelude.{ℕ, ◌≤◌, List, length, IsTrue};
    ghost use Rattle.osc_pattern.specs.Patterns.{is_pattern};

    ghost Value = { List ℕ };

    ghost view = { λ p. p.bytes.now };

    ghost invariant = { λ p. IsTrue (is_pattern p.bytes.now) × (length p.bytes.now ≤ MAX_PATTERN) };
}

impl<'a> Pattern<'a> {
    /// The pattern that the bytes are, or its first fault. It takes no memory.
    ///
    /// The faults are tried in this order, each over the whole text before the next: no `/` first,
    /// a byte out of range, a bracket that isn't closed.
    #[inline(always)]
    pub fn check(bytes: &'a [u8]) -> Result<Pattern<'a>, PatternFault>
        requires { length bytes.now ≤ MAX_PATTERN }
        ensures ok { IfOk result (λ pattern. pattern ≡ bytes.now) }
        ensures exact { IsOk result ↔ IsPattern bytes.now }
        ensures test { is_ok result ≡ is_pattern bytes.now }

        // The first fault and its place, in both directions.
        ensures fault { IfErr result (λ fault. IsFault bytes.now fault.kind fault.at) }
        ensures refuses { (kind at : ℕ) → IsFault bytes.now kind at
            → result_err result ≡ Some (record { kind = kind; at = at }) }
        ensures read { result_err result ≡ pattern_fault bytes.now }
    {
        match first_fault(bytes) {
            Some(fault) => Err(fault),
            None => Ok(Pattern { bytes }),
        }
    }

    /// The pattern that the bytes were checked to be. Looks at none of them.
    pub fn known(bytes: &'a [u8]) -> Pattern<'a>
        requires test { IsTrue (is_pattern bytes.now) }
        requires small { length bytes.now ≤ MAX_PATTERN }
        ensures { result ≡ bytes.now }
    {
        Pattern { bytes }
    }

    /// The pattern's bytes.
    #[tactic(auto, using(crate::proofs::PatternLaws::laws))]
    pub fn bytes(&self) -> &'a [u8]
        ensures value { result.now ≡ self.now }
        ensures lawful { IsPattern result.now }
        ensures test { IsTrue (is_pattern result.now) }
        ensures short { length result.now ≤ MAX_PATTERN }
    {
        self.bytes
    }

    /// How many parts the pattern has: as many as slashes, so at least one.
    #[tactic(auto, using(crate::proofs::PatternLaws::laws))]
    pub fn parts(&self) -> u32
        ensures parts { result ≡ length (parts_of self.now) }
        ensures slashes { result ≡ count_by is_slash self.now }
    {
        count(self.bytes, b'/') as u32
    }

    /// The part at this place, counted from 0. It reads the pattern up to the part's end.
    #[tactic(auto, using(crate::proofs::PatternLaws::laws))]
    pub fn part(&self, place: u32) -> &'a [u8]
        requires { place < length (parts_of self.now) }
        ensures { result.now ≡ part_at self.now place }
    {
        nth_part(after_slash(self.bytes), place)
    }

    /// Whether the part at this place, counted from 0, matches the name. It takes no memory.
    ///
    /// A step is to examine one byte of the part, or its end, for one place of the name or for all
    /// of them at once. Each range of a list counts as one byte; a list that was read for all
    /// places at once takes one step more for each place. To look for the end of a part or of a
    /// bracket, and to pass stars and `{}` that add nothing, takes none.
    #[tactic(auto, using(crate::proofs::PatternLaws::laws))]
    pub fn matches_part<L: Ledger>(&self, part: u32, name: &[u8], steps: &mut Steps<L>) -> bool
        requires part { part < length (parts_of self.now) }
        requires name { length name.now ≤ MAX_NAME }
        ensures exact { IsTrue result ↔ MatchesName (part_at self.now part) name.now }
        ensures test { result ≡ match_part (part_at self.now part) name.now }
        ensures counted { steps.old ≤ steps.new }
        ensures begun { 0 < length (part_at self.now part) → steps.old < steps.new }
        ensures bounded { steps.new
            ≤ steps.old + (length (part_at self.now part) + 1) * (length name.now + 1) }
    {
        self.matches_found(part, Part::whole(self.part(part)), name, steps)
    }

    /// The same, for a part that `part` found before, so that it isn't looked for again for each
    /// name. Where `ReadyPart::read` read it once for all names, that took no step.
    #[tactic(auto, using(crate::proofs::PatternLaws::laws))]
    pub fn matches_found<L: Ledger>(
        &self,
        part: u32,
        found: Part<'_>,
        name: &[u8],
        steps: &mut Steps<L>,
    ) -> bool
        requires part { part < length (parts_of self.now) }
        requires found { StandsFor found (part_at self.now part) }
        requires name { length name.now ≤ MAX_NAME }
        ensures exact { IsTrue result ↔ MatchesName (part_at self.now part) name.now }
        ensures test { result ≡ match_part (part_at self.now part) name.now }
        ensures counted { steps.old ≤ steps.new }
        ensures begun { 0 < length (part_at self.now part) → steps.old < steps.new }
        ensures bounded { steps.new
            ≤ steps.old + (length (part_at self.now part) + 1) * (length name.now + 1) }
    {
        match_ready(found, name, steps)
    }

    /// Whether the pattern matches the address: both have as many parts, and each part matches the
    /// name at its place. It takes no memory.
    ///
    /// Steps are counted as in `matches_part`.
    #[tactic(auto, using(crate::proofs::PatternLaws::laws))]
    pub fn matches<L: Ledger>(&self, address: &Address, steps: &mut Steps<L>) -> bool
        ensures exact { IsTrue result ↔ Match self.now address.now }
        ensures test { result ≡ matches self.now address.now }
        ensures counted { steps.old ≤ steps.new }
        ensures bounded { steps.new ≤ steps.old + MAX_PLACES * length self.now }
    {
        match_parts(after_slash(self.bytes), after_slash(address.bytes()), steps)
    }
}

/// What follows the first slash.
fn after_slash(bytes: &[u8]) -> &[u8]
    requires { IsTrue (begins_with_slash bytes.now) }
    ensures parts { slice_split is_slash result.now ≡ parts_of bytes.now }
    ensures size { length result.now + 1 ≡ length bytes.now }
{
    &bytes[1..]
}

/// The part at this place.
fn nth_part(parts: &[u8], place: u32) -> &[u8]
    requires { place < length (slice_split is_slash parts.now) }
    ensures { result.now ≡ unwrap_or (slice_get (slice_split is_slash parts.now) place) [] }
{
    let mut rest = parts;
    let mut left = place;
    loop {
        match first_piece(rest, b'/') {
            (part, None) => return part,
            (part, Some(others)) => {
                if left == 0 {
                    return part;
                }
                left -= 1;
                rest = others;
            }
        }
    }
}

/// Whether there are as many parts as names, and each part matches the name at its place.
fn match_parts<L: Ledger>(parts: &[u8], names: &[u8], steps: &mut Steps<L>) -> bool
    requires { list_any (λ name. nat_lt MAX_NAME (length name)) (slice_split is_slash names.now)
        ≡ false }
    ensures value { result
        ≡ match_parts (slice_split is_slash parts.now) (slice_split is_slash names.now) }
    ensures counted { steps.old ≤ steps.new }
    ensures bounded { steps.new ≤ steps.old + MAX_PLACES * (length parts.now + 1) }
{
    let mut parts = parts;
    let mut names = names;
    loop {
        let (part, other_parts) = first_piece(parts, b'/');
        let (name, other_names) = first_piece(names, b'/');
        if !match_part(part, name, steps) {
            return false;
        }
        match (other_parts, other_names) {
            (Some(more_parts), Some(more_names)) => {
                parts = more_parts;
                names = more_names;
            }
            (None, None) => return true,
            _ => return false,
        }
    }
}
