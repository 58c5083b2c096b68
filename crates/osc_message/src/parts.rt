// A message: its parts, or its first fault.
ghost use Rattle.osc_atoms.specs.declared.limits.TheConstants.{MAX_BYTES};
ghost use Rattle.std.specs.Prelude.{◌≡◌, ◌+◌, ◌%◌, ◌≤◌, IsTrue, IfOk, drop, length, false, is_ok};
ghost use Rattle.std.specs.Prelude.{Ok, ℕ, None, find};
ghost use Rattle.std.specs.List.{list_all, list_any};
ghost use Rattle.std.specs.Result.{result_map_both};
ghost use Rattle.osc_message.specs.Tags.{is_unknown, is_word_tag};
ghost use Rattle.osc_message.specs.ArgumentReading.{arguments_end};
ghost use Rattle.osc_message.specs.Reading.{message_read, lawful_read, comma_read, tagged_read};
ghost use Rattle.osc_message.specs.Reading.{tags_read, arguments_read, begins, has_arguments};
ghost use Rattle.osc_message.specs.Reading.{is_message, IsReadable};
ghost use Rattle.osc_message.specs.Seen.{seen, KeepsUnknown};

use crate::argument_at::end_of_arguments;
use crate::tags::{check_brackets, first_unknown, is_word_tag};
use osc_atoms::{Fault, known_string_at, string_at};
use osc_pattern::Pattern;

/// The parts of a message, and its first unknown tag. Its arguments begin at `place`.
#[derive(Clone, Copy)]
pub(crate) struct Slices<'a> {
    pub(crate) pattern: &'a [u8],
    pub(crate) tags: Option<&'a [u8]>,
    pub(crate) place: u32,
    pub(crate) unknown: Option<u8>,
}

/// Reads the message that the bytes are.
#[tactic(auto, unfolding(crate::specs::Reading::message_read))]
#[inline(always)]
pub(crate) fn read_message(bytes: &[u8]) -> Result<Slices<'_>, Fault>
    requires whole { length bytes.now % 4 ≡ 0 }
    requires small { length bytes.now ≤ MAX_BYTES }
    ensures read { result_map_both seen (λ fault. fault) result ≡ message_read bytes.now 0 }
    ensures place { IfOk result
        (λ slices. (slices.place % 4 ≡ 0) × (slices.place ≤ length bytes.now)) }
    ensures arguments { IfOk result (λ slices. IsTrue (has_arguments bytes.now (seen slices))) }
    ensures unknown { IfOk result KeepsUnknown }
{
    if !begins_with(b'/', bytes) {
        return Err(Fault {
            kind: Fault::START,
            at: 0,
        });
    }
    let (pattern, end) = string_at(bytes, 0)?;
    read_pattern(bytes, pattern, end)
}

/// Checks the pattern that the bytes begin with, and reads what follows it.
#[inline(always)]
fn read_pattern<'a>(bytes: &'a [u8], pattern: &'a [u8], end: u32) -> Result<Slices<'a>, Fault>
    requires pattern { length pattern.now ≤ MAX_BYTES }
    requires whole { length bytes.now % 4 ≡ 0 }
    requires aligned { end % 4 ≡ 0 }
    requires inside { end ≤ length bytes.now }
    requires small { length bytes.now ≤ MAX_BYTES }
    ensures read { result_map_both seen (λ fault. fault) result
        ≡ lawful_read bytes.now 0 pattern.now end }
    ensures place { IfOk result
        (λ slices. (slices.place % 4 ≡ 0) × (slices.place ≤ length bytes.now)) }
    ensures arguments { IfOk result (λ slices. IsTrue (has_arguments bytes.now (seen slices))) }
    ensures unknown { IfOk result KeepsUnknown }
{
    if let Err(fault) = Pattern::check(pattern) {
        return Err(Fault {
            kind: fault.kind,
            at: fault.at,
        });
    }
    read_after_pattern(bytes, pattern, end)
}

#[inline(always)]
fn read_after_pattern<'a>(bytes: &'a [u8], pattern: &'a [u8], at: u32) -> Result<Slices<'a>, Fault>
    requires whole { length bytes.now % 4 ≡ 0 }
    requires aligned { at % 4 ≡ 0 }
    requires inside { at ≤ length bytes.now }
    requires small { length bytes.now ≤ MAX_BYTES }
    ensures read { result_map_both seen (λ fault. fault) result
        ≡ comma_read bytes.now pattern.now at }
    ensures place { IfOk result
        (λ slices. (slices.place % 4 ≡ 0) × (slices.place ≤ length bytes.now)) }
    ensures arguments { IfOk result (λ slices. IsTrue (has_arguments bytes.now (seen slices))) }
    ensures unknown { IfOk result KeepsUnknown }
{
    if at as usize == bytes.len() {
        return Ok(Slices {
            pattern,
            tags: None,
            place: at,
            unknown: None,
        });
    }
    if !begins_with(b',', &bytes[at as usize..]) {
        return Err(Fault {
            kind: Fault::NO_TAGS,
            at,
        });
    }
    read_tag_string(bytes, pattern, at)
}

/// Reads the tag string at `at`, and what follows it.
#[inline(always)]
fn read_tag_string<'a>(bytes: &'a [u8], pattern: &'a [u8], at: u32) -> Result<Slices<'a>, Fault>
    requires whole { length bytes.now % 4 ≡ 0 }
    requires aligned { at % 4 ≡ 0 }
    requires inside { at ≤ length bytes.now }
    requires small { length bytes.now ≤ MAX_BYTES }
    requires comma { IsTrue (begins 44 (drop at bytes.now)) }
    ensures read { result_map_both seen (λ fault. fault) result
        ≡ tagged_read bytes.now pattern.now at }
    ensures place { IfOk result
        (λ slices. (slices.place % 4 ≡ 0) × (slices.place ≤ length bytes.now)) }
    ensures arguments { IfOk result (λ slices. IsTrue (has_arguments bytes.now (seen slices))) }
    ensures unknown { IfOk result KeepsUnknown }
{
    let (text, place) = string_at(bytes, at)?;
    let tags = &text[1..];
    if end_as_words(bytes, tags, place) {
        return Ok(Slices {
            pattern,
            tags: Some(tags),
            place,
            unknown: None,
        });
    }
    let unknown = first_unknown(tags);
    if unknown.is_none() {
        check_tags(bytes, at + 1, tags, place)?;
    }
    Ok(Slices {
        pattern,
        tags: Some(tags),
        place,
        unknown,
    })
}

/// Whether all tags are of words, and so many words fill the bytes from `start` on. Most messages are so, and then no more
/// is to be checked.
#[tactic(auto, using(crate::proofs::WordTags::words_known, crate::proofs::WordTags::words_end))]
fn end_as_words(bytes: &[u8], tags: &[u8], start: u32) -> bool
    requires small { length bytes.now ≤ MAX_BYTES }
    requires few { length tags.now ≤ MAX_BYTES }
    ensures known { IsTrue result → list_any is_unknown tags.now ≡ false }
    ensures none { IsTrue result → find is_unknown tags.now ≡ None }
    ensures read { IsTrue result → (place : ℕ)
        → tags_read bytes.now place tags.now start ≡ Ok tt }
    ensures arguments { IsTrue result → IsTrue (is_ok (arguments_end tags.now bytes.now start)) }
{
    are_words(tags) && start as usize + 4 * tags.len() == bytes.len()
}

fn are_words(tags: &[u8]) -> bool
    ensures { result ≡ list_all is_word_tag tags.now }
{
    tags.iter().all(|tag| is_word_tag(*tag))
}

/// Checks known tags, which stand from `place` on, and their arguments, which stand from `start` on.
fn check_tags(bytes: &[u8], place: u32, tags: &[u8], start: u32) -> Result<(), Fault>
    requires whole { length bytes.now % 4 ≡ 0 }
    requires aligned { start % 4 ≡ 0 }
    requires inside { start ≤ length bytes.now }
    requires before { place + length tags.now ≤ length bytes.now }
    requires known { list_any is_unknown tags.now ≡ false }
    requires small { length bytes.now ≤ MAX_BYTES }
    ensures { result ≡ tags_read bytes.now place tags.now start }
{
    check_brackets(tags, place)?;
    check_arguments(bytes, tags, start)
}

/// Checks that the arguments of the tags, which stand from `start` on, end where the bytes end.
pub(crate) fn check_arguments(bytes: &[u8], tags: &[u8], start: u32) -> Result<(), Fault>
    requires whole { length bytes.now % 4 ≡ 0 }
    requires aligned { start % 4 ≡ 0 }
    requires inside { start ≤ length bytes.now }
    requires small { length bytes.now ≤ MAX_BYTES }
    ensures { result ≡ arguments_read bytes.now tags.now start }
{
    let end = end_of_arguments(tags, bytes, start)?;
    if end as usize != bytes.len() {
        return Err(Fault {
            kind: Fault::LEFT_OVER,
            at: end,
        });
    }
    Ok(())
}

/// The parts of the message that the bytes were checked to be. Looks for the ends of the pattern and of the tag string,
/// and at the tags.
#[tactic(auto, unfolding(crate::specs::Reading::message_read))]
#[inline(always)]
pub(crate) fn known_message(bytes: &[u8]) -> Slices<'_>
    requires { IsTrue (is_message MAX_BYTES bytes.now) }
    ensures readable { IsReadable bytes.now (seen result) }
    ensures unknown { KeepsUnknown result }
{
    let (pattern, end) = known_string_at(bytes, 0);
    known_after_pattern(bytes, pattern, end)
}

fn known_after_pattern<'a>(bytes: &'a [u8], pattern: &'a [u8], at: u32) -> Slices<'a>
    requires whole { length bytes.now % 4 ≡ 0 }
    requires aligned { at % 4 ≡ 0 }
    requires inside { at ≤ length bytes.now }
    requires small { length bytes.now ≤ MAX_BYTES }
    requires known { IsTrue (is_ok (comma_read bytes.now pattern.now at)) }
    ensures read { Ok (seen result) ≡ comma_read bytes.now pattern.now at }
    ensures place { (result.place % 4 ≡ 0) × (result.place ≤ length bytes.now) }
    ensures arguments { IsTrue (has_arguments bytes.now (seen result)) }
    ensures unknown { KeepsUnknown result }
{
    if at as usize == bytes.len() {
        return Slices {
            pattern,
            tags: None,
            place: at,
            unknown: None,
        };
    }
    let (text, place) = known_string_at(bytes, at);
    let tags = &text[1..];
    Slices {
        pattern,
        tags: Some(tags),
        place,
        unknown: first_unknown(tags),
    }
}

fn begins_with(byte: u8, bytes: &[u8]) -> bool
    ensures { result ≡ begins byte bytes.now }
{
    match bytes {
        [first, ..] => *first == byte,
        [] => false,
    }
}
