// The argument at a place, under its tag.
ghost use Rattle.osc_atoms.specs.declared.limits.TheConstants.{MAX_BYTES};
ghost use Rattle.std.specs.Prelude.{◌≡◌, ◌%◌, ◌≤◌, length, IfOk, IsTrue, is_ok, Ok};
ghost use Rattle.osc_atoms.specs.Reading.{and_then};
ghost use Rattle.osc_message.specs.ArgumentReading.{argument_read, arguments_end, word_argument};
ghost use Rattle.osc_message.specs.ArgumentReading.{long_argument, text_argument, bare_argument};
ghost use Rattle.osc_message.specs.Shown.{shown};
ghost use Rattle.osc_message.specs.Tags.{is_word_tag, is_long_tag, is_text_tag};

use crate::Arg;
use crate::tags::{is_long_tag, is_text_tag, is_word_tag};
use osc_atoms::{
    Fault, blob_at, known_blob_at, known_string_at, known_tag_at, known_word_at, string_at, tag_at,
    word_at,
};

/// The argument of a known tag at `at`, which was checked before, and the place after it.
pub(crate) fn known_argument(tag: u8, bytes: &[u8], at: u32) -> (Arg<'_>, u32)
    requires whole { length bytes.now % 4 ≡ 0 }
    requires aligned { at % 4 ≡ 0 }
    requires known { IsTrue (is_ok (argument_read tag bytes.now at)) }
    requires inside { at ≤ length bytes.now }
    requires small { length bytes.now ≤ MAX_BYTES }
    ensures read { Ok (shown result.0, result.1) ≡ argument_read tag bytes.now at }
    ensures next { (result.1 % 4 ≡ 0) × (result.1 ≤ length bytes.now) }
{
    if is_word_tag(tag) {
        let (word, next) = known_word_at(bytes, at);
        (word_argument_of(tag, word), next)
    } else if is_long_tag(tag) {
        let (word, next) = known_tag_at(bytes, at);
        (long_argument_of(tag, word), next)
    } else if is_text_tag(tag) {
        let (text, next) = known_string_at(bytes, at);
        (text_argument_of(tag, text), next)
    } else if tag == b'b' {
        let (blob, next) = known_blob_at(bytes, at);
        (Arg::Blob(blob), next)
    } else {
        (bare_argument_of(tag), at)
    }
}

fn word_argument_of<'a>(tag: u8, word: u32) -> Arg<'a>
    requires { IsTrue (is_word_tag tag) }
    ensures { shown result ≡ word_argument tag word }
{
    match tag {
        b'i' => Arg::Int(word.cast_signed()),
        b'f' => Arg::Float(word),
        b'c' => Arg::Char(word),
        b'r' => Arg::Rgba(word),
        b'm' => Arg::Midi(word),
        _ => unreachable!(),
    }
}

fn long_argument_of<'a>(tag: u8, word: u64) -> Arg<'a>
    requires { IsTrue (is_long_tag tag) }
    ensures { shown result ≡ long_argument tag word }
{
    match tag {
        b'h' => Arg::Long(word.cast_signed()),
        b't' => Arg::Time(word),
        b'd' => Arg::Double(word),
        _ => unreachable!(),
    }
}

fn text_argument_of(tag: u8, text: &[u8]) -> Arg<'_>
    requires { IsTrue (is_text_tag tag) }
    ensures { shown result ≡ text_argument tag text.now }
{
    match tag {
        b's' => Arg::Str(text),
        b'S' => Arg::Symbol(text),
        _ => unreachable!(),
    }
}

fn bare_argument_of<'a>(tag: u8) -> Arg<'a>
    ensures { shown result ≡ bare_argument tag }
{
    match tag {
        b'T' => Arg::True,
        b'F' => Arg::False,
        b'N' => Arg::Nil,
        b'I' => Arg::Infinitum,
        b'[' => Arg::ArrayStart,
        _ => Arg::ArrayEnd,
    }
}

/// The place after the arguments of the tags, the first of which is at `start`.
pub(crate) fn end_of_arguments(tags: &[u8], bytes: &[u8], start: u32) -> Result<u32, Fault>
    requires whole { length bytes.now % 4 ≡ 0 }
    requires aligned { start % 4 ≡ 0 }
    requires inside { start ≤ length bytes.now }
    requires small { length bytes.now ≤ MAX_BYTES }
    ensures { result ≡ arguments_end tags.now bytes.now start }
{
    let mut at = start;
    let mut left = tags;
    while let Some((tag, rest)) = left.split_first() {
        at = end_of_argument(*tag, bytes, at)?;
        left = rest;
    }
    Ok(at)
}

/// The place after the argument of a known tag at `at`.
fn end_of_argument(tag: u8, bytes: &[u8], at: u32) -> Result<u32, Fault>
    requires whole { length bytes.now % 4 ≡ 0 }
    requires aligned { at % 4 ≡ 0 }
    requires inside { at ≤ length bytes.now }
    requires small { length bytes.now ≤ MAX_BYTES }
    ensures read { result ≡ and_then (argument_read tag bytes.now at) (λ argument. Ok argument.1) }
    ensures next { IfOk result (λ next. (next % 4 ≡ 0) × (next ≤ length bytes.now)) }
{
    if is_word_tag(tag) {
        let (_, next) = word_at(bytes, at)?;
        Ok(next)
    } else if is_long_tag(tag) {
        let (_, next) = tag_at(bytes, at)?;
        Ok(next)
    } else if is_text_tag(tag) {
        let (_, next) = string_at(bytes, at)?;
        Ok(next)
    } else if tag == b'b' {
        let (_, next) = blob_at(bytes, at)?;
        Ok(next)
    } else {
        Ok(at)
    }
}
