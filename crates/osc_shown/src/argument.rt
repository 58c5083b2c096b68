//! Arguments, in the words of a sheet of cues.
ghost use Rattle.std.specs.Prelude.{◌≡◌, ◌++◌, OnOk, IfOk, codes};
ghost use lib.Ieee.{binary32, binary64, nan_bits};
ghost use Rattle.std.specs.Fmt.{signed_decimal};
ghost use Rattle.hex.specs.Hex.{encode_lower};
ghost use Rattle.osc_message.specs.Shown.{shown};
ghost use Rattle.osc_shown.specs.Arguments.{IsWord, AddsWord, AddsFloat, AddsDouble, is_finite};
ghost use Rattle.osc_shown.specs.Arguments.{blob_text, blob_word, character_text};
ghost use Rattle.osc_shown.specs.Texts.{text_word};

use crate::bytes::{add, add_byte, add_hex, front};
use crate::number::{add_decimal, add_signed};
use crate::quoted::add_text_word;
use osc_message::Arg;
use std::alloc::{AllocError, Global};

/// How many bytes of a blob are shown that isn't shown whole.
const MOST_BYTES: usize = 8;

/// The word of an argument, whole or cut where it is long. An `Err` means out of memory.
pub fn argument_words(alloc: Global, whole: bool, argument: Arg<'_>) -> Result<Vec<u8>, AllocError>
    ensures { IfOk result (λ words. IsWord whole (shown argument.entry) words.items) }
{
    let mut words = Vec::new(alloc);
    add_argument(&mut words, whole, argument)?;
    Ok(words)
}

/// Adds the word of an argument, whole or cut where it is long.
pub(crate) fn add_argument(
    out: &mut Vec<u8>,
    whole: bool,
    argument: Arg<'_>,
) -> Result<(), AllocError>
    ensures { OnOk result (AddsWord whole (shown argument.entry) out.old.items out.new.items) }
{
    match argument {
        Arg::Int(number) => add_signed(out, i64::from(number)),
        Arg::Long(number) => add_long(out, number),
        Arg::Float(bits) => add_float(out, bits),
        Arg::Double(bits) => add_double(out, bits),
        Arg::Str(text) => add_text_word(out, whole, text),
        Arg::Symbol(text) => add_symbol(out, whole, text),
        Arg::Blob(bytes) => add_blob_word(out, whole, bytes),
        Arg::Char(number) => add_character(out, number),
        Arg::Rgba(number) => add_tagged(out, b"r:", &number.to_be_bytes()),
        Arg::Midi(number) => add_tagged(out, b"m:", &number.to_be_bytes()),
        Arg::Time(tag) => add_tagged(out, b"t:", &tag.to_be_bytes()),
        Arg::True => add(out, b"true"),
        Arg::False => add(out, b"false"),
        Arg::Nil => add(out, b"nil"),
        Arg::Infinitum => add(out, b"infinitum"),
        Arg::ArrayStart => add(out, b"["),
        Arg::ArrayEnd => add(out, b"]"),
    }
}

fn add_long(out: &mut Vec<u8>, number: i64) -> Result<(), AllocError>
    ensures { OnOk result (out.new.items
        ≡ out.old.items ++ (codes "h:" ++ signed_decimal number)) }
{
    add(out, b"h:")?;
    add_signed(out, number)
}

fn add_symbol(out: &mut Vec<u8>, whole: bool, text: &[u8]) -> Result<(), AllocError>
    ensures { OnOk result (out.new.items
        ≡ out.old.items ++ (codes "S:" ++ text_word whole text.now)) }
{
    add(out, b"S:")?;
    add_text_word(out, whole, text)
}

/// Adds a tag, a colon and two digits for each byte.
fn add_tagged(out: &mut Vec<u8>, tag: &[u8], bytes: &[u8]) -> Result<(), AllocError>
    ensures { OnOk result (out.new.items
        ≡ out.old.items ++ (tag.now ++ encode_lower bytes.now)) }
{
    add(out, tag)?;
    add_hex(out, bytes)
}

/// Adds the float whose bits these are in decimal, or the bits where it isn't finite.
fn add_float(out: &mut Vec<u8>, bits: u32) -> Result<(), AllocError>
    ensures { OnOk result (AddsFloat bits out.old.items out.new.items) }
{
    if !is_finite(bits) {
        return add_tagged(out, b"f:", &bits.to_be_bytes());
    }
    add(
        out,
        ryu::Buffer::new()
            .format_finite(f32::from_bits(bits))
            .as_bytes(),
    )
}

/// Adds `d:` and the same of a double.
fn add_double(out: &mut Vec<u8>, bits: u64) -> Result<(), AllocError>
    ensures { OnOk result (AddsDouble bits out.old.items out.new.items) }
{
    if !is_finite_double(bits) {
        return add_tagged(out, b"d:", &bits.to_be_bytes());
    }
    add(out, b"d:")?;
    add(
        out,
        ryu::Buffer::new()
            .format_finite(f64::from_bits(bits))
            .as_bytes(),
    )
}

/// Whether the bits are those of a number, and not of an infinity.
fn is_finite(bits: u32) -> bool
    ensures { result ≡ is_finite binary32 bits }
{
    if is_nan(bits) {
        return false;
    }
    f32::from_bits(bits).is_finite()
}

fn is_finite_double(bits: u64) -> bool
    ensures { result ≡ is_finite binary64 bits }
{
    if is_nan_double(bits) {
        return false;
    }
    f64::from_bits(bits).is_finite()
}

/// Whether the bits are those of no number.
fn is_nan(bits: u32) -> bool
    ensures { result ≡ nan_bits binary32 bits }
{
    bits % 0x8000_0000 / 0x80_0000 == 255 && bits % 0x80_0000 != 0
}

fn is_nan_double(bits: u64) -> bool
    ensures { result ≡ nan_bits binary64 bits }
{
    bits % 0x8000_0000_0000_0000 / 0x10_0000_0000_0000 == 2047 && bits % 0x10_0000_0000_0000 != 0
}

/// Adds a blob, whole or cut where it is long.
fn add_blob_word(out: &mut Vec<u8>, whole: bool, bytes: &[u8]) -> Result<(), AllocError>
    ensures { OnOk result (out.new.items ≡ out.old.items ++ blob_word whole bytes.now) }
{
    if whole {
        return add_tagged(out, b"b:", bytes);
    }
    add_blob(out, bytes)
}

/// Adds a blob, or its first bytes and how many it has.
fn add_blob(out: &mut Vec<u8>, bytes: &[u8]) -> Result<(), AllocError>
    ensures { OnOk result (out.new.items ≡ out.old.items ++ blob_text bytes.now) }
{
    if bytes.len() <= MOST_BYTES {
        return add_tagged(out, b"b:", bytes);
    }
    add_tagged(out, b"b:", front(bytes, MOST_BYTES))?;
    add(out, b"..")?;
    add_decimal(out, bytes.len() as u64)
}

/// Adds a character from `!` to `~` as it is, any other by its bytes.
fn add_character(out: &mut Vec<u8>, number: u32) -> Result<(), AllocError>
    ensures { OnOk result (out.new.items ≡ out.old.items ++ character_text number) }
{
    if 33 <= number && number <= 126 {
        add(out, b"c:")?;
        return add_byte(out, number as u8);
    }
    add_tagged(out, b"c:", &number.to_be_bytes())
}
