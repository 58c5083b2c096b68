//! An argument's tag, and its bytes.
ghost use Rattle.osc_atoms.specs.declared.limits.TheConstants.{MAX_BYTES};
ghost use Rattle.osc_message.specs.declared.limits.TheConstants.{MAX_BUILT};
ghost use Rattle.std.specs.Prelude.{◌≡◌, ◌++◌, ◌≤◌, ◌<◌, ◌^◌, ◌+◌, None, length, take, position};
ghost use Rattle.std.specs.Prelude.{OnOk, OnErr, IfSome};
ghost use Rattle.std.specs.Vec.{vec_len, vec_capacity};
ghost use Rattle.osc_atoms.specs.Reading.{is_zero};
ghost use Rattle.osc_message.specs.Messages;
ghost use Rattle.osc_message.specs.Messages.{atom_of, Fits, HasNoZero};
ghost use Rattle.osc_message.specs.Building.{null_in, null_of};
ghost use Rattle.osc_message.specs.Shown.{shown};

use crate::Arg;
use osc_atoms::{append_blob, append_string, append_tag, append_word, blob_size, string_size};
use std::alloc::AllocError;

/// The type tag of the argument.
pub(crate) fn tag_of(arg: Arg<'_>) -> u8
    ensures { result ≡ Messages.tag_of (shown arg.entry) }
{
    match arg {
        Arg::Int(_) => b'i',
        Arg::Float(_) => b'f',
        Arg::Str(_) => b's',
        Arg::Blob(_) => b'b',
        Arg::Long(_) => b'h',
        Arg::Time(_) => b't',
        Arg::Double(_) => b'd',
        Arg::Symbol(_) => b'S',
        Arg::Char(_) => b'c',
        Arg::Rgba(_) => b'r',
        Arg::Midi(_) => b'm',
        Arg::True => b'T',
        Arg::False => b'F',
        Arg::Nil => b'N',
        Arg::Infinitum => b'I',
        Arg::ArrayStart => b'[',
        Arg::ArrayEnd => b']',
    }
}

/// Where the first zero byte of a string or symbol is.
pub(crate) fn find_null(arg: Arg<'_>) -> Option<u32>
    ensures { result ≡ null_in (shown arg.entry) }
{
    match arg {
        Arg::Str(text) | Arg::Symbol(text) => null_at(text),
        _ => None,
    }
}

/// Where the first zero byte is. Bytes after the places that a `u32` can name aren't looked at.
pub(crate) fn null_at(bytes: &[u8]) -> Option<u32>
    ensures { result ≡ null_of bytes.now }
{
    match first_zero(nameable(bytes)) {
        Some(at) => Some(at as u32),
        None => None,
    }
}

/// The bytes whose places a `u32` can name.
fn nameable(bytes: &[u8]) -> &[u8]
    ensures bytes { result.now ≡ take (2 ^ 32) bytes.now }
    ensures few { length result.now ≤ 2 ^ 32 }
{
    if bytes.len() < 1 << 32 {
        bytes
    } else {
        &bytes[..1 << 32]
    }
}

fn first_zero(bytes: &[u8]) -> Option<usize>
    ensures value { result ≡ position is_zero bytes.now }
    ensures within { IfSome result (λ at. at < length bytes.now) }
{
    bytes.iter().position(|byte| *byte == 0)
}

/// How many bytes the argument has after its tag.
pub fn argument_size(arg: Arg<'_>) -> usize
    ensures { result ≡ length (atom_of (shown arg.entry)) }
{
    match arg {
        Arg::Int(_) | Arg::Float(_) | Arg::Char(_) | Arg::Rgba(_) | Arg::Midi(_) => 4,
        Arg::Long(_) | Arg::Time(_) | Arg::Double(_) => 8,
        Arg::Str(text) | Arg::Symbol(text) => string_size(text.len()),
        Arg::Blob(blob) => blob_size(blob.len()),
        _ => 0,
    }
}

/// Appends the argument's bytes, for which there is room.
pub fn append_argument(out: &mut Vec<u8>, arg: Arg<'_>)
    requires no_zero { HasNoZero (shown arg) }
    requires small { length (atom_of (shown arg)) ≤ MAX_BYTES }
    requires room { vec_len out.old + length (atom_of (shown arg)) ≤ vec_capacity out.old }
    ensures out { out.new.items ≡ out.old.items ++ atom_of (shown arg.entry) }
    ensures fits { Fits (shown arg.entry) }
    ensures capacity { vec_capacity out.old ≤ vec_capacity out.new }
{
    match arg {
        Arg::Int(number) => append_word(out, number.cast_unsigned()),
        Arg::Long(number) => append_tag(out, number.cast_unsigned()),
        Arg::Float(word) | Arg::Char(word) | Arg::Rgba(word) | Arg::Midi(word) => {
            append_word(out, word)
        }
        Arg::Time(word) | Arg::Double(word) => append_tag(out, word),
        Arg::Str(text) | Arg::Symbol(text) => append_string(out, text),
        Arg::Blob(blob) => append_blob(out, blob),
        _ => {}
    }
}

/// Appends the argument's bytes, whole or not at all.
pub(crate) fn put_argument(out: &mut Vec<u8>, arg: Arg<'_>) -> Result<(), AllocError>
    requires no_null { null_in (shown arg) ≡ None }
    requires small { length (atom_of (shown arg)) ≤ MAX_BUILT }
    ensures ok { OnOk result (out.new.items ≡ out.old.items ++ atom_of (shown arg.entry)) }
    ensures err { OnErr result (out.new.items ≡ out.old.items) }
    ensures fits { OnOk result (Fits (shown arg.entry)) }
{
    out.reserve(argument_size(arg))?;
    append_argument(out, arg);
    Ok(())
}
