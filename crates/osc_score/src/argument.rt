// Reads the words of arguments.
ghost use Rattle.osc_atoms.specs.declared.limits.TheConstants.{MAX_BYTES};
ghost use Rattle.osc_score.specs.declared.limits.TheConstants.{MAX_SCORE};
ghost use Rattle.std.specs.Prelude.{◌≡◌, ◌≤◌, length, Some, IfSome, option_map};
ghost use Rattle.std.specs.Result.{result_ok};
ghost use Rattle.hex.specs.Hex.{decode_of};
ghost use Rattle.osc_message.specs.Messages.{tag_of, atom_of, HasNoZero, content, text, symbol};
ghost use Rattle.osc_message.specs.Shown.{shown};
ghost use Rattle.osc_score.specs.ArgumentWords.{bare_read, number_read, value_read, argument_read};
ghost use Rattle.osc_score.specs.ArgumentWords.{text_read};
ghost use Rattle.osc_score.specs.Argued.{Argues, IsUnder};

use crate::fault::ScoreFaultKind;
use crate::number::{read_signed, read_tag, read_word};
use crate::text::read_text;
use hex::FromHexError;
use osc_message::{Arg, append_argument, argument_size};
use osc_script::LineRefusal;
use std::alloc::Global;

/// The argument of a word, as its tag and its bytes, after those before.
pub(crate) fn put_word(
    alloc: Global,
    word: &[u8],
    tags: &mut Vec<u8>,
    atoms: &mut Vec<u8>,
) -> Result<(), LineRefusal<ScoreFaultKind>>
    requires { length word.now ≤ MAX_SCORE }
    ensures { Argues result (argument_read word.now) tags.old.items atoms.old.items tags.new.items
        atoms.new.items }
{
    match word {
        [] => Err(LineRefusal::Kind(ScoreFaultKind::Arg)),
        [tag] => put_read(*tag, read_bare(*tag), tags, atoms),
        [tag, colon, value @ ..] => {
            if *colon == b':' {
                put_value(alloc, *tag, value, tags, atoms)
            } else {
                Err(LineRefusal::Kind(ScoreFaultKind::Arg))
            }
        }
    }
}

/// An argument of a tag and its value.
fn put_value(
    alloc: Global,
    tag: u8,
    value: &[u8],
    tags: &mut Vec<u8>,
    atoms: &mut Vec<u8>,
) -> Result<(), LineRefusal<ScoreFaultKind>>
    requires { length value.now ≤ MAX_SCORE }
    ensures { Argues result (value_read tag value.now) tags.old.items atoms.old.items tags.new.items
        atoms.new.items }
{
    match tag {
        b'b' => put_blob(alloc, value, tags, atoms),
        b's' => put_text(alloc, value, tags, atoms),
        b'S' => put_symbol(alloc, value, tags, atoms),
        _ => put_read(tag, read_number(tag, value), tags, atoms),
    }
}

/// The bytes of hexadecimal digits.
fn put_blob(
    alloc: Global,
    value: &[u8],
    tags: &mut Vec<u8>,
    atoms: &mut Vec<u8>,
) -> Result<(), LineRefusal<ScoreFaultKind>>
    requires { length value.now ≤ MAX_SCORE }
    ensures { Argues result (option_map content (result_ok (decode_of value.now))) tags.old.items
        atoms.old.items tags.new.items atoms.new.items }
{
    match hex::decode(alloc, value) {
        Ok(bytes) => put_argument(b'b', Arg::Blob(&bytes), tags, atoms),
        Err(FromHexError::OutOfMemory) => Err(LineRefusal::NoMemory),
        Err(_) => Err(LineRefusal::Kind(ScoreFaultKind::Arg)),
    }
}

/// A text.
fn put_text(
    alloc: Global,
    value: &[u8],
    tags: &mut Vec<u8>,
    atoms: &mut Vec<u8>,
) -> Result<(), LineRefusal<ScoreFaultKind>>
    requires { length value.now ≤ MAX_SCORE }
    ensures { Argues result (option_map text (text_read value.now)) tags.old.items
        atoms.old.items tags.new.items atoms.new.items }
{
    match read_text(alloc, value)? {
        Some(bytes) => put_argument(b's', Arg::Str(&bytes), tags, atoms),
        None => Err(LineRefusal::Kind(ScoreFaultKind::Arg)),
    }
}

/// A symbol.
fn put_symbol(
    alloc: Global,
    value: &[u8],
    tags: &mut Vec<u8>,
    atoms: &mut Vec<u8>,
) -> Result<(), LineRefusal<ScoreFaultKind>>
    requires { length value.now ≤ MAX_SCORE }
    ensures { Argues result (option_map symbol (text_read value.now)) tags.old.items
        atoms.old.items tags.new.items atoms.new.items }
{
    match read_text(alloc, value)? {
        Some(bytes) => put_argument(b'S', Arg::Symbol(&bytes), tags, atoms),
        None => Err(LineRefusal::Kind(ScoreFaultKind::Arg)),
    }
}

/// The argument of a tag alone.
fn read_bare<'a>(tag: u8) -> Option<Arg<'a>>
    ensures value { option_map (λ arg. shown arg) result ≡ bare_read tag }
    ensures under { IfSome result (λ arg. IsUnder tag (shown arg)) }
{
    match tag {
        b'T' => Some(Arg::True),
        b'F' => Some(Arg::False),
        b'N' => Some(Arg::Nil),
        b'I' => Some(Arg::Infinitum),
        b'[' => Some(Arg::ArrayStart),
        b']' => Some(Arg::ArrayEnd),
        _ => None,
    }
}

/// The argument of a tag and the digits of its number.
fn read_number<'a>(tag: u8, value: &[u8]) -> Option<Arg<'a>>
    ensures value { option_map (λ arg. shown arg) result ≡ number_read tag value.now }
    ensures under { IfSome result (λ arg. IsUnder tag (shown arg)) }
{
    match tag {
        b'i' => Some(Arg::Int(read_signed(value, 1 << 31)? as i32)),
        b'h' => Some(Arg::Long(read_signed(value, 1 << 63)?)),
        b'f' => Some(Arg::Float(read_word(value)?)),
        b'c' => Some(Arg::Char(read_word(value)?)),
        b'r' => Some(Arg::Rgba(read_word(value)?)),
        b'm' => Some(Arg::Midi(read_word(value)?)),
        b't' => Some(Arg::Time(read_tag(value)?)),
        b'd' => Some(Arg::Double(read_tag(value)?)),
        _ => None,
    }
}

/// Adds the argument under its tag, where one was read.
fn put_read(
    tag: u8,
    read: Option<Arg<'_>>,
    tags: &mut Vec<u8>,
    atoms: &mut Vec<u8>,
) -> Result<(), LineRefusal<ScoreFaultKind>>
    requires { IfSome read (λ arg. IsUnder tag (shown arg)) }
    ensures { Argues result (option_map (λ arg. shown arg) read.entry) tags.old.items
        atoms.old.items tags.new.items atoms.new.items }
{
    match read {
        Some(arg) => put_argument(tag, arg, tags, atoms),
        None => Err(LineRefusal::Kind(ScoreFaultKind::Arg)),
    }
}

/// Adds an argument under its tag.
fn put_argument(
    tag: u8,
    arg: Arg<'_>,
    tags: &mut Vec<u8>,
    atoms: &mut Vec<u8>,
) -> Result<(), LineRefusal<ScoreFaultKind>>
    requires tag { tag ≡ tag_of (shown arg) }
    requires no_zero { HasNoZero (shown arg) }
    requires small { length (atom_of (shown arg)) ≤ MAX_BYTES }
    ensures { Argues result (Some (shown arg.entry)) tags.old.items atoms.old.items tags.new.items
        atoms.new.items }
{
    if tags.push(tag).is_err() {
        return Err(LineRefusal::NoMemory);
    }
    atoms.reserve(argument_size(arg))?;
    append_argument(atoms, arg);
    Ok(())
}
