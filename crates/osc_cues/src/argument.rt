//! Reads the words of arguments.
ghost use Rattle.osc_atoms.specs.declared.limits.TheConstants.{MAX_BYTES};
ghost use Rattle.osc_cues.specs.declared.limits.TheConstants.{MAX_SHEET};
ghost use Rattle.std.specs.Prelude.{◌≡◌, ◌≤◌, ◌+◌, length, IsTrue, IfOk, IfSome, option_map, Ok};
ghost use Rattle.std.specs.Prelude.{position};
ghost use Rattle.osc_atoms.specs.Atoms.{has_no_zero};
ghost use Rattle.osc_message.specs.Messages.{tag_of, atom_of, HasNoZero, content};
ghost use Rattle.osc_message.specs.Shown.{shown};
ghost use Rattle.osc_cues.specs.Faults.{made};
ghost use Rattle.osc_cues.specs.Arguments;
ghost use Rattle.osc_cues.specs.Arguments.{name_read, character_read, tagged_read, value_or};
ghost use Rattle.osc_cues.specs.Arguments.{blob_read, value_read, number_read, said_read};
ghost use Rattle.osc_cues.specs.Arguments.{argument_read};
ghost use Rattle.osc_cues.specs.Answers.{Says, Argues};

use crate::fault::{Fault, WordError, WordFault};
use crate::number::{
    are_digits, is_whole, read_decimal, read_double, read_eight, read_float, read_int, read_long,
    read_sixteen,
};
use crate::quoted::{has_quote, read_quoted, read_value};
use hex::FromHexError;
use osc_atoms::Bytes;
use osc_message::{Arg, append_argument, argument_size};
use std::alloc::Global;

/// The argument of a word, as its tag and its bytes, after those before.
pub fn put_word(
    alloc: Global,
    word: &[u8],
    tags: &mut Vec<u8>,
    atoms: &mut Vec<u8>,
) -> Result<(), WordError>
    requires { length word.now ≤ MAX_SHEET }
    ensures { Argues result (argument_read word.now) tags.old.items atoms.old.items tags.new.items
        atoms.new.items }
{
    if let Some(arg) = read_name(word) {
        return put_argument(arg, tags, atoms);
    }
    if has_quote(word) {
        let bytes = read_quoted(alloc, 0, word)?;
        return put_text(false, bytes.as_slice(), tags, atoms);
    }
    put_said(alloc, word, tags, atoms)
}

/// An argument of a tag and a colon, or a number.
fn put_said(
    alloc: Global,
    word: &[u8],
    tags: &mut Vec<u8>,
    atoms: &mut Vec<u8>,
) -> Result<(), WordError>
    requires { length word.now ≤ MAX_SHEET }
    ensures { Argues result (said_read word.now) tags.old.items atoms.old.items tags.new.items
        atoms.new.items }
{
    match word {
        [] => put_read(read_number(word), tags, atoms),
        [_] => put_read(read_number(word), tags, atoms),
        [tag, colon, value @ ..] => {
            if *colon == b':' {
                put_value(alloc, *tag, value, tags, atoms)
            } else {
                put_read(read_number(word), tags, atoms)
            }
        }
    }
}

/// An argument of a tag and its value.
fn put_value(
    alloc: Global,
    tag: u8,
    value: &[u8],
    tags: &mut Vec<u8>,
    atoms: &mut Vec<u8>,
) -> Result<(), WordError>
    requires { 2 + length value.now ≤ MAX_SHEET }
    ensures { Argues result (value_read tag value.now) tags.old.items atoms.old.items tags.new.items
        atoms.new.items }
{
    match tag {
        b's' => {
            let bytes = read_value(alloc, 2, value)?;
            put_text(false, bytes.as_slice(), tags, atoms)
        }
        b'S' => {
            let bytes = read_value(alloc, 2, value)?;
            put_text(true, bytes.as_slice(), tags, atoms)
        }
        b'b' => {
            let bytes = read_blob(alloc, value)?;
            put_blob(bytes.as_slice(), tags, atoms)
        }
        _ => put_read(read_tagged(tag, value), tags, atoms),
    }
}

/// Adds a text, or a symbol.
#[tactic(auto, using(crate::proofs::Lengths::string_few))]
fn put_text(
    symbol: bool,
    bytes: &[u8],
    tags: &mut Vec<u8>,
    atoms: &mut Vec<u8>,
) -> Result<(), WordError>
    requires no_zero { IsTrue (has_no_zero bytes.now) }
    requires short { length bytes.now ≤ MAX_SHEET }
    ensures { Argues result (Ok (Arguments.text_of symbol bytes.now)) tags.old.items
        atoms.old.items tags.new.items atoms.new.items }
{
    if symbol {
        put_argument(Arg::Symbol(bytes), tags, atoms)
    } else {
        put_argument(Arg::Str(bytes), tags, atoms)
    }
}

/// Adds a blob.
#[tactic(auto, using(crate::proofs::Lengths::blob_few))]
fn put_blob(bytes: &[u8], tags: &mut Vec<u8>, atoms: &mut Vec<u8>) -> Result<(), WordError>
    requires { length bytes.now ≤ MAX_SHEET }
    ensures { Argues result (Ok (content bytes.now)) tags.old.items atoms.old.items tags.new.items
        atoms.new.items }
{
    put_argument(Arg::Blob(bytes), tags, atoms)
}

/// The bytes of hexadecimal digits.
#[tactic(auto, using(crate::proofs::Lengths::decoded_few))]
fn read_blob(alloc: Global, value: &[u8]) -> Result<Bytes, WordError>
    ensures read { Says result (blob_read value.now) }
    ensures short { IfOk result (λ bytes. length bytes ≤ length value.now) }
{
    match hex::decode(alloc, value) {
        Ok(bytes) => Ok(Bytes::of(bytes)),
        Err(FromHexError::OutOfMemory) => Err(WordError::NoMemory),
        Err(_) => Err(WordError::Wrong(WordFault {
            at: 2,
            fault: Fault::NotBlob,
        })),
    }
}

/// An argument that is a name.
fn read_name<'a>(word: &[u8]) -> Option<Arg<'a>>
    ensures value { option_map (λ arg. shown arg) result ≡ name_read word.now }
    ensures bare { IfSome result (λ arg. length (atom_of (shown arg)) ≡ 0) }
    ensures no_zero { IfSome result (λ arg. HasNoZero (shown arg)) }
{
    if is_either(word, b"true", b"T") {
        return Some(Arg::True);
    }
    if is_either(word, b"false", b"F") {
        return Some(Arg::False);
    }
    if is_either(word, b"nil", b"N") {
        return Some(Arg::Nil);
    }
    if is_either(word, b"infinitum", b"I") {
        return Some(Arg::Infinitum);
    }
    if is_either(word, b"[", b"]") {
        return Some(bracket_of(word));
    }
    None
}

/// Whether the word is one of two.
fn is_either(word: &[u8], one: &[u8], other: &[u8]) -> bool
    ensures { result ≡ Arguments.is_either one.now other.now word.now }
{
    word == one || word == other
}

/// A bracket that begins an array, or else one that ends it.
fn bracket_of<'a>(word: &[u8]) -> Arg<'a>
    ensures value { shown result ≡ Arguments.bracket_of word.now }
    ensures bare { length (atom_of (shown result)) ≡ 0 }
    ensures no_zero { HasNoZero (shown result) }
{
    if word == b"[".as_slice() {
        Arg::ArrayStart
    } else {
        Arg::ArrayEnd
    }
}

/// The argument of a tag and the digits of its number.
fn read_tagged<'a>(tag: u8, value: &[u8]) -> Result<Arg<'a>, WordFault>
    ensures value { made (λ arg. shown arg) result ≡ tagged_read tag value.now }
    ensures no_zero { IfOk result (λ arg. HasNoZero (shown arg)) }
    ensures short { IfOk result (λ arg. length (atom_of (shown arg)) ≤ 8) }
{
    match tag {
        b'i' => Ok(Arg::Int(read_int(2, value)?)),
        b'h' => Ok(Arg::Long(read_long(2, value)?)),
        b'f' => Ok(Arg::Float(read_float(2, value)?)),
        b'd' => Ok(Arg::Double(read_double(2, value)?)),
        b'c' => Ok(Arg::Char(word_or(Fault::NotCharacter, read_character(value))?)),
        b'r' => Ok(Arg::Rgba(word_or(Fault::NotEight, read_eight(value))?)),
        b'm' => Ok(Arg::Midi(word_or(Fault::NotEight, read_eight(value))?)),
        b't' => Ok(Arg::Time(tag_or(Fault::NotSixteen, read_sixteen(value))?)),
        _ => Err(WordFault {
            at: 0,
            fault: Fault::NoType,
        }),
    }
}

/// The number, or the fault at the value of a word.
fn word_or(fault: Fault, read: Option<u32>) -> Result<u32, WordFault>
    ensures { result ≡ value_or fault read }
{
    match read {
        Some(number) => Ok(number),
        None => Err(WordFault { at: 2, fault }),
    }
}

fn tag_or(fault: Fault, read: Option<u64>) -> Result<u64, WordFault>
    ensures { result ≡ value_or fault read }
{
    match read {
        Some(number) => Ok(number),
        None => Err(WordFault { at: 2, fault }),
    }
}

/// A character from `!` to `~`, or 8 digits.
fn read_character(value: &[u8]) -> Option<u32>
    ensures { result ≡ character_read value.now }
{
    match value {
        [byte] => {
            if 33 <= *byte && *byte <= 126 {
                Some(u32::from(*byte))
            } else {
                None
            }
        }
        _ => read_eight(value),
    }
}

/// A number without a tag.
fn read_number<'a>(word: &[u8]) -> Result<Arg<'a>, WordFault>
    ensures value { made (λ arg. shown arg) result ≡ number_read word.now }
    ensures no_zero { IfOk result (λ arg. HasNoZero (shown arg)) }
    ensures short { IfOk result (λ arg. length (atom_of (shown arg)) ≤ 8) }
{
    if has_comma(word) {
        return Err(WordFault {
            at: 0,
            fault: Fault::Comma,
        });
    }
    if is_whole(word) {
        return Ok(Arg::Int(read_int(0, word)?));
    }
    if begins_number(word) {
        return Ok(Arg::Float(read_decimal(0, word)?));
    }
    Err(WordFault {
        at: 0,
        fault: Fault::NotArgument,
    })
}

/// Whether the word is a number with a comma.
fn has_comma(word: &[u8]) -> bool
    ensures { result ≡ Arguments.has_comma word.now }
{
    match comma_in(word) {
        None => false,
        Some(at) => are_digits(without_sign(&word[..at])) && are_digits(&word[at + 1..]),
    }
}

fn comma_in(word: &[u8]) -> Option<usize>
    ensures { result ≡ position Arguments.is_comma word.now }
{
    word.iter().position(|byte| *byte == b',')
}

/// The word without a sign that may stand first.
fn without_sign(word: &[u8]) -> &[u8]
    ensures { result.now ≡ Arguments.without_sign word.now }
{
    match word {
        [] => word,
        [first, rest @ ..] => {
            if *first == b'-' || *first == b'+' {
                rest
            } else {
                word
            }
        }
    }
}

/// Whether the first byte begins a number.
fn begins_number(word: &[u8]) -> bool
    ensures { result ≡ Arguments.begins_number word.now }
{
    match word {
        [] => false,
        [first, ..] => {
            first.is_ascii_digit() || *first == b'+' || *first == b'-' || *first == b'.'
        }
    }
}

/// Adds the argument, where one was read.
fn put_read(
    read: Result<Arg<'_>, WordFault>,
    tags: &mut Vec<u8>,
    atoms: &mut Vec<u8>,
) -> Result<(), WordError>
    requires no_zero { IfOk read (λ arg. HasNoZero (shown arg)) }
    requires short { IfOk read (λ arg. length (atom_of (shown arg)) ≤ 8) }
    ensures { Argues result (made (λ arg. shown arg) read.entry) tags.old.items atoms.old.items
        tags.new.items atoms.new.items }
{
    match read {
        Ok(arg) => put_argument(arg, tags, atoms),
        Err(wrong) => Err(WordError::Wrong(wrong)),
    }
}

/// Adds an argument.
fn put_argument(arg: Arg<'_>, tags: &mut Vec<u8>, atoms: &mut Vec<u8>) -> Result<(), WordError>
    requires no_zero { HasNoZero (shown arg) }
    requires small { length (atom_of (shown arg)) ≤ MAX_BYTES }
    ensures { Argues result (Ok (shown arg.entry)) tags.old.items atoms.old.items tags.new.items
        atoms.new.items }
{
    if tags.push(tag_in(arg)).is_err() {
        return Err(WordError::NoMemory);
    }
    atoms.reserve(argument_size(arg))?;
    append_argument(atoms, arg);
    Ok(())
}

/// The tag of an argument.
fn tag_in(arg: Arg<'_>) -> u8
    ensures { result ≡ tag_of (shown arg.entry) }
{
    match arg {
        Arg::Int(_) => b'i',
        Arg::Float(_) => b'f',
        Arg::Str(_) => b's',
        Arg::Blob(_) => b'b',
        Arg::Long(_) => b'h',
        Arg::Time(_) => b't',
        Arg::Double(_) => b'd',
        Arg::Symbol(_) => b'S',
        Arg::Char(_) => b'c',
        Arg::Rgba(_) => b'r',
        Arg::Midi(_) => b'm',
        Arg::True => b'T',
        Arg::False => b'F',
        Arg::Nil => b'N',
        Arg::Infinitum => b'I',
        Arg::ArrayStart => b'[',
        Arg::ArrayEnd => b']',
    }
}
