// Reads texts in words, in quotes and without.
ghost use Rattle.osc_cues.specs.declared.limits.TheConstants.{MAX_SHEET};
ghost use Rattle.std.specs.Prelude.{◌≡◌, ◌≤◌, ◌<◌, ◌+◌, ◌-◌, length, IfOk, IsTrue};
ghost use Rattle.std.specs.Prelude.{◌++◌, ◌∷◌, [], OnOk};
ghost use Rattle.osc_atoms.specs.Atoms.{has_no_zero};
ghost use Rattle.osc_cues.specs.Quoted;
ghost use Rattle.osc_cues.specs.Quoted.{text_read, quoted_read, value_text, byte_or, is_plain};
ghost use Rattle.osc_cues.specs.Faults.{made};
ghost use Rattle.osc_cues.specs.Answers.{Says};

use crate::fault::{Fault, WordError, WordFault};
use hex::FromHex;
use osc_atoms::Bytes;
use std::alloc::{AllocError, Global};

/// The byte of two hexadecimal digits.
fn read_pair(high: u8, low: u8) -> Option<u8>
    ensures { result ≡ Quoted.pair_read high low }
{
    match <[u8; 1] as FromHex>::from_hex(&[high, low]) {
        Ok(bytes) => Some(bytes[0]),
        Err(_) => None,
    }
}

/// An `x` and two digits of a byte that isn't 0, and what follows them; else the fault.
fn read_escape(fault: Fault, text: &[u8]) -> Result<(u8, &[u8]), Fault>
    ensures shorter { IfOk result (λ cut. length cut.1.now < length text.now) }
    ensures value { made (λ cut. (cut.0, cut.1.now)) result
        ≡ Quoted.escape_read fault text.now }
{
    match text {
        [first, high, low, rest @ ..] => {
            if *first == b'x' {
                some_byte(fault, rest, read_pair(*high, *low))
            } else {
                Err(fault)
            }
        }
        _ => Err(fault),
    }
}

/// The byte, if it isn't 0, and what follows it.
fn some_byte(fault: Fault, rest: &[u8], byte: Option<u8>) -> Result<(u8, &[u8]), Fault>
    ensures rest { IfOk result (λ cut. cut.1.now ≡ rest.now) }
    ensures value { made (λ cut. (cut.0, cut.1.now)) result ≡ byte_or fault rest.now byte }
{
    match byte {
        None => Err(fault),
        Some(0) => Err(Fault::ZeroByte),
        Some(byte) => Ok((byte, rest)),
    }
}

/// What a backslash within quotes stands before.
fn read_marked(text: &[u8]) -> Result<(u8, &[u8]), Fault>
    ensures shorter { IfOk result (λ cut. length cut.1.now < length text.now) }
    ensures value { made (λ cut. (cut.0, cut.1.now)) result ≡ Quoted.marked_read text.now }
{
    match text {
        [] => Err(Fault::QuotedEscape),
        [first, rest @ ..] => {
            if *first == b'"' || *first == b'\\' {
                Ok((*first, rest))
            } else {
                read_escape(Fault::QuotedEscape, text)
            }
        }
    }
}

/// The first byte of what stands within quotes, and what follows it.
fn read_quoted_first(text: &[u8]) -> Result<(u8, &[u8]), Fault>
    ensures shorter { IfOk result (λ cut. length cut.1.now < length text.now) }
    ensures value { made (λ cut. (cut.0, cut.1.now)) result ≡ Quoted.quoted_first text.now }
{
    match text {
        [] => Err(Fault::QuotedEscape),
        [b'\\', rest @ ..] => read_marked(rest),
        [b'"', ..] => Err(Fault::InnerQuote),
        [0, ..] => Err(Fault::ZeroByte),
        [byte, rest @ ..] => Ok((*byte, rest)),
    }
}

/// A byte from `!` to `~` that isn't a backslash.
fn is_plain(byte: u8) -> bool
    ensures { result ≡ is_plain byte }
{
    33 <= byte && byte <= 126 && byte != b'\\'
}

/// The first byte of a text without quotes, and what follows it.
fn read_plain_first(text: &[u8]) -> Result<(u8, &[u8]), Fault>
    ensures shorter { IfOk result (λ cut. length cut.1.now < length text.now) }
    ensures value { made (λ cut. (cut.0, cut.1.now)) result ≡ Quoted.plain_first text.now }
{
    match text {
        [] => Err(Fault::PlainByte),
        [b'\\', rest @ ..] => read_escape(Fault::PlainEscape, rest),
        [byte, rest @ ..] => {
            if is_plain(*byte) {
                Ok((*byte, rest))
            } else {
                Err(Fault::PlainByte)
            }
        }
    }
}

fn read_first(quoted: bool, text: &[u8]) -> Result<(u8, &[u8]), Fault>
    ensures shorter { IfOk result (λ cut. length cut.1.now < length text.now) }
    ensures value { made (λ cut. (cut.0, cut.1.now)) result ≡ Quoted.first_read quoted text.now }
{
    if quoted {
        read_quoted_first(text)
    } else {
        read_plain_first(text)
    }
}

/// The bytes of a text that ends at this place of its word.
fn read_text(alloc: Global, quoted: bool, end: usize, text: &[u8]) -> Result<Bytes, WordError>
    requires { length text.now ≤ end }
    ensures read { Says result (text_read quoted end text.now) }
    ensures no_zero { IfOk result (λ bytes. IsTrue (has_no_zero bytes)) }
    ensures short { IfOk result (λ bytes. length bytes ≤ length text.now) }
{
    let mut bytes = Vec::new(alloc);
    let mut rest = text;
    while !rest.is_empty() {
        match read_first(quoted, rest) {
            Ok((byte, after)) => {
                add_byte(&mut bytes, byte)?;
                rest = after;
            }
            Err(fault) => {
                return Err(WordError::Wrong(WordFault {
                    at: end - rest.len(),
                    fault,
                }));
            }
        }
    }
    Ok(Bytes::of(bytes))
}

fn add_byte(bytes: &mut Vec<u8>, byte: u8) -> Result<(), AllocError>
    ensures { OnOk result (bytes.new.items ≡ bytes.old.items ++ byte ∷ []) }
{
    bytes.push(byte)?;
    Ok(())
}

/// Whether a quote stands first.
pub(crate) fn has_quote(word: &[u8]) -> bool
    ensures { result ≡ Quoted.has_quote word.now }
{
    word.starts_with(b"\"")
}

/// Whether a quote stands last, and isn't the first.
fn is_closed(word: &[u8]) -> bool
    ensures { result ≡ Quoted.is_closed word.now }
{
    2 <= word.len() && word.ends_with(b"\"")
}

/// The bytes of a text in quotes that begins at a place of its word.
pub(crate) fn read_quoted(alloc: Global, at: usize, word: &[u8]) -> Result<Bytes, WordError>
    requires { at + length word.now ≤ MAX_SHEET }
    ensures read { Says result (quoted_read at word.now) }
    ensures no_zero { IfOk result (λ bytes. IsTrue (has_no_zero bytes)) }
    ensures short { IfOk result (λ bytes. length bytes ≤ length word.now) }
{
    if is_closed(word) {
        read_text(alloc, true, at + word.len() - 1, &word[1..word.len() - 1])
    } else {
        Err(WordError::Wrong(WordFault {
            at,
            fault: Fault::NotText,
        }))
    }
}

/// The bytes of a text, in quotes or without.
pub(crate) fn read_value(alloc: Global, at: usize, word: &[u8]) -> Result<Bytes, WordError>
    requires { at + length word.now ≤ MAX_SHEET }
    ensures read { Says result (value_text at word.now) }
    ensures no_zero { IfOk result (λ bytes. IsTrue (has_no_zero bytes)) }
    ensures short { IfOk result (λ bytes. length bytes ≤ length word.now) }
{
    if has_quote(word) {
        read_quoted(alloc, at, word)
    } else {
        read_text(alloc, false, at + word.len(), word)
    }
}
