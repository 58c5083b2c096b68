// Reads texts in the words of arguments.
ghost use Rattle.std.specs.Prelude.{◌≡◌, ◌<◌, [], ◌∷◌, length, option_map, IfOk, IfSome};
ghost use Rattle.osc_score.specs.ArgumentWords;

use hex::FromHex;
use std::alloc::{AllocError, Global};

/// The first byte of a text, and what follows it.
pub(crate) fn first_byte(word: &[u8]) -> Option<(u8, &[u8])>
    ensures shorter { IfSome result (λ cut. length cut.1.now < length word.now) }
    ensures value { option_map (λ cut. (cut.0, cut.1.now)) result
        ≡ ArgumentWords.first_byte word.now }
{
    match word {
        [] => None,
        [b'\\', rest @ ..] => read_escape(rest),
        [byte, rest @ ..] => {
            if is_plain(*byte) {
                Some((*byte, rest))
            } else {
                None
            }
        }
    }
}

/// A byte from `!` to `~` that isn't a backslash.
fn is_plain(byte: u8) -> bool
    ensures { result ≡ ArgumentWords.is_plain byte }
{
    33 <= byte && byte <= 126 && byte != b'\\'
}

/// An `x`, two digits of a byte that isn't 0, and what follows them.
fn read_escape(rest: &[u8]) -> Option<(u8, &[u8])>
    ensures shorter { IfSome result (λ cut. length cut.1.now < length rest.now) }
    ensures value { option_map (λ cut. (cut.0, cut.1.now)) result
        ≡ ArgumentWords.escape_read rest.now }
{
    match rest {
        [first, high, low, rest @ ..] => {
            if *first == b'x' {
                Some((read_pair(*high, *low)?, rest))
            } else {
                None
            }
        }
        _ => None,
    }
}

/// The byte of two digits, if it isn't 0.
fn read_pair(high: u8, low: u8) -> Option<u8>
    ensures { result ≡ ArgumentWords.pair_read high low }
{
    match <[u8; 1] as FromHex>::from_hex(&[high, low]) {
        Ok(bytes) => unless_zero(bytes[0]),
        Err(_) => None,
    }
}

fn unless_zero(byte: u8) -> Option<u8>
    ensures { result ≡ ArgumentWords.unless_zero (byte ∷ []) }
{
    if byte == 0 { None } else { Some(byte) }
}

/// The bytes of a text, if the word is one.
pub(crate) fn read_text(alloc: Global, word: &[u8]) -> Result<Option<Vec<u8>>, AllocError>
    ensures { IfOk result
        (λ text. option_map (λ bytes. bytes.items) text ≡ ArgumentWords.text_read word.now) }
{
    let mut text = Vec::new(alloc);
    let mut rest = word;
    while !rest.is_empty() {
        match first_byte(rest) {
            Some((byte, after)) => {
                text.push(byte)?;
                rest = after;
            }
            None => return Ok(None),
        }
    }
    Ok(Some(text))
}
