// Texts, as they stand between quotes.
ghost use Rattle.std.specs.Prelude.{◌≡◌, ◌++◌, ◌+◌, OnOk, IfOk, chars, length, min, nat_le, take};
ghost use Rattle.std.specs.List.{flat_map};
ghost use Rattle.osc_shown.specs.Texts.{quoted, quoted_text, quoted_bytes, shown_byte, shown_char};
ghost use Rattle.osc_shown.specs.Texts.{escaped, escaped_byte, is_marked, is_printed, most_shown};
ghost use Rattle.osc_shown.specs.Added.{counted_char};
ghost use Rattle.osc_shown.specs.Texts.{rest_text, all_shown, text_word};

use crate::bytes::{add, add_byte, add_hex, front};
use crate::number::add_decimal;
use std::alloc::AllocError;

/// How many characters of a text are shown that isn't shown whole.
const MOST_SHOWN: usize = 40;

/// Adds the text between quotes, whole or cut where it is long.
pub(crate) fn add_text_word(out: &mut Vec<u8>, whole: bool, bytes: &[u8]) -> Result<(), AllocError>
    ensures { OnOk result (out.new.items ≡ out.old.items ++ text_word whole bytes.now) }
{
    if !whole {
        return add_quoted(out, bytes);
    }
    add(out, b"\"")?;
    add_all(out, bytes)?;
    add(out, b"\"")
}

/// Adds all characters of a text, or all bytes of one that isn't UTF-8.
fn add_all(out: &mut Vec<u8>, bytes: &[u8]) -> Result<(), AllocError>
    ensures { OnOk result (out.new.items ≡ out.old.items ++ all_shown bytes.now) }
{
    match std::str::from_utf8(bytes) {
        Ok(text) => add_all_chars(out, text),
        Err(_) => add_all_shown(out, bytes),
    }
}

fn add_all_chars(out: &mut Vec<u8>, text: &str) -> Result<(), AllocError>
    ensures { OnOk result (out.new.items
        ≡ out.old.items ++ flat_map shown_char (chars text.now)) }
{
    for letter in text.chars() {
        add_char(out, letter)?;
    }
    Ok(())
}

/// Adds the text between quotes, or its first 40 characters and how many bytes it has.
fn add_quoted(out: &mut Vec<u8>, bytes: &[u8]) -> Result<(), AllocError>
    ensures { OnOk result (out.new.items ≡ out.old.items ++ quoted bytes.now) }
{
    match std::str::from_utf8(bytes) {
        Ok(text) => add_text(out, text),
        Err(_) => add_bytes(out, bytes),
    }
}

fn add_text(out: &mut Vec<u8>, text: &str) -> Result<(), AllocError>
    ensures { OnOk result (out.new.items ≡ out.old.items ++ quoted_text text.now) }
{
    add(out, b"\"")?;
    let whole = add_chars(out, text)?;
    add(out, b"\"")?;
    add_rest(out, whole, text.len())
}

/// Adds the first characters: whether they are all.
fn add_chars(out: &mut Vec<u8>, text: &str) -> Result<bool, AllocError>
    ensures whole { IfOk result (λ whole. whole ≡ nat_le (length (chars text.now)) 40) }
    ensures added { OnOk result (out.new.items
        ≡ out.old.items ++ flat_map shown_char (take most_shown (chars text.now))) }
{
    let mut count = 0;
    for letter in text.chars() {
        add_counted(out, letter, count)?;
        count = one_more(count);
    }
    Ok(count <= MOST_SHOWN)
}

/// Adds the character, if fewer than 40 stand before it.
fn add_counted(out: &mut Vec<u8>, letter: char, count: usize) -> Result<(), AllocError>
    ensures { OnOk result (out.new.items ≡ out.old.items ++ counted_char count letter) }
{
    if count < MOST_SHOWN {
        return add_char(out, letter);
    }
    Ok(())
}

/// One more, up to 41.
fn one_more(count: usize) -> usize
    ensures { result ≡ min 41 (count + 1) }
{
    if count <= MOST_SHOWN {
        return count + 1;
    }
    MOST_SHOWN + 1
}

fn add_char(out: &mut Vec<u8>, letter: char) -> Result<(), AllocError>
    ensures { OnOk result (out.new.items ≡ out.old.items ++ shown_char letter) }
{
    if letter.is_ascii() {
        return add_shown(out, letter as u32 as u8);
    }
    let mut space = [0; 4];
    let bytes = letter.encode_utf8(&mut space).as_bytes();
    if (letter as u32) < 160 {
        return add_escaped(out, bytes);
    }
    add(out, bytes)
}

/// Adds `\x` and two digits for each byte.
fn add_escaped(out: &mut Vec<u8>, bytes: &[u8]) -> Result<(), AllocError>
    ensures { OnOk result (out.new.items ≡ out.old.items ++ escaped bytes.now) }
{
    for byte in bytes {
        add_escape(out, *byte)?;
    }
    Ok(())
}

fn add_escape(out: &mut Vec<u8>, byte: u8) -> Result<(), AllocError>
    ensures { OnOk result (out.new.items ≡ out.old.items ++ escaped_byte byte) }
{
    add(out, b"\\x")?;
    add_hex(out, &[byte])
}

fn add_bytes(out: &mut Vec<u8>, bytes: &[u8]) -> Result<(), AllocError>
    ensures { OnOk result (out.new.items ≡ out.old.items ++ quoted_bytes bytes.now) }
{
    add(out, b"\"")?;
    add_all_shown(out, front(bytes, MOST_SHOWN))?;
    add(out, b"\"")?;
    add_rest(out, bytes.len() <= MOST_SHOWN, bytes.len())
}

/// Adds bytes as they stand in a text that isn't UTF-8.
pub(crate) fn add_all_shown(out: &mut Vec<u8>, bytes: &[u8]) -> Result<(), AllocError>
    ensures { OnOk result (out.new.items ≡ out.old.items ++ flat_map shown_byte bytes.now) }
{
    for byte in bytes {
        add_shown(out, *byte)?;
    }
    Ok(())
}

/// Adds a byte as it stands between quotes: a quote or a backslash after a backslash, and what
/// can't be printed as `\x` and two digits.
pub(crate) fn add_shown(out: &mut Vec<u8>, byte: u8) -> Result<(), AllocError>
    ensures { OnOk result (out.new.items ≡ out.old.items ++ shown_byte byte) }
{
    if is_marked(byte) {
        return add(out, &[b'\\', byte]);
    }
    if is_printed(byte) {
        return add_byte(out, byte);
    }
    add_escape(out, byte)
}

fn is_marked(byte: u8) -> bool
    ensures { result ≡ is_marked byte }
{
    byte == b'"' || byte == b'\\'
}

/// Whether it is a byte from the space to `~`.
pub(crate) fn is_printed(byte: u8) -> bool
    ensures { result ≡ is_printed byte }
{
    32 <= byte && byte <= 126
}

/// Adds how many bytes a text has, unless it is shown whole.
fn add_rest(out: &mut Vec<u8>, whole: bool, size: usize) -> Result<(), AllocError>
    ensures { OnOk result (out.new.items ≡ out.old.items ++ rest_text whole size) }
{
    if whole {
        return Ok(());
    }
    add(out, b"..")?;
    add_decimal(out, size as u64)
}
