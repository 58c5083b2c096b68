// Numbers and texts as words.
ghost use Rattle.std.specs.Prelude.{◌≡◌, ◌++◌, ◌<◌, OnOk, IfOk, map, filter, length};
ghost use Rattle.std.specs.Fmt.{decimal};
ghost use Rattle.std.specs.Str.{is_utf8};
ghost use Rattle.osc_drawing.specs.Numbers as numbers;
ghost use Rattle.osc_drawing.specs.Carried as carried;

use crate::number::ZERO;
use itoa::Buffer;
use osc_atoms::Bytes;
use std::alloc::{AllocError, Global};

/// A number as a decimal, of which at most 6 characters stand there.
pub(crate) fn number_words(alloc: Global, number: u64) -> Result<Bytes, AllocError>
    ensures { IfOk result (λ words. words ≡ numbers.number_words number) }
{
    let parts = thousandths(number);
    let mut words = Vec::new(alloc);
    add_sign(&mut words, number)?;
    add_decimal(&mut words, parts / 1000)?;
    add_part(&mut words, parts % 1000)?;
    words.truncate(6);
    Ok(Bytes::of(words))
}

/// How far from 0 a number is, in thousandths, to the nearest.
fn thousandths(number: u64) -> u64
    ensures { result ≡ numbers.thousandths number }
{
    let far = number.saturating_sub(ZERO) + ZERO.saturating_sub(number);
    ((u128::from(far) * 1000 + 32_768) / 65_536) as u64
}

fn add_sign(out: &mut Vec<u8>, number: u64) -> Result<(), AllocError>
    ensures { OnOk result (out.new.items ≡ out.old.items ++ numbers.sign_words number) }
{
    if number < ZERO {
        out.push(b'-')?;
    }
    Ok(())
}

fn add_decimal(out: &mut Vec<u8>, number: u64) -> Result<(), AllocError>
    ensures { OnOk result (out.new.items ≡ out.old.items ++ decimal number) }
{
    out.extend_from_slice(Buffer::new().format(number).as_bytes())
}

/// Adds a point and the digits of a part of 1,000, without zeros at their end.
fn add_part(out: &mut Vec<u8>, part: u64) -> Result<(), AllocError>
    ensures { OnOk result (out.new.items ≡ out.old.items ++ numbers.part_words part) }
{
    if part == 0 {
        return Ok(());
    }
    if part % 100 == 0 {
        return out.extend_from_slice(&[b'.', digit(part / 100)]);
    }
    if part % 10 == 0 {
        return out.extend_from_slice(&[b'.', digit(part / 100), digit(part / 10)]);
    }
    out.extend_from_slice(&[b'.', digit(part / 100), digit(part / 10), digit(part)])
}

fn digit(number: u64) -> u8
    ensures { result ≡ numbers.digit number }
{
    b'0' + (number % 10) as u8
}

/// Up to 24 characters, or 22 and two points.
pub(crate) fn text_words(alloc: Global, bytes: &[u8]) -> Result<Bytes, AllocError>
    ensures { IfOk result
        (λ words. words ≡ carried.shortened (carried.as_chars bytes.now)) }
{
    Ok(Bytes::of(shortened(as_chars(alloc, bytes)?)?))
}

/// Bytes as characters.
fn as_chars(alloc: Global, bytes: &[u8]) -> Result<Vec<u8>, AllocError>
    ensures { IfOk result (λ words. words.items ≡ carried.as_chars bytes.now) }
{
    if is_text(bytes) {
        return Vec::from_slice(alloc, bytes);
    }
    plain_bytes(alloc, bytes)
}

fn is_text(bytes: &[u8]) -> bool
    ensures { result ≡ is_utf8 bytes.now }
{
    match std::str::from_utf8(bytes) {
        Ok(_) => true,
        Err(_) => false,
    }
}

fn plain_bytes(alloc: Global, bytes: &[u8]) -> Result<Vec<u8>, AllocError>
    ensures { IfOk result (λ words. words.items ≡ map carried.plain bytes.now) }
{
    let mut words = Vec::new(alloc);
    let mut rest = bytes;
    while let Some((byte, others)) = rest.split_first() {
        words.push(plain(*byte))?;
        rest = others;
    }
    Ok(words)
}

/// A byte that is a character, or a point.
fn plain(byte: u8) -> u8
    ensures { result ≡ carried.plain byte }
{
    if byte < 128 { byte } else { b'.' }
}

fn begins_char(byte: u8) -> bool
    ensures { result ≡ carried.begins_char byte }
{
    byte < 128 || byte >= 192
}

/// How many characters bytes are.
fn width(bytes: &[u8]) -> usize
    ensures { result ≡ length (filter carried.begins_char bytes.now) }
{
    bytes.iter().filter(|byte| begins_char(**byte)).count()
}

fn shortened(words: Vec<u8>) -> Result<Vec<u8>, AllocError>
    ensures { IfOk result (λ short. short.items ≡ carried.shortened words.items) }
{
    if width(&words) <= 24 {
        return Ok(words);
    }
    let mut short = Vec::new(*words.allocator());
    add_front(&mut short, 22, &words)?;
    short.extend_from_slice(b"..")?;
    Ok(short)
}

/// Adds the bytes of so many characters.
fn add_front(out: &mut Vec<u8>, most: usize, bytes: &[u8]) -> Result<(), AllocError>
    ensures { OnOk result (out.new.items ≡ out.old.items ++ carried.front most bytes.now) }
{
    let mut left = most;
    let mut rest = bytes;
    while let Some((byte, others)) = rest.split_first() {
        if begins_char(*byte) {
            if left == 0 {
                return Ok(());
            }
            left -= 1;
        }
        out.push(*byte)?;
        rest = others;
    }
    Ok(())
}
