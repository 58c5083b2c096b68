// Reads numbers in words. A fault is at a place that is given.
ghost use Rattle.std.specs.Prelude.{◌≡◌, ◌≤◌, ◌<◌, ◌^◌, IsTrue, Some};
ghost use Rattle.std.specs.List.{list_all};
ghost use Rattle.std.specs.Char.{is_ascii_digit};
ghost use Rattle.std.specs.Str.Parse.{digits_value};
ghost use lib.Ieee.{binary32, binary64};
ghost use Rattle.osc_cues.specs.Numbers;
ghost use Rattle.osc_cues.specs.Numbers.{int_of, long_of, int_read, long_read, bits_of};
ghost use Rattle.osc_cues.specs.Numbers.{decimal_float, decimal_double, float_read, double_read};
ghost use Rattle.osc_cues.specs.Numbers.{eight_read, sixteen_read, size_of as size_in};

use crate::fault::{Fault, WordFault};
use hex::FromHex;

/// Whether there are digits alone, one at least.
pub(crate) fn are_digits(word: &[u8]) -> bool
    ensures { result ≡ Numbers.are_digits word.now }
{
    0 < word.len() && all_digits(word)
}

pub(crate) fn all_digits(word: &[u8]) -> bool
    ensures { result ≡ list_all is_ascii_digit word.now }
{
    word.iter().all(|byte| byte.is_ascii_digit())
}

/// Whether a minus stands first.
fn has_minus(word: &[u8]) -> bool
    ensures { result ≡ Numbers.has_minus word.now }
{
    match word {
        [] => false,
        [first, ..] => *first == b'-',
    }
}

/// The word without that minus.
fn without_minus(word: &[u8]) -> &[u8]
    ensures { result.now ≡ Numbers.without_minus word.now }
{
    match word {
        [b'-', rest @ ..] => rest,
        _ => word,
    }
}

/// Whether there are digits, and before them a minus or nothing.
pub(crate) fn is_whole(word: &[u8]) -> bool
    ensures { result ≡ Numbers.is_whole word.now }
{
    are_digits(without_minus(word))
}

/// Whether a zero stands before other digits.
pub(crate) fn has_zero_first(digits: &[u8]) -> bool
    ensures { result ≡ Numbers.has_zero_first digits.now }
{
    match digits {
        [first, _, ..] => *first == b'0',
        _ => false,
    }
}

/// The number that digits write, or the largest of 64 bits where it is larger.
pub(crate) fn size_of(digits: &[u8]) -> u64
    requires { IsTrue (Numbers.are_digits digits.now) }
    ensures { result ≡ size_in digits.now }
{
    match fast_float::parse_u64(digits) {
        Ok(number) => number,
        Err(_) => u64::MAX,
    }
}

/// The number, below zero or not.
fn signed(below: bool, number: u64) -> i64
    requires { IsTrue (Numbers.is_within (2 ^ 63) below number) }
    ensures { result ≡ Numbers.signed below number }
{
    if !below {
        return number as i64;
    }
    if number == 0 {
        0
    } else {
        -1 - (number - 1) as i64
    }
}

/// Whether it lies among so many numbers below zero, and as many from zero on.
fn is_within(bound: u64, below: bool, number: u64) -> bool
    ensures { result ≡ Numbers.is_within bound below number }
{
    if below {
        number <= bound
    } else {
        number < bound
    }
}

fn int_of(at: usize, below: bool, number: u64) -> Result<i32, WordFault>
    ensures { result ≡ int_of at below number }
{
    if is_within(1 << 31, below, number) {
        return Ok(signed(below, number) as i32);
    }
    if is_within(1 << 63, below, number) {
        return Err(WordFault {
            at,
            fault: Fault::LongInt,
        });
    }
    Err(WordFault {
        at,
        fault: Fault::TooLong,
    })
}

fn long_of(at: usize, below: bool, number: u64) -> Result<i64, WordFault>
    ensures { result ≡ long_of at below number }
{
    if is_within(1 << 63, below, number) {
        return Ok(signed(below, number));
    }
    Err(WordFault {
        at,
        fault: Fault::TooLong,
    })
}

/// What is wrong with a word as a whole number, but for its size.
fn whole_fault(word: &[u8]) -> Option<Fault>
    ensures { result ≡ Numbers.whole_fault word.now }
{
    if !is_whole(word) {
        return Some(Fault::NotWhole);
    }
    if has_zero_first(without_minus(word)) {
        return Some(Fault::LeadingZero);
    }
    None
}

/// A whole number of 32 bits.
pub(crate) fn read_int(at: usize, word: &[u8]) -> Result<i32, WordFault>
    ensures { result ≡ int_read at word.now }
{
    match whole_fault(word) {
        None => int_of(at, has_minus(word), size_of(without_minus(word))),
        Some(fault) => Err(WordFault { at, fault }),
    }
}

/// A whole number of 64 bits.
pub(crate) fn read_long(at: usize, word: &[u8]) -> Result<i64, WordFault>
    ensures { result ≡ long_read at word.now }
{
    match whole_fault(word) {
        None => long_of(at, has_minus(word), size_of(without_minus(word))),
        Some(fault) => Err(WordFault { at, fault }),
    }
}

/// Whether there are only bytes of a number in decimal, and no plus first.
fn is_plain_number(word: &[u8]) -> bool
    ensures { result ≡ Numbers.is_plain_number word.now }
{
    has_no_plus(word) && has_number_bytes(word)
}

fn has_no_plus(word: &[u8]) -> bool
    ensures { result ≡ Numbers.has_no_plus word.now }
{
    match word {
        [] => true,
        [first, ..] => *first != b'+',
    }
}

fn has_number_bytes(word: &[u8]) -> bool
    ensures { result ≡ list_all Numbers.is_number_byte word.now }
{
    word.iter().all(|byte| is_number_byte(*byte))
}

fn is_number_byte(byte: u8) -> bool
    ensures { result ≡ Numbers.is_number_byte byte }
{
    byte.is_ascii_digit()
        || byte == b'.'
        || byte == b'e'
        || byte == b'E'
        || byte == b'+'
        || byte == b'-'
}

/// The bits of the float nearest to a decimal.
pub(crate) fn read_decimal(at: usize, word: &[u8]) -> Result<u32, WordFault>
    ensures { result ≡ decimal_float at word.now }
{
    if is_plain_number(word) {
        if let Ok(number) = fast_float::parse::<f32, &[u8]>(word) {
            return finite_bits(at, number);
        }
    }
    Err(WordFault {
        at,
        fault: Fault::NotNumber,
    })
}

fn finite_bits(at: usize, number: f32) -> Result<u32, WordFault>
    ensures { result ≡ bits_of binary32 Fault.LargeFloat at (Some number) }
{
    if number.is_finite() {
        return Ok(number.to_bits());
    }
    Err(WordFault {
        at,
        fault: Fault::LargeFloat,
    })
}

/// The bits of the double nearest to a decimal.
fn read_decimal_double(at: usize, word: &[u8]) -> Result<u64, WordFault>
    ensures { result ≡ decimal_double at word.now }
{
    if is_plain_number(word) {
        if let Ok(number) = fast_float::parse::<f64, &[u8]>(word) {
            return finite_double_bits(at, number);
        }
    }
    Err(WordFault {
        at,
        fault: Fault::NotNumber,
    })
}

fn finite_double_bits(at: usize, number: f64) -> Result<u64, WordFault>
    ensures { result ≡ bits_of binary64 Fault.LargeDouble at (Some number) }
{
    if number.is_finite() {
        return Ok(number.to_bits());
    }
    Err(WordFault {
        at,
        fault: Fault::LargeDouble,
    })
}

/// The bits of a float: 8 hexadecimal digits, or a decimal.
pub(crate) fn read_float(at: usize, word: &[u8]) -> Result<u32, WordFault>
    ensures { result ≡ float_read at word.now }
{
    match read_eight(word) {
        Some(bits) => Ok(bits),
        None => read_decimal(at, word),
    }
}

/// The bits of a double: 16 hexadecimal digits, or a decimal.
pub(crate) fn read_double(at: usize, word: &[u8]) -> Result<u64, WordFault>
    ensures { result ≡ double_read at word.now }
{
    match read_sixteen(word) {
        Some(bits) => Ok(bits),
        None => read_decimal_double(at, word),
    }
}

/// 8 hexadecimal digits.
pub(crate) fn read_eight(digits: &[u8]) -> Option<u32>
    ensures { result ≡ eight_read digits.now }
{
    match <[u8; 4] as FromHex>::from_hex(digits) {
        Ok(bytes) => Some(u32::from_be_bytes(bytes)),
        Err(_) => None,
    }
}

/// 16 hexadecimal digits.
pub(crate) fn read_sixteen(digits: &[u8]) -> Option<u64>
    ensures { result ≡ sixteen_read digits.now }
{
    match <[u8; 8] as FromHex>::from_hex(digits) {
        Ok(bytes) => Some(u64::from_be_bytes(bytes)),
        Err(_) => None,
    }
}
