// Cuts off the front of a text.
ghost use Rattle.std.specs.Prelude.{◌≡◌, ◌≤◌, ◌<◌, ◌^◌, IsTrue, IfSome, length, option_map};
ghost use Rattle.std.specs.Prelude.{position};
ghost use Rattle.std.specs.Str.Parse.{digits_value};
ghost use Rattle.osc_cues.specs.Cuts;
ghost use Rattle.osc_cues.specs.Cuts.{byte_cut, digits_cut, number_cut, part_cut, fraction_cut};
ghost use Rattle.osc_cues.specs.Numbers;

use crate::number::are_digits;

/// The byte, and what follows it.
pub(crate) fn cut_byte(byte: u8, text: &[u8]) -> Option<&[u8]>
    ensures { option_map (λ rest. rest.now) result ≡ byte_cut byte text.now }
{
    match text {
        [] => None,
        [first, rest @ ..] => { if *first == byte { Some(rest) } else { None } }
    }
}

/// The number that some digits write.
fn value_of(digits: &[u8]) -> u32
    requires digits { IsTrue (Numbers.are_digits digits.now) }
    requires few { length digits.now ≤ 9 }
    ensures value { result ≡ digits_value 10 digits.now }
    ensures small { result < 10 ^ 9 }
{
    match fast_float::parse_u64(digits) {
        Ok(number) => number as u32,
        Err(_) => unreachable!(),
    }
}

/// The number that so many digits write, and what follows them.
pub(crate) fn cut_digits(count: usize, text: &[u8]) -> Option<(u32, &[u8])>
    requires { count ≤ 9 }
    ensures value { option_map (λ cut. (cut.0, cut.1.now)) result ≡ digits_cut count text.now }
    ensures small { IfSome result (λ cut. cut.0 < 10 ^ 9) }
{
    if count <= text.len() && are_digits(&text[..count]) {
        Some((value_of(&text[..count]), &text[count..]))
    } else {
        None
    }
}

fn first_other(text: &[u8]) -> Option<usize>
    ensures { result ≡ position Cuts.is_other text.now }
{
    text.iter().position(|byte| !byte.is_ascii_digit())
}

/// How many digits a text begins with.
fn digits_first(text: &[u8]) -> usize
    ensures { result ≡ Cuts.digits_first text.now }
{
    match first_other(text) {
        Some(place) => place,
        None => text.len(),
    }
}

/// The number of all digits that a text begins with, from one to so many, and what follows them.
pub(crate) fn cut_number(most: usize, text: &[u8]) -> Option<(u32, &[u8])>
    requires { most ≤ 9 }
    ensures value { option_map (λ cut. (cut.0, cut.1.now)) result ≡ number_cut most text.now }
    ensures small { IfSome result (λ cut. cut.0 < 10 ^ 9) }
{
    let count = digits_first(text);
    if count <= most {
        cut_digits(count, text)
    } else {
        None
    }
}

/// Ten to this power.
fn power_of_ten(power: usize) -> u64
    requires { power ≤ 9 }
    ensures value { result ≡ 10 ^ power }
    ensures small { result ≤ 10 ^ 9 }
{
    const POWERS: [u64; 10] = [
        1,
        10,
        100,
        1000,
        10_000,
        100_000,
        1_000_000,
        10_000_000,
        100_000_000,
        1_000_000_000,
    ];
    POWERS[power]
}

/// Digits after a point, as a number of the last place that there may be.
fn cut_part(most: usize, text: &[u8]) -> Option<(u64, &[u8])>
    requires { most ≤ 9 }
    ensures value { option_map (λ cut. (cut.0, cut.1.now)) result ≡ part_cut most text.now }
    ensures small { IfSome result (λ cut. cut.0 < 10 ^ 18) }
{
    let (number, rest) = cut_number(most, text)?;
    let scale = power_of_ten(most.saturating_sub(digits_first(text)));
    Some((u64::from(number) * scale, rest))
}

/// A point and digits after it, or nothing.
pub(crate) fn cut_fraction(most: usize, text: &[u8]) -> Option<(u64, &[u8])>
    requires { most ≤ 9 }
    ensures value { option_map (λ cut. (cut.0, cut.1.now)) result ≡ fraction_cut most text.now }
    ensures small { IfSome result (λ cut. cut.0 < 10 ^ 18) }
{
    if text.starts_with(b".") {
        cut_part(most, &text[1..])
    } else {
        Some((0, text))
    }
}
