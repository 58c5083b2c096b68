// Reads numbers in the words of arguments.
ghost use Rattle.std.specs.Prelude.{◌≡◌, ◌≤◌, ◌^◌, true, IsTrue, nat_le, if◌then◌else◌, Some, None};
ghost use Rattle.std.specs.Prelude.{IfSome};
ghost use Rattle.std.specs.List.{list_all};
ghost use Rattle.std.specs.Char.{is_ascii_digit};
ghost use Rattle.osc_score.specs.ArgumentWords;
ghost use Rattle.osc_score.specs.ArgumentWords.{natural_read, number_in, signed_read, word_read};
ghost use Rattle.osc_score.specs.ArgumentWords.{tag_read};

use hex::FromHex;

/// 8 hexadecimal digits.
pub(crate) fn read_word(digits: &[u8]) -> Option<u32>
    ensures { result ≡ word_read digits.now }
{
    match <[u8; 4] as FromHex>::from_hex(digits) {
        Ok(bytes) => Some(u32::from_be_bytes(bytes)),
        Err(_) => None,
    }
}

/// 16 hexadecimal digits.
pub(crate) fn read_tag(digits: &[u8]) -> Option<u64>
    ensures { result ≡ tag_read digits.now }
{
    match <[u8; 8] as FromHex>::from_hex(digits) {
        Ok(bytes) => Some(u64::from_be_bytes(bytes)),
        Err(_) => None,
    }
}

/// A whole number with `bound` numbers below zero, and as many from zero on.
pub(crate) fn read_signed(word: &[u8], bound: u64) -> Option<i64>
    requires some { 1 ≤ bound }
    requires small { bound ≤ 2 ^ 63 }
    ensures { result ≡ signed_read bound word.now }
{
    match word {
        [] => None,
        [b'-', digits @ ..] => below_zero(read_natural(digits, bound)?),
        _ => Some(read_natural(word, bound - 1)? as i64),
    }
}

/// The number with this many below zero up to it.
fn below_zero(number: u64) -> Option<i64>
    requires { number ≤ 2 ^ 63 }
    ensures { result ≡ ArgumentWords.below_zero number }
{
    if number == 0 {
        None
    } else {
        Some(-1 - (number - 1) as i64)
    }
}

/// A number in decimal of at most `most`.
fn read_natural(word: &[u8], most: u64) -> Option<u64>
    requires { most ≤ 2 ^ 63 }
    ensures value { result ≡ natural_read most word.now }
    ensures within { IfSome result (λ number. number ≤ most) }
{
    if !is_decimal(word) {
        return None;
    }
    number_of(word, most)
}

/// Digits, the first of more than one no zero.
fn is_decimal(word: &[u8]) -> bool
    ensures value { result ≡ ArgumentWords.is_decimal word.now }
    ensures digits { result ≡ true → IsTrue (list_all is_ascii_digit word.now) }
{
    match word {
        [] => false,
        [digit] => digit.is_ascii_digit(),
        [first, ..] => *first != b'0' && are_digits(word),
    }
}

fn are_digits(word: &[u8]) -> bool
    ensures { result ≡ list_all is_ascii_digit word.now }
{
    word.iter().all(|byte| byte.is_ascii_digit())
}

/// The number that digits are, if it is at most `most`.
fn number_of(digits: &[u8], most: u64) -> Option<u64>
    requires digits { IsTrue (list_all is_ascii_digit digits.now) }
    requires small { most ≤ 2 ^ 63 }
    ensures { result ≡ (if nat_le (number_in digits.now) most then Some (number_in digits.now)
        else None) }
{
    let mut number = 0;
    for byte in digits {
        if number > most / 10 {
            return None;
        }
        number = 10 * number + u64::from(*byte - b'0');
        if number > most {
            return None;
        }
    }
    Some(number)
}
