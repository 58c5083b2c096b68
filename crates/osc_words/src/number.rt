// Reads a number off a word.
ghost use Rattle.std.specs.Prelude.{◌≡◌, ◌≤◌, IfSome};
ghost use Rattle.std.specs.Char.{is_ascii_digit};
ghost use Rattle.std.specs.List.{list_all};
ghost use Rattle.osc_words.specs.Numbers;

/// The number that the text writes, where it lies from `least` to `most`.
#[tactic(auto, using(crate::proofs::Digits::numbers))]
pub(crate) fn number_within(least: u64, most: u64, text: &str) -> Option<u64>
    ensures value { result ≡ Numbers.number_within least most text.now }
    ensures range { IfSome result (λ number. (least ≤ number) × (number ≤ most)) }
{
    if !is_number(text.as_bytes()) {
        return None;
    }
    match text.parse::<u64>() {
        Ok(value) if least <= value && value <= most => Some(value),
        _ => None,
    }
}

fn is_number(text: &[u8]) -> bool
    ensures { result ≡ Numbers.is_number text.now }
{
    are_digits(text) && has_no_zero_first(text)
}

fn are_digits(text: &[u8]) -> bool
    ensures { result ≡ list_all is_ascii_digit text.now }
{
    text.iter().all(|byte| byte.is_ascii_digit())
}

fn has_no_zero_first(text: &[u8]) -> bool
    ensures { result ≡ Numbers.has_no_zero_first text.now }
{
    match text {
        [] => false,
        [first, rest @ ..] => *first != b'0' || rest.is_empty(),
    }
}
