//! Cuts lines off a script, and words off a line.
ghost use Rattle.std.specs.Prelude.{◌≡◌, ◌<◌, [], ◌∷◌, length, position, MatchOption, IfSome};
ghost use Rattle.osc_script.specs.Words;
ghost use Rattle.osc_script.specs.Words.{is_space, is_no_space, is_line_feed, words_of, lines_of};

use memchr::memchr;

#[tactic(auto, using(crate::proofs::Cutting::lines))]
/// The first line without what ends it, and what follows it.
pub fn first_line(rest: &[u8]) -> (&[u8], &[u8])
    requires { 0 < length rest.now }
    ensures lines { lines_of rest.now ≡ result.0.now ∷ lines_of result.1.now }
    ensures shorter { length result.1.now < length rest.now }
{
    match first_line_feed(rest) {
        Some(end) => (without_return(&rest[..end]), &rest[end + 1..]),
        None => (rest, &[]),
    }
}

fn first_line_feed(rest: &[u8]) -> Option<usize>
    ensures { result ≡ position is_line_feed rest.now }
{
    memchr(b'\n', rest)
}

fn without_return(line: &[u8]) -> &[u8]
    ensures { result.now ≡ Words.without_return line.now }
{
    match line.strip_suffix(b"\r") {
        Some(line) => line,
        None => line,
    }
}

#[tactic(auto, using(crate::proofs::Cutting::words))]
/// The first word, and what follows the space after it.
pub fn next_word(text: &[u8]) -> Option<(&[u8], &[u8])>
    ensures words { MatchOption result (words_of text.now ≡ [])
        (λ parts. words_of text.now ≡ parts.0.now ∷ words_of parts.1.now) }
    ensures shorter { IfSome result (λ parts. length parts.1.now < length text.now) }
{
    let word = &text[first_other(text)?..];
    match first_space(word) {
        Some(end) => Some((&word[..end], &word[end + 1..])),
        None => Some((word, &[])),
    }
}

/// Where the first byte is that is no space.
fn first_other(text: &[u8]) -> Option<usize>
    ensures { result ≡ position is_no_space text.now }
{
    text.iter().position(|byte| *byte != b' ')
}

fn first_space(text: &[u8]) -> Option<usize>
    ensures { result ≡ position is_space text.now }
{
    text.iter().position(|byte| *byte == b' ')
}
