// Array brackets among the words of a line.
ghost use Rattle.std.specs.Prelude.{◌≡◌, ◌≤◌, ◌<◌, ◌+◌, ◌^◌};
ghost use Rattle.osc_cues.specs.Cues;
ghost use Rattle.osc_cues.specs.Cues.{opened_at, closed_at, bracketed, brackets_in, fault_in};

use crate::fault::{Fault, WordFault};
use crate::scan::{Span, word_at};

/// What stands open after some words.
#[derive(Clone, Copy)]
pub(crate) struct Brackets {
    /// How many brackets are open.
    pub(crate) depth: usize,
    /// Where the first of them stands.
    pub(crate) opened: usize,
    /// Where a bracket stands that closes none.
    pub(crate) closing: Option<usize>,
}

fn open_at(brackets: Brackets, place: usize) -> Brackets
    requires { brackets.depth < 2 ^ 63 }
    ensures { result ≡ opened_at brackets place }
{
    Brackets {
        depth: brackets.depth + 1,
        opened: opened_from(brackets, place),
        closing: brackets.closing,
    }
}

/// Where the first open bracket stands, with one more at this place.
fn opened_from(brackets: Brackets, place: usize) -> usize
    ensures { result ≡ Cues.opened_from brackets place }
{
    if brackets.depth == 0 {
        place
    } else {
        brackets.opened
    }
}

fn close_at(brackets: Brackets, place: usize) -> Brackets
    ensures { result ≡ closed_at brackets place }
{
    if brackets.depth > 0 {
        return Brackets {
            depth: brackets.depth - 1,
            ..brackets
        };
    }
    Brackets {
        closing: Some(first_of(brackets.closing, place)),
        ..brackets
    }
}

fn first_of(first: Option<usize>, place: usize) -> usize
    ensures { result ≡ Cues.first_of first place }
{
    match first {
        Some(first) => first,
        None => place,
    }
}

fn bracketed(brackets: Brackets, place: usize, word: &[u8]) -> Brackets
    requires { brackets.depth < 2 ^ 63 }
    ensures value { result ≡ Cues.bracketed brackets place word.now }
    ensures small { result.depth ≤ brackets.depth + 1 }
{
    if word == b"[".as_slice() {
        return open_at(brackets, place);
    }
    if word == b"]".as_slice() {
        return close_at(brackets, place);
    }
    brackets
}

/// What stands open after the words of a line.
fn brackets_in(line: &[u8], spans: &[Span]) -> Brackets
    ensures { result ≡ Cues.brackets_in line.now Cues.unopened spans.now }
{
    let mut brackets = Brackets {
        depth: 0,
        opened: 0,
        closing: None,
    };
    for span in spans {
        brackets = bracketed(brackets, span.from, word_at(line, *span));
    }
    brackets
}

/// A bracket that closes none, or else the first that is never closed.
pub(crate) fn brackets_fault(line: &[u8], spans: &[Span]) -> Option<WordFault>
    ensures { result ≡ Cues.brackets_fault line.now spans.now }
{
    let brackets = brackets_in(line, spans);
    if let Some(at) = brackets.closing {
        return Some(WordFault {
            at,
            fault: Fault::CloseBracket,
        });
    }
    if brackets.depth == 0 {
        return None;
    }
    Some(WordFault {
        at: brackets.opened,
        fault: Fault::OpenBracket,
    })
}
