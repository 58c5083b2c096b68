// Cuts a patch into lines, and a line into words.
ghost use Rattle.std.specs.Prelude.{◌≡◌, ◌≤◌, ◌+◌, ◌||◌, IfOk, map, length};
ghost use Rattle.osc_patch.specs.Words;
ghost use Rattle.osc_patch.specs.Words.{lines_of, words_of};

use std::alloc::{AllocError, Global};

/// What stands between line feeds.
pub(crate) fn cut_lines(alloc: Global, bytes: &[u8]) -> Result<Vec<&[u8]>, AllocError>
    ensures lines { IfOk result (λ lines. map (λ line. line.now) lines.items ≡ lines_of bytes.now) }
    ensures few { IfOk result (λ lines. length lines.items ≤ length bytes.now + 1) }
{
    bytes.split(|byte| *byte == b'\n').collect(alloc)
}

/// The words before a comment.
pub(crate) fn cut_words(alloc: Global, line: &[u8]) -> Result<Vec<&[u8]>, AllocError>
    ensures { IfOk result (λ words. map (λ word. word.now) words.items ≡ words_of line.now) }
{
    without_return(line)
        .split(|byte| is_blank(*byte))
        .filter(|word| !word.is_empty())
        .take_while(|word| !word.starts_with(b"#"))
        .collect(alloc)
}

fn is_blank(byte: u8) -> bool
    ensures { result ≡ Words.is_blank byte }
{
    byte == b' ' || byte == b'\t'
}

fn without_return(line: &[u8]) -> &[u8]
    ensures { result.now ≡ Words.without_return line.now }
{
    match line.strip_suffix(b"\r") {
        Some(line) => line,
        None => line,
    }
}
