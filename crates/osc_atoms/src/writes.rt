//! Atoms, written over bytes.
ghost use Rattle.osc_atoms.specs.declared.limits.TheConstants.{MAX_BYTES};
ghost use Rattle.std.specs.Prelude.{◌≡◌, ◌+◌, ◌≤◌, length, IsTrue};
ghost use Rattle.osc_atoms.specs.Atoms;
ghost use Rattle.osc_atoms.specs.Atoms.{string, has_no_zero, with_atom};

use crate::padding::{blob_end, string_end};

/// Writes the big-endian bytes of a word at `at`, and answers the place after them.
pub fn write_word(out: &mut [u8], at: usize, word: u32) -> usize
    requires { at + 4 ≤ length out.old }
    ensures out { out.new ≡ with_atom out.old at (Atoms.word word) }
    ensures next { result ≡ at + 4 }
{
    write_bytes(out, at, &word.to_be_bytes())
}

/// Writes the big-endian bytes of a time tag at `at`, and answers the place after them.
pub fn write_tag(out: &mut [u8], at: usize, tag: u64) -> usize
    requires { at + 8 ≤ length out.old }
    ensures out { out.new ≡ with_atom out.old at (Atoms.tag tag) }
    ensures next { result ≡ at + 8 }
{
    write_bytes(out, at, &tag.to_be_bytes())
}

/// Writes the string of a text at `at`, and answers the place after it.
pub fn write_string(out: &mut [u8], at: usize, text: &[u8]) -> usize
    requires no_zero { IsTrue (has_no_zero text.now) }
    requires fits { at + length (string text.now) ≤ length out.old }
    ensures out { out.new ≡ with_atom out.old at (string text.now) }
    ensures next { result ≡ at + length (string text.now) }
{
    let end = write_bytes(out, at, text);
    write_bytes(out, end, &[0; 4][..string_end(text.len())])
}

/// Writes the blob of some bytes at `at`, and answers the place after it.
pub fn write_blob(out: &mut [u8], at: usize, blob: &[u8]) -> usize
    requires counted { length blob.now ≤ MAX_BYTES }
    requires fits { at + length (Atoms.blob blob.now) ≤ length out.old }
    ensures out { out.new ≡ with_atom out.old at (Atoms.blob blob.now) }
    ensures next { result ≡ at + length (Atoms.blob blob.now) }
{
    let start = write_word(out, at, blob.len() as u32);
    let end = write_bytes(out, start, blob);
    write_bytes(out, end, &[0; 4][..blob_end(blob.len())])
}

fn write_bytes(out: &mut [u8], at: usize, bytes: &[u8]) -> usize
    requires { at + length bytes.now ≤ length out.old }
    ensures out { out.new ≡ with_atom out.old at bytes.now }
    ensures next { result ≡ at + length bytes.now }
{
    let next = at + bytes.len();
    out[at..next].copy_from_slice(bytes);
    next
}
