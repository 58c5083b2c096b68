//! Atoms, appended to a vector.
ghost use Rattle.osc_atoms.specs.declared.limits.TheConstants.{MAX_BYTES};
ghost use Rattle.std.specs.Prelude.{◌≡◌, ◌+◌, ◌++◌, ◌≤◌, length, replicate, IsTrue, IsOk, OnOk};
ghost use Rattle.std.specs.Prelude.{OnErr};
ghost use Rattle.std.specs.Vec.{vec_len, vec_capacity};
ghost use Rattle.osc_atoms.specs.Atoms;
ghost use Rattle.osc_atoms.specs.Atoms.{string, has_no_zero};

use crate::padding::{blob_end, string_end};
use crate::sizes::blob_size;
use std::alloc::AllocError;

/// Appends the big-endian bytes of a word.
pub fn put_word(out: &mut Vec<u8>, word: u32) -> Result<(), AllocError>
    ensures ok { OnOk result (out.new.items ≡ out.old.items ++ Atoms.word word) }
    ensures err { OnErr result (out.new.items ≡ out.old.items) }
    ensures succeeds { vec_len out.old + 4 ≤ vec_capacity out.old → IsOk result }
    ensures capacity { vec_capacity out.old ≤ vec_capacity out.new }
{
    out.extend_from_slice(&word.to_be_bytes())
}

/// Appends the big-endian bytes of a time tag.
pub fn put_tag(out: &mut Vec<u8>, tag: u64) -> Result<(), AllocError>
    ensures ok { OnOk result (out.new.items ≡ out.old.items ++ Atoms.tag tag) }
    ensures err { OnErr result (out.new.items ≡ out.old.items) }
    ensures succeeds { vec_len out.old + 8 ≤ vec_capacity out.old → IsOk result }
    ensures capacity { vec_capacity out.old ≤ vec_capacity out.new }
{
    out.extend_from_slice(&tag.to_be_bytes())
}

/// Appends the string of a text, whole or not at all.
pub fn put_string(out: &mut Vec<u8>, text: &[u8]) -> Result<(), AllocError>
    requires { IsTrue (has_no_zero text.now) }
    ensures ok { OnOk result (out.new.items ≡ out.old.items ++ string text.now) }
    ensures err { OnErr result (out.new.items ≡ out.old.items) }
    ensures succeeds { vec_len out.old + length (string text.now) ≤ vec_capacity out.old
        → IsOk result }
    ensures capacity { vec_capacity out.old ≤ vec_capacity out.new }
{
    out.reserve(text.len() + string_end(text.len()))?;
    append_string(out, text);
    Ok(())
}

/// Appends the blob of some bytes, whole or not at all.
pub fn put_blob(out: &mut Vec<u8>, blob: &[u8]) -> Result<(), AllocError>
    requires { length blob.now ≤ MAX_BYTES }
    ensures ok { OnOk result (out.new.items ≡ out.old.items ++ Atoms.blob blob.now) }
    ensures err { OnErr result (out.new.items ≡ out.old.items) }
    ensures succeeds { vec_len out.old + length (Atoms.blob blob.now) ≤ vec_capacity out.old
        → IsOk result }
    ensures capacity { vec_capacity out.old ≤ vec_capacity out.new }
{
    out.reserve(blob_size(blob.len()))?;
    append_blob(out, blob);
    Ok(())
}

/// Appends a word, for which there is room.
pub fn append_word(out: &mut Vec<u8>, word: u32)
    requires room { vec_len out.old + 4 ≤ vec_capacity out.old }
    ensures out { out.new.items ≡ out.old.items ++ Atoms.word word }
    ensures capacity { vec_capacity out.old ≤ vec_capacity out.new }
{
    append(out, &word.to_be_bytes());
}

/// Appends a time tag, for which there is room.
pub fn append_tag(out: &mut Vec<u8>, tag: u64)
    requires room { vec_len out.old + 8 ≤ vec_capacity out.old }
    ensures out { out.new.items ≡ out.old.items ++ Atoms.tag tag }
    ensures capacity { vec_capacity out.old ≤ vec_capacity out.new }
{
    append(out, &tag.to_be_bytes());
}

/// Appends the string of a text, for which there is room.
pub fn append_string(out: &mut Vec<u8>, text: &[u8])
    requires no_zero { IsTrue (has_no_zero text.now) }
    requires room { vec_len out.old + length (string text.now) ≤ vec_capacity out.old }
    ensures out { out.new.items ≡ out.old.items ++ string text.now }
    ensures capacity { vec_capacity out.old ≤ vec_capacity out.new }
{
    append_padded(out, text, string_end(text.len()));
}

/// Appends the blob of some bytes, for which there is room.
pub fn append_blob(out: &mut Vec<u8>, blob: &[u8])
    requires counted { length blob.now ≤ MAX_BYTES }
    requires room { vec_len out.old + length (Atoms.blob blob.now) ≤ vec_capacity out.old }
    ensures out { out.new.items ≡ out.old.items ++ Atoms.blob blob.now }
    ensures capacity { vec_capacity out.old ≤ vec_capacity out.new }
{
    append_word(out, blob.len() as u32);
    append_padded(out, blob, blob_end(blob.len()));
}

/// Appends bytes and at most four zero bytes after them, for which there is room.
fn append_padded(out: &mut Vec<u8>, bytes: &[u8], end: usize)
    requires few { end ≤ 4 }
    requires room { vec_len out.old + (length bytes.now + end) ≤ vec_capacity out.old }
    ensures out { out.new.items ≡ out.old.items ++ (bytes.now ++ replicate end 0) }
    ensures capacity { vec_capacity out.old ≤ vec_capacity out.new }
{
    append(out, bytes);
    append(out, &[0; 4][..end]);
}

/// Appends bytes for which there is room.
fn append(out: &mut Vec<u8>, bytes: &[u8])
    requires room { vec_len out.old + length bytes.now ≤ vec_capacity out.old }
    ensures out { out.new.items ≡ out.old.items ++ bytes.now }
    ensures capacity { vec_capacity out.old ≤ vec_capacity out.new }
{
    match out.extend_from_slice(bytes) {
        Ok(()) => {}
        Err(_) => unreachable!(),
    }
}
