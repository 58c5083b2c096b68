//! Blobs, read.
ghost use Rattle.osc_atoms.specs.declared.limits.TheConstants.{MAX_BYTES};
ghost use Rattle.std.specs.Prelude.{◌≡◌, ◌+◌, ◌%◌, ◌<◌, ◌≤◌, ℕ, List, length, IfOk, IfErr, IsOkAnd};
ghost use Rattle.std.specs.Prelude.{IsTrue, is_ok, Ok};
ghost use Rattle.std.specs.Result.{result_map_both};
ghost use Rattle.osc_atoms.specs.declared.fault.Fault.{Fault};
ghost use Rattle.osc_atoms.specs.Atoms.{blob};
ghost use Rattle.osc_atoms.specs.Reading.{blob_read, content_read};
ghost use Rattle.osc_atoms.specs.Standing.{StartsWithBlob, NamesBlobFault};

use crate::fault::Fault;
use crate::number::{known_word_at, word_at};
use crate::padding::{blob_end, skip_padding};
use crate::sizes::blob_size;

/// The bytes of a blob, and the place after its padding (OSC 1.0, "Atomic Data Types", OSC-blob).
pub fn blob_at(bytes: &[u8], at: u32) -> Result<(&[u8], u32), Fault>
    requires whole { length bytes.now % 4 ≡ 0 }
    requires aligned { at % 4 ≡ 0 }
    requires inside { at ≤ length bytes.now }
    requires small { length bytes.now ≤ MAX_BYTES }
    ensures read { result_map_both (λ x. (x.0.now, x.1)) (λ fault. fault) result
        ≡ blob_read bytes.now at }
    ensures ok { IfOk result
        (λ x. StartsWithBlob bytes.now at x.0.now × (x.1 ≡ at + length (blob x.0.now))) }
    ensures next { IfOk result (λ x. (at < x.1) × (x.1 ≤ length bytes.now) × (x.1 % 4 ≡ 0)) }
    ensures complete { (content : List ℕ) → StartsWithBlob bytes.now at content
        → IsOkAnd result (λ x. (x.0.now ≡ content) × (x.1 ≡ at + length (blob content))) }
    // A missing count goes before a bad one, and that before a bad padding byte.
    ensures fault { IfErr result (λ fault. NamesBlobFault bytes.now at fault) }
    ensures exact { (fault : Fault) → NamesBlobFault bytes.now at fault → result ≡ Err fault }
{
    read_blob(bytes, at)
}

/// The bytes of a blob that was checked before, and the place after its padding. Looks at its count alone.
pub fn known_blob_at(bytes: &[u8], at: u32) -> (&[u8], u32)
    requires whole { length bytes.now % 4 ≡ 0 }
    requires aligned { at % 4 ≡ 0 }
    requires known { IsTrue (is_ok (blob_read bytes.now at)) }
    requires inside { at ≤ length bytes.now }
    requires small { length bytes.now ≤ MAX_BYTES }
    ensures read { Ok (result.0.now, result.1) ≡ blob_read bytes.now at }
    ensures next { (at < result.1) × (result.1 ≤ length bytes.now) × (result.1 % 4 ≡ 0) }
{
    let (count, start) = known_word_at(bytes, at);
    let size = count as usize;
    let rest = &bytes[start as usize..];
    (&rest[..size], at + blob_size(size) as u32)
}

fn read_blob(bytes: &[u8], at: u32) -> Result<(&[u8], u32), Fault>
    requires whole { length bytes.now % 4 ≡ 0 }
    requires aligned { at % 4 ≡ 0 }
    requires inside { at ≤ length bytes.now }
    requires small { length bytes.now ≤ MAX_BYTES }
    ensures { result_map_both (λ x. (x.0.now, x.1)) (λ fault. fault) result
        ≡ blob_read bytes.now at }
{
    let (count, _) = word_at(bytes, at)?;
    read_content(bytes, at, count)
}

/// The bytes after the count at `at`.
fn read_content(bytes: &[u8], at: u32, count: u32) -> Result<(&[u8], u32), Fault>
    requires inside { at + 4 ≤ length bytes.now }
    requires small { length bytes.now ≤ MAX_BYTES }
    ensures { result_map_both (λ x. (x.0.now, x.1)) (λ fault. fault) result
        ≡ content_read bytes.now at count }
{
    let rest = &bytes[at as usize + 4..];
    let size = count as usize;
    if count > i32::MAX as u32 || size + blob_end(size) > rest.len() {
        return Err(Fault {
            kind: Fault::BLOB_SIZE,
            at,
        });
    }
    let next = skip_padding(bytes, at + 4 + count, blob_end(size) as u32)?;
    Ok((&rest[..size], next))
}
