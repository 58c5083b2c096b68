//! Words and time tags, read.
ghost use Rattle.osc_atoms.specs.declared.limits.TheConstants.{MAX_BYTES};
ghost use Rattle.std.specs.Prelude.{◌≡◌, ◌+◌, ◌%◌, ◌<◌, ◌≤◌, ℕ, length, take, IfOk, IfErr, IsTrue};
ghost use Rattle.std.specs.Prelude.{is_ok, Ok};
ghost use Rattle.std.specs.Int.{w32, w64, from_be_bytes};
ghost use Rattle.osc_atoms.specs.declared.fault.Fault.{Fault};
ghost use Rattle.osc_atoms.specs.Reading.{word_read, tag_read};
ghost use Rattle.osc_atoms.specs.Standing.{StartsWithWord, StartsWithTag, NamesShort};

use crate::fault::Fault;

/// A big-endian word of 4 bytes, and the place after it (OSC 1.0, "Atomic Data Types", int32).
pub fn word_at(bytes: &[u8], at: u32) -> Result<(u32, u32), Fault>
    requires whole { length bytes.now % 4 ≡ 0 }
    requires aligned { at % 4 ≡ 0 }
    requires inside { at ≤ length bytes.now }
    requires small { length bytes.now ≤ MAX_BYTES }
    ensures read { result ≡ word_read bytes.now at }
    ensures ok { IfOk result (λ x. StartsWithWord bytes.now at x.0 × (x.1 ≡ at + 4)) }
    ensures next { IfOk result (λ x. (at < x.1) × (x.1 ≤ length bytes.now) × (x.1 % 4 ≡ 0)) }
    ensures complete { (number : ℕ) → StartsWithWord bytes.now at number
        → result ≡ Ok (number, at + 4) }
    ensures fault { IfErr result (λ fault. NamesShort 4 bytes.now at fault) }
    ensures exact { (fault : Fault) → NamesShort 4 bytes.now at fault → result ≡ Err fault }
{
    let rest = &bytes[at as usize..];
    if rest.len() < 4 {
        return Err(Fault {
            kind: Fault::SHORT,
            at,
        });
    }
    Ok((first_word(rest), at + 4))
}

/// A word that was checked before, and the place after it.
pub fn known_word_at(bytes: &[u8], at: u32) -> (u32, u32)
    requires whole { length bytes.now % 4 ≡ 0 }
    requires aligned { at % 4 ≡ 0 }
    requires inside { at ≤ length bytes.now }
    requires known { IsTrue (is_ok (word_read bytes.now at)) }
    requires small { length bytes.now ≤ MAX_BYTES }
    ensures read { Ok result ≡ word_read bytes.now at }
    ensures next { (at < result.1) × (result.1 ≤ length bytes.now) × (result.1 % 4 ≡ 0) }
{
    (first_word(&bytes[at as usize..]), at + 4)
}

/// A time tag of 8 bytes, and the place after it (OSC 1.0, "Atomic Data Types", OSC-timetag).
pub fn tag_at(bytes: &[u8], at: u32) -> Result<(u64, u32), Fault>
    requires whole { length bytes.now % 4 ≡ 0 }
    requires aligned { at % 4 ≡ 0 }
    requires inside { at ≤ length bytes.now }
    requires small { length bytes.now ≤ MAX_BYTES }
    ensures read { result ≡ tag_read bytes.now at }
    ensures ok { IfOk result (λ x. StartsWithTag bytes.now at x.0 × (x.1 ≡ at + 8)) }
    ensures next { IfOk result (λ x. (at < x.1) × (x.1 ≤ length bytes.now) × (x.1 % 4 ≡ 0)) }
    ensures complete { (number : ℕ) → StartsWithTag bytes.now at number
        → result ≡ Ok (number, at + 8) }
    ensures fault { IfErr result (λ fault. NamesShort 8 bytes.now at fault) }
    ensures exact { (fault : Fault) → NamesShort 8 bytes.now at fault → result ≡ Err fault }
{
    let rest = &bytes[at as usize..];
    if rest.len() < 8 {
        return Err(Fault {
            kind: Fault::SHORT,
            at,
        });
    }
    Ok((first_tag(rest), at + 8))
}

/// A time tag that was checked before, and the place after it.
pub fn known_tag_at(bytes: &[u8], at: u32) -> (u64, u32)
    requires whole { length bytes.now % 4 ≡ 0 }
    requires aligned { at % 4 ≡ 0 }
    requires inside { at ≤ length bytes.now }
    requires known { IsTrue (is_ok (tag_read bytes.now at)) }
    requires small { length bytes.now ≤ MAX_BYTES }
    ensures read { Ok result ≡ tag_read bytes.now at }
    ensures next { (at < result.1) × (result.1 ≤ length bytes.now) × (result.1 % 4 ≡ 0) }
{
    (first_tag(&bytes[at as usize..]), at + 8)
}

/// The word that the bytes begin with.
fn first_word(bytes: &[u8]) -> u32
    requires { 4 ≤ length bytes.now }
    ensures { result ≡ from_be_bytes w32 (take 4 bytes.now) }
{
    u32::from_be_bytes([bytes[0], bytes[1], bytes[2], bytes[3]])
}

/// The time tag that the bytes begin with.
fn first_tag(bytes: &[u8]) -> u64
    requires { 8 ≤ length bytes.now }
    ensures { result ≡ from_be_bytes w64 (take 8 bytes.now) }
{
    u64::from_be_bytes([
        bytes[0], bytes[1], bytes[2], bytes[3], bytes[4], bytes[5], bytes[6], bytes[7],
    ])
}
