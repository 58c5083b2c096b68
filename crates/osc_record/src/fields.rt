// The arguments of a row whose tags are known, each at its place.
ghost use Rattle.osc_model.specs.Limits.{max_recording};
ghost use Rattle.std.specs.Prelude.{◌≡◌, ◌%◌, ◌≤◌, length, option_map, IfSome};
ghost use Rattle.osc_record.specs.Fields.{int_at, later_at, long_at, content_at};

use crate::arguments::{long_natural, natural};
use crate::version::Version;
use osc_atoms::{blob_at, tag_at, word_at};

/// The number in four bytes at `at`, where it isn't negative, and the place after it.
#[inline(always)]
pub(crate) fn int_at(bytes: &[u8], at: u32) -> Option<(u32, u32)>
    requires fours { length bytes.now % 4 ≡ 0 }
    requires aligned { at % 4 ≡ 0 }
    requires inside { at ≤ length bytes.now }
    requires small { length bytes.now ≤ max_recording }
    ensures value { result ≡ int_at bytes.now at }
    ensures next { IfSome result (λ x. (x.1 % 4 ≡ 0) × (x.1 ≤ length bytes.now)) }
{
    let (word, next) = word_at(bytes, at).ok()?;
    let number = natural(word.cast_signed())?;
    Some((number, next))
}

/// Where the version has one more number, which is 0 in the first and takes no bytes there.
#[inline(always)]
pub(crate) fn later_at(version: Version, bytes: &[u8], at: u32) -> Option<(u32, u32)>
    requires fours { length bytes.now % 4 ≡ 0 }
    requires aligned { at % 4 ≡ 0 }
    requires inside { at ≤ length bytes.now }
    requires small { length bytes.now ≤ max_recording }
    ensures value { result ≡ later_at version bytes.now at }
    ensures next { IfSome result (λ x. (x.1 % 4 ≡ 0) × (x.1 ≤ length bytes.now)) }
{
    match version {
        Version::First => Some((0, at)),
        Version::Second => int_at(bytes, at),
    }
}

/// The number in eight bytes at `at`, where it isn't negative, and the place after it.
#[inline(always)]
pub(crate) fn long_at(bytes: &[u8], at: u32) -> Option<(u64, u32)>
    requires fours { length bytes.now % 4 ≡ 0 }
    requires aligned { at % 4 ≡ 0 }
    requires inside { at ≤ length bytes.now }
    requires small { length bytes.now ≤ max_recording }
    ensures value { result ≡ long_at bytes.now at }
    ensures next { IfSome result (λ x. (x.1 % 4 ≡ 0) × (x.1 ≤ length bytes.now)) }
{
    let (word, next) = tag_at(bytes, at).ok()?;
    let number = long_natural(word.cast_signed())?;
    Some((number, next))
}

/// The bytes of the blob at `at`, and the place after its padding.
#[inline(always)]
pub(crate) fn content_at(bytes: &[u8], at: u32) -> Option<(&[u8], u32)>
    requires fours { length bytes.now % 4 ≡ 0 }
    requires aligned { at % 4 ≡ 0 }
    requires inside { at ≤ length bytes.now }
    requires small { length bytes.now ≤ max_recording }
    ensures value { option_map (λ x. (x.0.now, x.1)) result ≡ content_at bytes.now at }
    ensures next { IfSome result (λ x. (x.1 % 4 ≡ 0) × (x.1 ≤ length bytes.now)) }
{
    blob_at(bytes, at).ok()
}
