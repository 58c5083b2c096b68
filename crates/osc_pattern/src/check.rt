// The faults of a pattern, in the order in which they are tried.
ghost use Rattle.osc_pattern.specs.declared.limits.TheConstants.{MAX_PATTERN};
ghost use Rattle.std.specs.Prelude.{◌≡◌, ◌≤◌, ◌<◌, length, position, IfSome};
ghost use Rattle.std.specs.Prelude.{IsTrue, false, ◌==◌, nat_lt};
ghost use Rattle.std.specs.List.{list_any, slice_split};
ghost use Rattle.std.specs.Result.{result_err};
ghost use Rattle.osc_pattern.specs.Items.{is_slash};
ghost use Rattle.osc_pattern.specs.Reading.{read_part};
ghost use Rattle.osc_pattern.specs.Patterns.{is_outside, open_place, fault_after, parts_of};
ghost use Rattle.osc_pattern.specs.Patterns.{pattern_fault};
ghost use Rattle.osc_pattern.specs.Bare.{is_odd};

use crate::cut::first_piece;
use crate::faults::PatternFault;
use crate::item::first_item;
use std::simd::prelude::*;

/// The first fault of a pattern.
#[inline(always)]
pub(crate) fn first_fault(bytes: &[u8]) -> Option<PatternFault>
    requires { length bytes.now ≤ MAX_PATTERN }
    ensures { result ≡ pattern_fault bytes.now }
{
    let [b'/', parts @ ..] = bytes else {
        return Some(PatternFault {
            kind: PatternFault::START,
            at: 0,
        });
    };
    if is_bare(bytes) {
        return None;
    }
    look_for_fault(bytes, parts)
}

/// The first byte that no pattern has, or else the first bracket that isn't closed.
#[inline(never)]
fn look_for_fault(bytes: &[u8], parts: &[u8]) -> Option<PatternFault>
    requires small { length bytes.now ≤ MAX_PATTERN }
    requires parts { slice_split is_slash parts.now ≡ parts_of bytes.now }
    requires fewer { length parts.now ≤ length bytes.now }
    ensures { result
        ≡ fault_after (position is_outside bytes.now) (open_place (parts_of bytes.now)) }
{
    if let Some(at) = first_outside(bytes) {
        return Some(PatternFault {
            kind: PatternFault::BYTE,
            at: at as u32,
        });
    }
    match first_open(parts) {
        Some(at) => Some(PatternFault {
            kind: PatternFault::OPEN,
            at: at as u32,
        }),
        None => None,
    }
}

/// Whether the bytes are some 4 to 16 that have no fault: none is out of range, and none opens a
/// bracket. They are looked at all at once, as the first of them and the last of them, which
/// overlap.
#[inline(always)]
fn is_bare(bytes: &[u8]) -> bool
    ensures { IsTrue result → list_any is_odd bytes.now ≡ false }
{
    let len = bytes.len();
    if len < 4 || len > 16 {
        false
    } else if len < 8 {
        are_bare_4(bytes)
    } else {
        are_bare_8(bytes)
    }
}

#[inline(always)]
fn are_bare_4(bytes: &[u8]) -> bool
    requires some { 4 ≤ length bytes.now }
    requires few { length bytes.now ≤ 8 }
    ensures { IsTrue result → list_any is_odd bytes.now ≡ false }
{
    let first = u8x4::from_slice(bytes);
    let last = u8x4::from_slice(&bytes[bytes.len() - 4..]);
    let both: u8x8 = first.shuffle(last, [0, 1, 2, 3, 4, 5, 6, 7]);
    let lanes: u8x16 = both.shuffle(both, [0, 1, 2, 3, 4, 5, 6, 7, 8, 9, 10, 11, 12, 13, 14, 15]);
    are_even(lanes)
}

#[inline(always)]
fn are_bare_8(bytes: &[u8]) -> bool
    requires some { 8 ≤ length bytes.now }
    requires few { length bytes.now ≤ 16 }
    ensures { IsTrue result → list_any is_odd bytes.now ≡ false }
{
    let first = u8x8::from_slice(bytes);
    let last = u8x8::from_slice(&bytes[bytes.len() - 8..]);
    let lanes: u8x16 = first.shuffle(last, [0, 1, 2, 3, 4, 5, 6, 7, 8, 9, 10, 11, 12, 13, 14, 15]);
    are_even(lanes)
}

/// Whether no byte is out of range, and none opens a bracket.
#[inline(always)]
fn are_even(lanes: u8x16) -> bool
    ensures { IsTrue result → list_any is_odd lanes ≡ false }
{
    if any_below(lanes) {
        return false;
    }
    if any_above(lanes) {
        return false;
    }
    if any_is(lanes, b'[') {
        return false;
    }
    if any_is(lanes, b'{') {
        return false;
    }
    true
}

#[inline(always)]
fn any_below(lanes: u8x16) -> bool
    ensures { result ≡ false → list_any (λ byte. nat_lt byte 32) lanes ≡ false }
{
    lanes.simd_lt(u8x16::splat(0x20)).to_bitmask() != 0
}

#[inline(always)]
fn any_above(lanes: u8x16) -> bool
    ensures { result ≡ false → list_any (λ byte. nat_lt 126 byte) lanes ≡ false }
{
    lanes.simd_gt(u8x16::splat(0x7e)).to_bitmask() != 0
}

#[inline(always)]
fn any_is(lanes: u8x16, own: u8) -> bool
    ensures { result ≡ false → list_any (λ byte. byte == own) lanes ≡ false }
{
    lanes.simd_eq(u8x16::splat(own)).to_bitmask() != 0
}

/// The place of the first byte that no pattern has.
fn first_outside(bytes: &[u8]) -> Option<usize>
    ensures value { result ≡ position is_outside bytes.now }
    ensures within { IfSome result (λ at. at < length bytes.now) }
{
    bytes.iter().position(|byte| is_outside(*byte))
}

fn is_outside(byte: u8) -> bool
    ensures { result ≡ is_outside byte }
{
    !(0x20 <= byte && byte <= 0x7e)
}

/// The place of the first bracket that isn't closed, counted from the slash before the first part.
fn first_open(parts: &[u8]) -> Option<usize>
    requires { length parts.now ≤ MAX_PATTERN }
    ensures value { result ≡ open_place (slice_split is_slash parts.now) }
    ensures within { IfSome result (λ at. at ≤ length parts.now) }
{
    let mut rest = parts;
    let mut slash = 0;
    loop {
        let (part, others) = first_piece(rest, b'/');
        if let Some(at) = first_open_in(part) {
            return Some(slash + (1 + at));
        }
        match others {
            Some(others) => {
                slash += part.len() + 1;
                rest = others;
            }
            None => return None,
        }
    }
}

/// The place of the first bracket of a part that isn't closed.
fn first_open_in(part: &[u8]) -> Option<usize>
    ensures value { result ≡ result_err (read_part part.now) }
    ensures within { IfSome result (λ at. at < length part.now) }
{
    let mut rest = part;
    while !rest.is_empty() {
        match first_item(rest) {
            Some((_, after)) => rest = after,
            None => return Some(part.len() - rest.len()),
        }
    }
    None
}
