//! Strings, read.
ghost use Rattle.osc_atoms.specs.declared.limits.TheConstants.{MAX_BYTES};
ghost use Rattle.std.specs.Prelude.{◌≡◌, ◌+◌, ◌%◌, ◌<◌, ◌≤◌, ℕ, List, length, position, IfOk};
ghost use Rattle.std.specs.Prelude.{IfErr, IsOkAnd, IsTrue, is_ok, Ok, take};
ghost use Rattle.std.specs.List.{position_or_len};
ghost use Rattle.std.specs.Result.{result_map_both};
ghost use Rattle.osc_atoms.specs.declared.fault.Fault.{Fault};
ghost use Rattle.osc_atoms.specs.Atoms.{string};
ghost use Rattle.osc_atoms.specs.Reading.{string_read, is_zero};
ghost use Rattle.osc_atoms.specs.Standing.{StartsWithString, NamesStringFault};

use crate::fault::Fault;
use crate::padding::{skip_padding, string_end};
use std::simd::prelude::*;

/// The bytes of a string before its end, and the place after it (OSC 1.0, "Atomic Data Types", OSC-string).
#[inline(always)]
pub fn string_at(bytes: &[u8], at: u32) -> Result<(&[u8], u32), Fault>
    requires whole { length bytes.now % 4 ≡ 0 }
    requires aligned { at % 4 ≡ 0 }
    requires inside { at ≤ length bytes.now }
    requires small { length bytes.now ≤ MAX_BYTES }
    ensures read { result_map_both (λ x. (x.0.now, x.1)) (λ fault. fault) result
        ≡ string_read bytes.now at }
    ensures ok { IfOk result
        (λ x. StartsWithString bytes.now at x.0.now × (x.1 ≡ at + length (string x.0.now))) }
    ensures next { IfOk result (λ x. (at < x.1) × (x.1 ≤ length bytes.now) × (x.1 % 4 ≡ 0)) }
    ensures complete { (text : List ℕ) → StartsWithString bytes.now at text
        → IsOkAnd result (λ x. (x.0.now ≡ text) × (x.1 ≡ at + length (string text))) }
    // A missing end goes before a bad padding byte.
    ensures fault { IfErr result (λ fault. NamesStringFault bytes.now at fault) }
    ensures exact { (fault : Fault) → NamesStringFault bytes.now at fault → result ≡ Err fault }
{
    read_string(bytes, at)
}

/// The bytes of a string that was checked before, and the place after it. Looks for its end and at no padding.
pub fn known_string_at(bytes: &[u8], at: u32) -> (&[u8], u32)
    requires whole { length bytes.now % 4 ≡ 0 }
    requires aligned { at % 4 ≡ 0 }
    requires known { IsTrue (is_ok (string_read bytes.now at)) }
    requires inside { at ≤ length bytes.now }
    requires small { length bytes.now ≤ MAX_BYTES }
    ensures read { Ok (result.0.now, result.1) ≡ string_read bytes.now at }
    ensures next { (at < result.1) × (result.1 ≤ length bytes.now) × (result.1 % 4 ≡ 0) }
{
    let rest = &bytes[at as usize..];
    let Some(size) = first_zero(rest) else {
        unreachable!();
    };
    (&rest[..size], at + (size + string_end(size)) as u32)
}

#[inline(always)]
fn read_string(bytes: &[u8], at: u32) -> Result<(&[u8], u32), Fault>
    requires whole { length bytes.now % 4 ≡ 0 }
    requires aligned { at % 4 ≡ 0 }
    requires inside { at ≤ length bytes.now }
    requires small { length bytes.now ≤ MAX_BYTES }
    ensures { result_map_both (λ x. (x.0.now, x.1)) (λ fault. fault) result
        ≡ string_read bytes.now at }
{
    let rest = &bytes[at as usize..];
    let Some(size) = first_zero(rest) else {
        return Err(Fault {
            kind: Fault::UNTERMINATED,
            at,
        });
    };
    let next = skip_padding(bytes, at + size as u32, string_end(size) as u32)?;
    Ok((&rest[..size], next))
}

/// The place of the first zero byte. The first 16 or 8 bytes, where there are as many, are looked at all at once: most
/// strings end among them.
fn first_zero(bytes: &[u8]) -> Option<usize>
    ensures { result ≡ position is_zero bytes.now }
{
    if bytes.len() >= 16 {
        let before = before_zero_16(bytes);
        if before < 16 {
            return Some(before);
        }
    } else if bytes.len() >= 8 {
        let before = before_zero_8(bytes);
        if before < 8 {
            return Some(before);
        }
    }
    scan_zero(bytes)
}

fn scan_zero(bytes: &[u8]) -> Option<usize>
    ensures { result ≡ position is_zero bytes.now }
{
    bytes.iter().position(|byte| *byte == 0)
}

/// How many of the first 16 bytes stand before the first zero byte.
#[inline(always)]
fn before_zero_16(bytes: &[u8]) -> usize
    requires { 16 ≤ length bytes.now }
    ensures { result ≡ position_or_len is_zero (take 16 bytes.now) }
{
    let zeros = u8x16::from_slice(bytes)
        .simd_eq(u8x16::splat(0))
        .to_bitmask();
    if zeros == 0 {
        return 16;
    }
    zeros.trailing_zeros() as usize
}

/// How many of the first 8 bytes stand before the first zero byte.
#[inline(always)]
fn before_zero_8(bytes: &[u8]) -> usize
    requires { 8 ≤ length bytes.now }
    ensures { result ≡ position_or_len is_zero (take 8 bytes.now) }
{
    let zeros = u8x8::from_slice(bytes).simd_eq(u8x8::splat(0)).to_bitmask();
    if zeros == 0 {
        return 8;
    }
    zeros.trailing_zeros() as usize
}
