// Entries, read from the messages that they are.
ghost use Rattle.osc_model.specs.Limits.{max_recording};
ghost use Rattle.std.specs.Prelude.{◌≡◌, ◌==◌, ◌↔◌, ◌+◌, ◌≤◌, ◌%◌, length, take, drop, option_map};
ghost use Rattle.std.specs.Prelude.{IsTrue, IfSome, false};
ghost use Rattle.std.specs.Int.{w32, from_be_bytes};
ghost use Rattle.std.specs.List.{starts_with};
ghost use Rattle.osc_message.specs.Left.{left};
ghost use Rattle.osc_record.specs.declared.entry_messages.TheConstants.{RELEASE};
ghost use Rattle.osc_record.specs.Fields.{submit_at, release_at};
ghost use Rattle.osc_record.specs.Reading.{enrol_read, add_read, remove_read, tick_read, entry_of};
ghost use Rattle.osc_record.specs.Versions.{submit_front_in};
ghost use Rattle.osc_record.specs.Shown.{parts_of, HasWholeHits};

use crate::answers::{
    add_answer, enrol_answer, release_answer, remove_answer, submit_answer, tick_answer,
};
use crate::arguments::{next_int, next_signed, next_text, next_time};
use crate::event::Event;
use crate::fields::{content_at, int_at, later_at, long_at};
use crate::parts::Parts;
use crate::version::Version;
use osc_message::Args;

/// What the message of each event begins with: its address, and the tags of its arguments.
const ENROL: [u8; 16] = *b"/osc/enrol\0\0,ii\0";

pub(crate) const SUBMIT: [u8; 20] = *b"/osc/submit\0,ibihii\0";

const OLD_SUBMIT: [u8; 20] = *b"/osc/submit\0,ibihi\0\0";

pub(crate) const ADD: [u8; 20] = *b"/osc/add\0\0\0\0,isiii\0\0";

pub(crate) const REMOVE: [u8; 20] = *b"/osc/remove\0,isii\0\0\0";

const TICK: [u8; 20] = *b"/osc/tick\0\0\0,itit\0\0\0";

pub(crate) const RELEASE: [u8; 24] = *b"/osc/release\0\0\0\0,ihb\0\0\0\0";

/// The entry that the message is.
#[inline(always)]
pub(crate) fn read_message(version: Version, bytes: &[u8]) -> Option<Parts<'_>>
    requires fours { length bytes.now % 4 ≡ 0 }
    requires small { length bytes.now ≤ max_recording }
    ensures value { option_map parts_of result ≡ entry_of version bytes.now }
    ensures whole { IfSome result (λ parts. HasWholeHits parts.answer) }
{
    // Most entries are submits and releases.
    if begins_submit(version, bytes) {
        read_submit(version, bytes)
    } else if begins_release(bytes) {
        read_release(bytes)
    } else {
        read_other(version, bytes)
    }
}

/// Whether the message begins as one of a submit.
#[inline(always)]
fn begins_submit(version: Version, bytes: &[u8]) -> bool
    ensures value { result ≡ starts_with ◌==◌ bytes.now (submit_front_in version) }
    ensures inside { IsTrue result → 20 ≤ length bytes.now }
{
    match version {
        Version::First => begins(bytes, &OLD_SUBMIT),
        Version::Second => begins(bytes, &SUBMIT),
    }
}

/// Whether the message begins as one of a release.
#[inline(always)]
fn begins_release(bytes: &[u8]) -> bool
    ensures value { result ≡ starts_with ◌==◌ bytes.now RELEASE }
    ensures inside { IsTrue result → 24 ≤ length bytes.now }
{
    begins(bytes, &RELEASE)
}

/// Whether the bytes begin with these, compared four at a time.
#[inline(always)]
fn begins<const N: usize>(bytes: &[u8], front: &[u8; N]) -> bool
    requires fours { N % 4 ≡ 0 }
    ensures value { result ≡ starts_with ◌==◌ bytes.now front.now }
    ensures inside { IsTrue result → N ≤ length bytes.now }
{
    if bytes.len() < N {
        return false;
    }
    let mut at = 0;
    while at < N {
        if !same_four(bytes, front, at) {
            return false;
        }
        at += 4;
    }
    true
}

/// Whether the four bytes at `at` are the same, compared as numbers.
#[inline(always)]
fn same_four(bytes: &[u8], front: &[u8], at: usize) -> bool
    requires bytes { at + 4 ≤ length bytes.now }
    requires front { at + 4 ≤ length front.now }
    ensures { IsTrue result ↔ (take 4 (drop at bytes.now) ≡ take 4 (drop at front.now)) }
{
    four_at(bytes, at) == four_at(front, at)
}

/// The four bytes at `at`, as a number.
#[inline(always)]
fn four_at(bytes: &[u8], at: usize) -> u32
    requires { at + 4 ≤ length bytes.now }
    ensures { result ≡ from_be_bytes w32 (take 4 (drop at bytes.now)) }
{
    let four = &bytes[at..];
    u32::from_be_bytes([four[0], four[1], four[2], four[3]])
}

/// The entry that the message is, which is neither a submit nor a release.
#[inline(never)]
fn read_other(version: Version, bytes: &[u8]) -> Option<Parts<'_>>
    requires fours { length bytes.now % 4 ≡ 0 }
    requires small { length bytes.now ≤ max_recording }
    requires no_submit { starts_with ◌==◌ bytes.now (submit_front_in version) ≡ false }
    requires no_release { starts_with ◌==◌ bytes.now RELEASE ≡ false }
    ensures value { option_map parts_of result ≡ entry_of version bytes.now }
    ensures whole { IfSome result (λ parts. HasWholeHits parts.answer) }
{
    if bytes.starts_with(&TICK) {
        read_tick(Args::read(b"itit", bytes, 20)?)
    } else if bytes.starts_with(&ADD) {
        read_add(Args::read(b"isiii", bytes, 20)?)
    } else if bytes.starts_with(&REMOVE) {
        read_remove(Args::read(b"isii", bytes, 20)?)
    } else if bytes.starts_with(&ENROL) {
        read_enrol(Args::read(b"ii", bytes, 16)?)
    } else {
        None
    }
}

fn read_enrol<'a>(mut args: Args<'a>) -> Option<Parts<'a>>
    ensures value { option_map parts_of result ≡ enrol_read (left args.entry) }
    ensures whole { IfSome result (λ parts. HasWholeHits parts.answer) }
{
    let caller = next_int(&mut args)?;
    let number = next_signed(&mut args)?;
    if args.next().is_some() {
        return None;
    }
    let answer = enrol_answer(number)?;
    Some(Parts {
        caller,
        event: Event::Enrol,
        answer,
    })
}

#[inline(always)]
fn read_submit(version: Version, bytes: &[u8]) -> Option<Parts<'_>>
    requires fours { length bytes.now % 4 ≡ 0 }
    requires inside { 20 ≤ length bytes.now }
    requires small { length bytes.now ≤ max_recording }
    ensures value { option_map parts_of result ≡ submit_at version bytes.now 20 }
    ensures whole { IfSome result (λ parts. HasWholeHits parts.answer) }
{
    let (caller, at) = int_at(bytes, 20)?;
    let (packet, at) = content_at(bytes, at)?;
    let (code, at) = int_at(bytes, at)?;
    let (first, at) = long_at(bytes, at)?;
    let (second, at) = int_at(bytes, at)?;
    let (third, at) = later_at(version, bytes, at)?;
    if at as usize != bytes.len() {
        return None;
    }
    let answer = submit_answer(code, first, second, third)?;
    Some(Parts {
        caller,
        event: Event::Submit(packet),
        answer,
    })
}

fn read_add<'a>(mut args: Args<'a>) -> Option<Parts<'a>>
    ensures value { option_map parts_of result ≡ add_read (left args.entry) }
    ensures whole { IfSome result (λ parts. HasWholeHits parts.answer) }
{
    let caller = next_int(&mut args)?;
    let address = next_text(&mut args)?;
    let code = next_int(&mut args)?;
    let first = next_int(&mut args)?;
    let second = next_int(&mut args)?;
    if args.next().is_some() {
        return None;
    }
    let answer = add_answer(code, first, second)?;
    Some(Parts {
        caller,
        event: Event::Add(address),
        answer,
    })
}

fn read_remove<'a>(mut args: Args<'a>) -> Option<Parts<'a>>
    ensures value { option_map parts_of result ≡ remove_read (left args.entry) }
    ensures whole { IfSome result (λ parts. HasWholeHits parts.answer) }
{
    let caller = next_int(&mut args)?;
    let address = next_text(&mut args)?;
    let code = next_int(&mut args)?;
    let id = next_int(&mut args)?;
    if args.next().is_some() {
        return None;
    }
    let answer = remove_answer(code, id)?;
    Some(Parts {
        caller,
        event: Event::Remove(address),
        answer,
    })
}

fn read_tick<'a>(mut args: Args<'a>) -> Option<Parts<'a>>
    ensures value { option_map parts_of result ≡ tick_read (left args.entry) }
    ensures whole { IfSome result (λ parts. HasWholeHits parts.answer) }
{
    let caller = next_int(&mut args)?;
    let moment = next_time(&mut args)?;
    let code = next_int(&mut args)?;
    let clock = next_time(&mut args)?;
    if args.next().is_some() {
        return None;
    }
    let answer = tick_answer(moment, code, clock)?;
    Some(Parts {
        caller,
        event: Event::Tick(moment),
        answer,
    })
}

#[inline(always)]
fn read_release(bytes: &[u8]) -> Option<Parts<'_>>
    requires fours { length bytes.now % 4 ≡ 0 }
    requires inside { 24 ≤ length bytes.now }
    requires small { length bytes.now ≤ max_recording }
    ensures value { option_map parts_of result ≡ release_at bytes.now 24 }
    ensures whole { IfSome result (λ parts. HasWholeHits parts.answer) }
{
    let (caller, at) = int_at(bytes, 24)?;
    let (unit, at) = long_at(bytes, at)?;
    let (hits, at) = content_at(bytes, at)?;
    if at as usize != bytes.len() {
        return None;
    }
    let answer = release_answer(unit, hits)?;
    Some(Parts {
        caller,
        event: Event::Release,
        answer,
    })
}
