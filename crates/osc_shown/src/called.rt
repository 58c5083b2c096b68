//! Where a message went.
ghost use Rattle.std.specs.Prelude.{◌≡◌, ◌++◌, OnOk, IfOk, take};
ghost use Rattle.std.specs.List.{flat_map};
ghost use Rattle.osc_message.specs.Arguments.{unknown_of};
ghost use Rattle.osc_shown.specs.Called.{called, called_by, after_comma, listing, others_listed};
ghost use Rattle.osc_shown.specs.Called.{late_part, IsQueuedTail};
ghost use Rattle.osc_shown.specs.Tails.{called_mark, joined, late_words};

use crate::bytes::add;
use crate::day::add_dated;
use crate::destination::{MOST_LISTED, add_unlisted};
use crate::place::Place;
use crate::tail::{add_comma, add_late, add_unknown, called_mark as mark_of};
use crate::{Look, WallClock};
use osc_message::Message;
use std::alloc::{AllocError, Global};

/// The mark of a message that called so many methods: `?` where it called none.
pub fn called_mark(message: &Message<'_>, count: usize) -> u8
    ensures { result ≡ called_mark (unknown_of message.now) count }
{
    mark_of(message.unknown(), count)
}

/// The tail of a message that called the methods at these places, of a unit that came late for this
/// time tag, if it did. An `Err` means out of memory.
pub fn called_tail(
    alloc: Global,
    look: Look,
    moment: Option<u64>,
    late: Option<u64>,
    message: &Message<'_>,
    places: &[Place<'_>],
) -> Result<Vec<u8>, AllocError>
    ensures { IfOk result (λ tail. tail.items
        ≡ joined (called_by look.whole (unknown_of message.now) message.now places.now)
        (late_part moment late)) }
{
    let mut tail = Vec::new(alloc);
    add_called_by(&mut tail, look.whole, message.unknown(), message, places)?;
    add_late_part(&mut tail, moment, late)?;
    Ok(tail)
}

/// The tail of a unit that has no message, as `called_tail`.
pub fn late_tail(
    alloc: Global,
    moment: Option<u64>,
    late: Option<u64>,
) -> Result<Vec<u8>, AllocError>
    ensures { IfOk result (λ tail. tail.items ≡ late_part moment late) }
{
    let mut tail = Vec::new(alloc);
    add_late_part(&mut tail, moment, late)?;
    Ok(tail)
}

fn add_called_by(
    out: &mut Vec<u8>,
    whole: bool,
    unknown: Option<u8>,
    message: &Message<'_>,
    places: &[Place<'_>],
) -> Result<(), AllocError>
    ensures { OnOk result (out.new.items
        ≡ out.old.items ++ called_by whole unknown message.now places.now) }
{
    match unknown {
        Some(tag) => add_unknown(out, tag),
        None => add_called(out, whole, message.pattern().bytes(), places),
    }
}

fn add_called(
    out: &mut Vec<u8>,
    whole: bool,
    pattern: &[u8],
    places: &[Place<'_>],
) -> Result<(), AllocError>
    ensures { OnOk result (out.new.items ≡ out.old.items ++ called whole pattern.now places.now) }
{
    match places.split_first() {
        None => add(out, b"no method"),
        Some((first, more)) if more.is_empty() && first.bytes() == pattern => Ok(()),
        Some((first, more)) => add_listing(out, whole, first.bytes(), more),
    }
}

/// Adds an arrow and the places: all, or the first four and how many more there are.
fn add_listing(
    out: &mut Vec<u8>,
    whole: bool,
    first: &[u8],
    more: &[Place<'_>],
) -> Result<(), AllocError>
    ensures { OnOk result (out.new.items ≡ out.old.items ++ listing whole first.now more.now) }
{
    add(out, b"-> ")?;
    add(out, first)?;
    add_others_listed(out, whole, more)
}

/// Adds the places after the first.
fn add_others_listed(out: &mut Vec<u8>, whole: bool, more: &[Place<'_>]) -> Result<(), AllocError>
    ensures { OnOk result (out.new.items ≡ out.old.items ++ others_listed whole more.now) }
{
    if whole {
        return add_others(out, more);
    }
    add_others(out, front_places(more))?;
    add_unlisted(out, more.len())
}

/// The first three.
fn front_places<'a, 'b>(places: &'a [Place<'b>]) -> &'a [Place<'b>]
    ensures { result.now ≡ take 3 places.now }
{
    &places[..(MOST_LISTED - 1).min(places.len())]
}

/// Adds a comma and the address of each.
fn add_others(out: &mut Vec<u8>, places: &[Place<'_>]) -> Result<(), AllocError>
    ensures { OnOk result (out.new.items ≡ out.old.items ++ flat_map after_comma places.now) }
{
    for place in places {
        add_other(out, place.bytes())?;
    }
    Ok(())
}

fn add_other(out: &mut Vec<u8>, address: &[u8]) -> Result<(), AllocError>
    ensures { OnOk result (out.new.items ≡ out.old.items ++ after_comma address.now) }
{
    add(out, b", ")?;
    add(out, address)
}

fn add_late_part(
    out: &mut Vec<u8>,
    moment: Option<u64>,
    late: Option<u64>,
) -> Result<(), AllocError>
    ensures { OnOk result (out.new.items ≡ joined out.old.items (late_part moment late)) }
{
    match late {
        Some(tag) => add_late_after(out, moment, tag),
        None => Ok(()),
    }
}

fn add_late_after(out: &mut Vec<u8>, moment: Option<u64>, tag: u64) -> Result<(), AllocError>
    ensures { OnOk result (out.new.items
        ≡ joined out.old.items (late_words moment tag)) }
{
    add_comma(out)?;
    add_late(out, moment, tag)
}

/// The tail of a message that isn't called yet, of a unit that is due from a moment on, seen from
/// the moment at which the clock stands. An `Err` means out of memory.
pub fn queued_tail(
    alloc: Global,
    clock: WallClock,
    moment: Option<u64>,
    due: u64,
    is_due: bool,
) -> Result<Vec<u8>, AllocError>
    ensures { IfOk result (λ tail. IsQueuedTail clock moment due is_due tail.items) }
{
    let mut tail = Vec::new(alloc);
    if is_due {
        add(&mut tail, b"not called yet")?;
        return Ok(tail);
    }
    add(&mut tail, b"still waits, for ")?;
    add_dated(&mut tail, clock, moment, due)?;
    Ok(tail)
}
