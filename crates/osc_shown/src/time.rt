//! Moments, as a wall clock shows them.
ghost use Rattle.std.specs.Prelude.{◌≡◌, ◌<◌, ◌^◌, ◌++◌, OnOk, IfOk};
ghost use Rattle.osc_shown.specs.Times.{millis_of, shown_millis, day_of, clock_text, time_text};
ghost use Rattle.osc_shown.specs.Times.{span_text, seconds_text, bare_seconds, is_other_day};

use crate::WallClock;
use crate::bytes::add;
use crate::number::{add_decimal, add_three, add_two};
use std::alloc::{AllocError, Global};

/// Adds the time of day, as `20:15:03.300`.
pub(crate) fn add_time(out: &mut Vec<u8>, clock: WallClock, moment: u64) -> Result<(), AllocError>
    ensures { OnOk result (out.new.items ≡ out.old.items ++ time_text clock moment) }
{
    let millis = shown_millis(clock, moment);
    add_clock(out, millis / 1000)?;
    add(out, b".")?;
    add_three(out, millis)
}

/// Adds the hours, minutes and seconds of a day.
fn add_clock(out: &mut Vec<u8>, seconds: u64) -> Result<(), AllocError>
    ensures { OnOk result (out.new.items ≡ out.old.items ++ clock_text seconds) }
{
    add_two(out, seconds / 3600 % 24)?;
    add(out, b":")?;
    add_two(out, seconds / 60 % 60)?;
    add(out, b":")?;
    add_two(out, seconds % 60)
}

/// Adds how many seconds it is from one moment to a later one, as `1.120 s`.
pub(crate) fn add_span(out: &mut Vec<u8>, from: u64, to: u64) -> Result<(), AllocError>
    ensures { OnOk result (out.new.items ≡ out.old.items ++ span_text from to) }
{
    add_seconds(out, millis_of(to).saturating_sub(millis_of(from)))
}

pub(crate) fn add_seconds(out: &mut Vec<u8>, millis: u64) -> Result<(), AllocError>
    ensures { OnOk result (out.new.items ≡ out.old.items ++ seconds_text millis) }
{
    add_decimal(out, millis / 1000)?;
    add(out, b".")?;
    add_three(out, millis)?;
    add(out, b" s")
}

/// Adds milliseconds as seconds, as `1.120`.
pub(crate) fn add_bare_seconds(out: &mut Vec<u8>, millis: u64) -> Result<(), AllocError>
    ensures { OnOk result (out.new.items ≡ out.old.items ++ bare_seconds millis) }
{
    add_decimal(out, millis / 1000)?;
    add(out, b".")?;
    add_three(out, millis)
}

/// Whether a moment falls on another day than the one from which it is seen.
pub(crate) fn is_other_day(clock: WallClock, moment: Option<u64>, tag: u64) -> bool
    ensures { result ≡ is_other_day clock moment tag }
{
    match moment {
        Some(moment) => day_of(clock, moment) != day_of(clock, tag),
        None => false,
    }
}

/// The day, counted from 1899-12-30.
pub(crate) fn day_of(clock: WallClock, moment: u64) -> u64
    ensures day { result ≡ day_of clock moment }
    ensures small { result < 2 ^ 20 }
{
    shown_millis(clock, moment) / 86_400_000
}

#[tactic(auto, unfolding(crate::specs::Times::shown_millis))]
fn shown_millis(clock: WallClock, moment: u64) -> u64
    ensures value { result ≡ shown_millis clock moment }
    ensures small { result < 2 ^ 44 }
{
    millis_of(moment) + u64::from(clock.ahead) * 1000
}

#[tactic(auto, unfolding(crate::specs::Times::millis_of))]
/// The milliseconds since the start of 1900, to the nearest.
pub fn millis_of(moment: u64) -> u64
    ensures value { result ≡ millis_of moment }
    ensures small { result < 2 ^ 43 }
{
    ((u128::from(moment) * 1000 + 0x8000_0000) / 0x1_0000_0000) as u64
}

/// The time of day of a moment, as `20:15:03.300`. An `Err` means out of memory.
pub fn time_words(alloc: Global, clock: WallClock, moment: u64) -> Result<Vec<u8>, AllocError>
    ensures { IfOk result (λ words. words.items ≡ time_text clock moment) }
{
    let mut words = Vec::new(alloc);
    add_time(&mut words, clock, moment)?;
    Ok(words)
}

/// The day on which a moment falls, counted from 1899-12-30.
pub fn day_number(clock: WallClock, moment: u64) -> u64
    ensures { result ≡ day_of clock moment }
{
    day_of(clock, moment)
}
