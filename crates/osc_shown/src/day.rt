//! The line before the first of a day, and dates.
ghost use Rattle.std.specs.Prelude.{◌≡◌, ◌<◌, ◌^◌, ◌++◌, ◌-ℤ◌, ◌%◌, pos, OnOk, OnErr, codes};
ghost use Rattle.jiff_core.specs.Date.{epoch_day};
ghost use Rattle.jiff_fmt.specs.Text.{date_text};
ghost use Rattle.osc_shown.specs.Columns.{ended as end_of};
ghost use Rattle.osc_shown.specs.Days.{AddsDay};
ghost use Rattle.osc_shown.specs.Times.{AddsDate, AddsDated, weekday_text, hours_text};
ghost use Rattle.osc_shown.specs.Times.{zone_text, day_of as days_to};

use crate::bytes::add;
use crate::columns::{begun, ended};
use crate::number::add_two;
use crate::time::{add_time, day_of, is_other_day};
use crate::{Look, WallClock};
use jiff_core::civil::Date;
use jiff_fmt::temporal::DateTimePrinter;
use std::alloc::{AllocError, Global};

/// How many days lie between 1899-12-30 and 1970-01-01.
const DAYS_TO_1970: i64 = 25_569;

/// How many seconds lie between the starts of 1899-12-30 and of 1900.
const TWO_DAYS: u64 = 172_800;

/// Adds the line that stands before the first line of a day: the weekday, the date, and how far the
/// clock is ahead of UTC, in whole minutes. It is shown whatever is left out. An `Err` means out of
/// memory.
pub fn day_line(text: &mut Vec<u8>, look: Look, moment: u64) -> Result<(), AllocError>
    ensures ok { OnOk result (AddsDay look moment text.old.items text.new.items) }
    ensures err { OnErr result (text.new.items ≡ text.old.items) }
{
    let alloc: Global = *text.allocator();
    let mut line = Vec::new(alloc);
    add(&mut line, begun(look.colours, b'~'))?;
    add_weekday(&mut line, day_of(look.clock, moment))?;
    add_date(&mut line, look.clock, moment)?;
    add_zone(&mut line, look.clock)?;
    add_end(&mut line, look.colours)?;
    text.extend_from_slice(&line)
}

/// Adds the end of the colour and of the line.
fn add_end(out: &mut Vec<u8>, colours: bool) -> Result<(), AllocError>
    ensures { OnOk result (out.new.items ≡ out.old.items ++ (end_of colours 126 ++ codes "\n")) }
{
    add(out, ended(colours, b'~'))?;
    add(out, b"\n")
}

/// Adds two dashes, the weekday, and spaces around it.
fn add_weekday(out: &mut Vec<u8>, day: u64) -> Result<(), AllocError>
    ensures { OnOk result (out.new.items
        ≡ out.old.items ++ (codes "-- " ++ weekday_text (day % 7) ++ codes " ")) }
{
    add(out, b"-- ")?;
    add(out, weekday(day % 7))?;
    add(out, b" ")
}

/// The weekday, by its place from Saturday on.
fn weekday(place: u64) -> &'static [u8]
    ensures { result.now ≡ weekday_text place }
{
    match place {
        0 => b"Saturday",
        1 => b"Sunday",
        2 => b"Monday",
        3 => b"Tuesday",
        4 => b"Wednesday",
        5 => b"Thursday",
        _ => b"Friday",
    }
}

/// Adds the time of day, and the date before it where it is another day than the one from which it
/// is seen.
pub(crate) fn add_dated(
    out: &mut Vec<u8>,
    clock: WallClock,
    moment: Option<u64>,
    tag: u64,
) -> Result<(), AllocError>
    ensures { OnOk result (AddsDated clock moment tag out.old.items out.new.items) }
{
    if !is_other_day(clock, moment, tag) {
        return add_time(out, clock, tag);
    }
    add_date(out, clock, tag)?;
    add(out, b" ")?;
    add_time(out, clock, tag)
}

/// Adds the date on which a moment falls, as `2026-11-29`.
fn add_date(out: &mut Vec<u8>, clock: WallClock, moment: u64) -> Result<(), AllocError>
    ensures { OnOk result (AddsDate clock moment out.old.items out.new.items) }
{
    add_date_of(out, date_at(clock, moment))
}

fn add_date_of(out: &mut Vec<u8>, date: Date) -> Result<(), AllocError>
    ensures { OnOk result (out.new.items ≡ out.old.items ++ date_text date) }
{
    add(
        out,
        DateTimePrinter::new().date_text(date).as_str().as_bytes(),
    )
}

fn date_at(clock: WallClock, moment: u64) -> Date
    ensures { epoch_day result ≡ pos (days_to clock moment) -ℤ pos 25_569 }
{
    date_of(day_of(clock, moment))
}

/// The date of a day that is counted from 1899-12-30.
fn date_of(day: u64) -> Date
    requires { day < 2 ^ 20 }
    ensures { epoch_day result ≡ pos day -ℤ pos 25_569 }
{
    match Date::from_unix_epoch_day(day as i64 - DAYS_TO_1970) {
        Ok(date) => date,
        Err(_) => unreachable!(),
    }
}

/// Adds a comma, and how far the clock is ahead of UTC.
fn add_zone(out: &mut Vec<u8>, clock: WallClock) -> Result<(), AllocError>
    ensures { OnOk result (out.new.items
        ≡ out.old.items ++ (codes ", " ++ zone_text clock)) }
{
    let ahead = u64::from(clock.ahead);
    if ahead < TWO_DAYS {
        add(out, b", UTC-")?;
        return add_hours(out, TWO_DAYS - ahead);
    }
    if TWO_DAYS < ahead {
        add(out, b", UTC+")?;
        return add_hours(out, ahead - TWO_DAYS);
    }
    add(out, b", UTC")
}

/// Adds hours and minutes.
fn add_hours(out: &mut Vec<u8>, seconds: u64) -> Result<(), AllocError>
    ensures { OnOk result (out.new.items ≡ out.old.items ++ hours_text seconds) }
{
    add_two(out, seconds / 3600)?;
    add(out, b":")?;
    add_two(out, seconds / 60 % 60)
}
