// How lines look, and in which zone their times are.
use jiff_core::civil::Date;
use jiff_core::{Offset, Timestamp};
use jiff_tz::{SystemTimeZone, TimeZoneDatabase};
use osc_cues::Setting;
use osc_shown::{Look, WallClock};
use std::env::{Env, FillError};
use std::io::IsTerminal;

/// The seconds from the start of 1900 to that of 1970.
const SECONDS_TO_1970: i128 = 2_208_988_800;

/// The look of lines on this machine's standard output, where a clock is so far ahead of UTC: in colours on a
/// terminal unless `NO_COLOR` is set.
pub fn look_at(rt: &HostRuntime, offset: Offset, quiet: bool) -> Look {
    Look {
        clock: WallClock::at(offset),
        since: None,
        caller: None,
        whole: false,
        colours: rt.stdout().is_terminal() && !has_no_color(rt),
        quiet,
    }
}

fn has_no_color(rt: &HostRuntime) -> bool {
    let mut space = [0; 1];
    !matches!(
        rt.var("NO_COLOR", &mut space),
        Ok(0) | Err(FillError::NotPresent)
    )
}

/// How far the machine's zone is ahead of UTC at this moment, where that is known.
pub fn zone_offset(rt: &HostRuntime, moment: Option<u64>) -> Option<Offset> {
    let zone = SystemTimeZone::read(rt).ok()?;
    let database = TimeZoneDatabase::new(rt.alloc());
    let zone = zone.time_zone(&database).ok()?;
    Some(zone.to_offset(time_of(moment?)?))
}

/// The day of a moment, where a clock is so far ahead of UTC.
fn civil_date(moment: u64, offset: Offset) -> Option<Date> {
    Some(offset.to_datetime(time_of(moment)?).date)
}

/// The time that a moment is, to the nearest nanosecond.
pub fn time_of(moment: u64) -> Option<Timestamp> {
    let seconds = i128::from(moment >> 32) - SECONDS_TO_1970;
    let part = ((moment & 0xffff_ffff) * 1_000_000_000 + (1 << 31)) >> 32;
    Timestamp::from_nanosecond(seconds * 1_000_000_000 + i128::from(part)).ok()
}

/// How moments are read at this one, where a clock is so far ahead of UTC.
pub fn setting_at_offset(now: u64, offset: Offset) -> Option<Setting> {
    Some(Setting {
        now,
        date: civil_date(now, offset)?,
        offset,
        skip: None,
    })
}
