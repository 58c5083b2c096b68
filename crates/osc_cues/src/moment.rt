//! Reads the words of moments.
ghost use Rattle.std.specs.Prelude.{◌≡◌, ◌≤◌, ◌<◌, ◌^◌, ◌≤ℤ◌, IsTrue, IfOk, IfSome, ℤ, pos, neg_ℤ};
ghost use Rattle.osc_cues.specs.Moments;
ghost use Rattle.osc_cues.specs.Moments.{moment_at, after, kept, last_of, nanos_of, beat_moment};
ghost use Rattle.osc_cues.specs.Moments.{day_number, seconds_since, moment_since, clock_moment};
ghost use Rattle.osc_cues.specs.Moments.{moment_told, moment_read, moment_on, IsTempo, IsMoment};
ghost use Rattle.jiff_core.specs.Calendar.{IsEpochDay, days_from_civil};
ghost use Rattle.osc_cues.specs.Bounds.{IsSmall, IsSmallClock, IsSmallZone};

use crate::fault::Fault;
use crate::setting::{Setting, Tempo};
use crate::told::{ClockTime, Day, Told, Zone, tell};
use jiff_core::civil::{Date, days_in_month};

/// How many billionths of a time tag's unit are in a nanosecond.
const UNITS: u128 = 0x1_0000_0000;

/// The moment of a word, after a line at that moment, by that tempo; or what is wrong with the
/// word. A moment is counted from 1900 in billionths of a time tag's unit.
pub fn read_moment(
    setting: Setting,
    before: Option<u128>,
    tempo: Option<Tempo>,
    word: &[u8],
) -> Result<u128, Fault>
    requires before { IfSome before IsMoment }
    requires tempo { IfSome tempo IsTempo }
    ensures value { result ≡ moment_read setting before tempo word.now }
    ensures small { IfOk result IsMoment }
{
    match tell(word) {
        Some(told) => moment_of(setting, before, tempo, told),
        None => Err(Fault::NotMoment),
    }
}

fn moment_of(
    setting: Setting,
    before: Option<u128>,
    tempo: Option<Tempo>,
    told: Told,
) -> Result<u128, Fault>
    requires before { IfSome before IsMoment }
    requires tempo { IfSome tempo IsTempo }
    requires told { IsSmall told }
    ensures value { result ≡ moment_told setting before tempo told }
    ensures small { IfOk result IsMoment }
{
    match told {
        Told::Now => Ok(moment_at(setting.now)),
        Told::Tag(tag) => Ok(moment_at(tag)),
        Told::After(nanos) => keep(after(last_of(setting, before), u128::from(nanos))),
        Told::Beat(bar, beat) => beat_moment(tempo, bar, beat),
        Told::Clock(clock) => clock_moment(setting, clock),
    }
}

/// The moment of a time tag.
pub(crate) fn moment_at(tag: u64) -> u128
    ensures value { result ≡ Moments.moment_at tag }
    ensures small { IsMoment result }
{
    u128::from(tag) * 1_000_000_000
}

/// The nearest time tag.
pub(crate) fn tag_of(moment: u128) -> u64
    requires { IsMoment moment }
    ensures { result ≡ Moments.tag_of moment }
{
    nearest(moment) as u64
}

/// The nearest time tag, where there may be none.
fn nearest(moment: u128) -> u128
    requires { moment < 2 ^ 127 }
    ensures { result ≡ Moments.tag_of moment }
{
    (moment + 500_000_000) / 1_000_000_000
}

/// The moment after so many nanoseconds.
fn after(moment: u128, nanos: u128) -> u128
    requires moment { IsMoment moment }
    requires nanos { nanos < 2 ^ 94 }
    ensures value { result ≡ Moments.after moment nanos }
    ensures small { result < 2 ^ 127 }
{
    moment + nanos * UNITS
}

/// The moment, if it has a time tag.
fn keep(moment: u128) -> Result<u128, Fault>
    requires { moment < 2 ^ 127 }
    ensures value { result ≡ kept moment }
    ensures small { IfOk result IsMoment }
{
    if nearest(moment) < 0x1_0000_0000_0000_0000 {
        Ok(moment)
    } else {
        Err(Fault::PastTags)
    }
}

/// The moment of the line before, or else now.
fn last_of(setting: Setting, before: Option<u128>) -> u128
    requires { IfSome before IsMoment }
    ensures value { result ≡ Moments.last_of setting before }
    ensures small { IsMoment result }
{
    match before {
        Some(moment) => moment,
        None => moment_at(setting.now),
    }
}

/// The nanoseconds of so many bars and beats more, to the nearest.
fn nanos_of(tempo: Tempo, bar: u32, beat: u64) -> u128
    requires tempo { IsTempo tempo }
    requires some { 1 ≤ bar }
    requires beat { beat < 2 ^ 61 }
    requires first { 10 ^ 9 ≤ beat }
    ensures value { result ≡ Moments.nanos_of tempo bar beat }
    ensures small { result < 2 ^ 94 }
{
    let whole = u128::from(bar - 1) * u128::from(tempo.meter) * 1_000_000_000;
    let beats = whole + u128::from(beat - 1_000_000_000);
    (beats * 60_000 + u128::from(tempo.pace / 2)) / u128::from(tempo.pace)
}

/// Whether a bar with so many beats has the beat.
fn is_beat(meter: u32, bar: u32, beat: u64) -> bool
    requires { meter < 2 ^ 31 }
    ensures { result ≡ Moments.is_beat meter bar beat }
{
    0 < bar && 1_000_000_000 <= beat && beat < (u64::from(meter) + 1) * 1_000_000_000
}

fn beat_moment(tempo: Option<Tempo>, bar: u32, beat: u64) -> Result<u128, Fault>
    requires tempo { IfSome tempo IsTempo }
    requires beat { beat < 2 ^ 61 }
    ensures value { result ≡ Moments.beat_moment tempo bar beat }
    ensures small { IfOk result IsMoment }
{
    match tempo {
        Some(tempo) => {
            if is_beat(tempo.meter, bar, beat) {
                keep(after(tempo.origin, nanos_of(tempo, bar, beat)))
            } else {
                Err(Fault::NotBeat(tempo.meter))
            }
        }
        None => Err(Fault::NoTempo),
    }
}

/// Whether the calendar has the day.
fn is_day(date: Day) -> bool
    ensures { result ≡ Moments.is_day date }
{
    date.year <= 9999
        && 1 <= date.month
        && date.month <= 12
        && 1 <= date.day
        && date.day <= u32::from(days_in_month(date.year as i16, date.month as u8))
}

/// The number of a day of the calendar, counted from 1970.
fn number_of(date: Day) -> i32
    requires { IsTrue (Moments.is_day date) }
    ensures value { result ≡ days_from_civil (pos date.year) date.month date.day }
    ensures small { IsEpochDay result }
{
    match Date::new(date.year as i16, date.month as i8, date.day as i8) {
        Ok(date) => date.to_unix_epoch_day(),
        Err(_) => unreachable!(),
    }
}

/// The day of a time, counted from 1970.
fn day_number(setting: Setting, day: Option<Day>) -> Result<i32, Fault>
    ensures value { result ≡ Moments.day_number setting day }
    ensures small { IfOk result IsEpochDay }
{
    match day {
        None => Ok(setting.date.to_unix_epoch_day()),
        Some(date) => {
            if is_day(date) {
                Ok(number_of(date))
            } else {
                Err(Fault::NotDay)
            }
        }
    }
}

/// How far the clock is ahead, in seconds.
fn ahead(setting: Setting, zone: Zone) -> i64
    requires { IsSmallZone zone }
    ensures value { result ≡ Moments.ahead setting zone }
    ensures low { neg_ℤ (pos (2 ^ 42)) ≤ℤ result }
    ensures high { result ≤ℤ pos (2 ^ 42) }
{
    match zone {
        Zone::Local => i64::from(setting.offset.seconds),
        Zone::Ahead(seconds) => seconds as i64,
        Zone::Behind(seconds) => -(seconds as i64),
    }
}

/// The seconds from the start of 1900 to that of a day.
fn day_seconds(day: i32) -> i64
    requires { IsEpochDay day }
    ensures value { result ≡ Moments.day_seconds day }
    ensures low { neg_ℤ (pos (2 ^ 42)) ≤ℤ result }
    ensures high { result ≤ℤ pos (2 ^ 42) }
{
    (i64::from(day) + 25_567) * 86_400
}

/// The seconds from the start of a day to a time.
fn time_seconds(clock: &ClockTime) -> u32
    requires { IsTrue (Moments.is_time clock.now) }
    ensures value { result ≡ Moments.time_seconds clock.now }
    ensures small { result < 86_400 }
{
    clock.hour * 3600 + clock.minute * 60 + clock.second
}

/// The seconds since 1900.
fn seconds_since(setting: Setting, clock: &ClockTime, day: i32) -> i64
    requires zone { IsSmallZone clock.now.zone }
    requires time { IsTrue (Moments.is_time clock.now) }
    requires day { IsEpochDay day }
    ensures value { result ≡ Moments.seconds_since setting clock.now day }
    ensures small { result ≤ℤ pos (2 ^ 44) }
{
    let ahead = ahead(setting, clock.zone);
    day_seconds(day) + i64::from(time_seconds(clock)) - ahead
}

/// So many seconds since 1900, and nanoseconds.
fn moment_since(seconds: i64, nanos: u64) -> Result<u128, Fault>
    requires seconds { seconds ≤ℤ pos (2 ^ 44) }
    requires nanos { nanos < 10 ^ 18 }
    ensures value { result ≡ Moments.moment_since seconds nanos }
    ensures small { IfOk result IsMoment }
{
    if seconds < 0 {
        return Err(Fault::EarlyDay);
    }
    keep((u128::from(seconds.unsigned_abs()) * 1_000_000_000 + u128::from(nanos)) * UNITS)
}

/// Whether there is a zone, and no day.
fn is_zone_alone(clock: &ClockTime) -> bool
    ensures { result ≡ Moments.is_zone_alone clock.now }
{
    has_zone(clock.zone) && clock.day.is_none()
}

fn has_zone(zone: Zone) -> bool
    ensures { result ≡ Moments.has_zone zone }
{
    match zone {
        Zone::Local => false,
        Zone::Ahead(_) | Zone::Behind(_) => true,
    }
}

fn is_time(clock: &ClockTime) -> bool
    ensures { result ≡ Moments.is_time clock.now }
{
    clock.hour < 24 && clock.minute < 60 && clock.second < 60
}

fn clock_moment(setting: Setting, clock: ClockTime) -> Result<u128, Fault>
    requires { IsSmallClock clock }
    ensures value { result ≡ Moments.clock_moment setting clock }
    ensures small { IfOk result IsMoment }
{
    if !is_time(&clock) {
        return Err(Fault::NotTime);
    }
    if is_zone_alone(&clock) {
        return Err(Fault::ZoneAlone);
    }
    let day = day_number(setting, clock.day)?;
    moment_since(seconds_since(setting, &clock, day), clock.nanos)
}
