// What the word of a moment tells.
ghost use Rattle.std.specs.Prelude.{◌≡◌, ◌<◌, ◌≤◌, ◌^◌, option_map, IfSome};
ghost use Rattle.osc_cues.specs.Moments;
ghost use Rattle.osc_cues.specs.Moments.{decimal_told, billionths, after_told, beat_told, day_cut};
ghost use Rattle.osc_cues.specs.Moments.{minute_cut, seconds_of, ahead_told, zoned, second_told};
ghost use Rattle.osc_cues.specs.Moments.{zone_told, after_minute, minute_at, time_told};
ghost use Rattle.osc_cues.specs.Moments.{clock_told, told_of};
ghost use Rattle.osc_cues.specs.Bounds.{IsSmall, IsSmallClock, IsSmallZone};

use crate::cut::{cut_byte, cut_digits, cut_fraction, cut_number};
use crate::number::read_sixteen;

/// A day of some calendar.
#[derive(Clone, Copy)]
pub(crate) struct Day {
    pub(crate) year: u32,
    pub(crate) month: u32,
    pub(crate) day: u32,
}

/// How far a clock is ahead of UTC.
#[derive(Clone, Copy)]
pub(crate) enum Zone {
    /// As far as the clock of the place.
    Local,
    /// So many seconds.
    Ahead(u64),
    /// It is so many seconds late.
    Behind(u64),
}

/// A time of a day.
#[derive(Clone, Copy)]
pub(crate) struct ClockTime {
    /// Today, where there is none.
    pub(crate) day: Option<Day>,
    pub(crate) hour: u32,
    pub(crate) minute: u32,
    pub(crate) second: u32,
    /// Billionths of a second.
    pub(crate) nanos: u64,
    pub(crate) zone: Zone,
}

/// What the word of a moment tells.
#[derive(Clone, Copy)]
pub(crate) enum Told {
    /// When play begins.
    Now,
    /// A time tag.
    Tag(u64),
    /// So many billionths of a second after the line before.
    After(u64),
    /// A bar, and a beat in billionths.
    Beat(u32, u64),
    Clock(ClockTime),
}

/// What the word of a moment tells.
pub(crate) fn tell(word: &[u8]) -> Option<Told>
    ensures value { result ≡ told_of word.now }
    ensures small { IfSome result IsSmall }
{
    if word == b"now".as_slice() {
        return Some(Told::Now);
    }
    if let Some(tag) = read_sixteen(word) {
        return Some(Told::Tag(tag));
    }
    tell_time(word)
}

/// The same of a word that is neither `now` nor a time tag.
fn tell_time(word: &[u8]) -> Option<Told>
    ensures value { result ≡ Moments.time_of word.now }
    ensures small { IfSome result IsSmall }
{
    if let Some(told) = tell_after(word) {
        return Some(told);
    }
    if let Some(told) = tell_beat(word) {
        return Some(told);
    }
    tell_clock(word)
}

/// Nothing after a whole number and a fraction of it in billionths.
fn tell_billionths(whole: u32, part: u64, rest: &[u8]) -> Option<u64>
    requires whole { whole < 10 ^ 9 }
    requires part { part < 10 ^ 18 }
    ensures value { result ≡ billionths whole part rest.now }
    ensures small { IfSome result (λ n. n < 2 ^ 61) }
{
    if rest.is_empty() {
        Some(u64::from(whole) * 1_000_000_000 + part)
    } else {
        None
    }
}

/// A number with up to 9 digits after its point, in billionths.
fn tell_decimal(most: usize, text: &[u8]) -> Option<u64>
    requires { most ≤ 9 }
    ensures value { result ≡ decimal_told most text.now }
    ensures small { IfSome result (λ n. n < 2 ^ 61) }
{
    let (whole, rest) = cut_number(most, text)?;
    let (part, rest) = cut_fraction(9, rest)?;
    tell_billionths(whole, part, rest)
}

/// `+0.625`.
fn tell_after(word: &[u8]) -> Option<Told>
    ensures value { result ≡ after_told word.now }
    ensures small { IfSome result IsSmall }
{
    if word.starts_with(b"+") {
        Some(Told::After(tell_decimal(9, &word[1..])?))
    } else {
        None
    }
}

/// `5|2.5`.
fn tell_beat(word: &[u8]) -> Option<Told>
    ensures value { result ≡ beat_told word.now }
    ensures small { IfSome result IsSmall }
{
    let (bar, rest) = cut_number(4, word)?;
    let rest = cut_byte(b'|', rest)?;
    Some(Told::Beat(bar, tell_decimal(3, rest)?))
}

/// `2026-11-30T`, and what follows it.
fn cut_day(word: &[u8]) -> Option<(Day, &[u8])>
    ensures { option_map (λ cut. (cut.0, cut.1.now)) result ≡ day_cut word.now }
{
    let (year, rest) = cut_digits(4, word)?;
    let rest = cut_byte(b'-', rest)?;
    let (month, rest) = cut_digits(2, rest)?;
    let rest = cut_byte(b'-', rest)?;
    let (day, rest) = cut_digits(2, rest)?;
    let rest = cut_byte(b'T', rest)?;
    Some((Day { year, month, day }, rest))
}

/// A colon and minutes.
fn cut_minute(text: &[u8]) -> Option<(u32, &[u8])>
    ensures value { option_map (λ cut. (cut.0, cut.1.now)) result ≡ minute_cut text.now }
    ensures small { IfSome result (λ cut. cut.0 < 10 ^ 9) }
{
    let rest = cut_byte(b':', text)?;
    cut_digits(2, rest)
}

/// Hours and minutes as seconds, where nothing follows.
fn seconds_of(hour: u32, minute: u32, rest: &[u8]) -> Option<u64>
    requires hour { hour < 10 ^ 9 }
    requires minute { minute < 10 ^ 9 }
    ensures value { result ≡ Moments.seconds_of hour minute rest.now }
    ensures small { IfSome result (λ n. n < 2 ^ 42) }
{
    if rest.is_empty() {
        Some(u64::from(hour) * 3600 + u64::from(minute) * 60)
    } else {
        None
    }
}

/// `01:00`.
fn tell_ahead(text: &[u8]) -> Option<u64>
    ensures value { result ≡ ahead_told text.now }
    ensures small { IfSome result (λ n. n < 2 ^ 42) }
{
    let (hour, rest) = cut_digits(2, text)?;
    let (minute, rest) = cut_minute(rest)?;
    seconds_of(hour, minute, rest)
}

/// Nothing, `Z`, or `+01:00`.
fn tell_zone(text: &[u8]) -> Option<Zone>
    ensures value { result ≡ zone_told text.now }
    ensures small { IfSome result IsSmallZone }
{
    if text.is_empty() {
        return Some(Zone::Local);
    }
    if text == b"Z".as_slice() {
        return Some(Zone::Ahead(0));
    }
    if text.starts_with(b"+") {
        return Some(Zone::Ahead(tell_ahead(&text[1..])?));
    }
    if text.starts_with(b"-") {
        return Some(Zone::Behind(tell_ahead(&text[1..])?));
    }
    None
}

/// A time and its zone.
fn tell_zoned(clock: ClockTime, text: &[u8]) -> Option<Told>
    requires { clock.nanos < 10 ^ 18 }
    ensures value { result ≡ zoned clock text.now }
    ensures small { IfSome result IsSmall }
{
    let zone = tell_zone(text)?;
    Some(Told::Clock(ClockTime { zone, ..clock }))
}

/// Seconds, with their billionths, and a zone.
fn tell_second(clock: ClockTime, text: &[u8]) -> Option<Told>
    ensures value { result ≡ second_told clock text.now }
    ensures small { IfSome result IsSmall }
{
    let (second, rest) = cut_digits(2, text)?;
    let (nanos, rest) = cut_fraction(9, rest)?;
    tell_zoned(
        ClockTime {
            second,
            nanos,
            ..clock
        },
        rest,
    )
}

fn tell_after_minute(clock: ClockTime, text: &[u8]) -> Option<Told>
    requires { clock.nanos < 10 ^ 18 }
    ensures value { result ≡ after_minute clock text.now }
    ensures small { IfSome result IsSmall }
{
    if text.starts_with(b":") {
        tell_second(clock, &text[1..])
    } else {
        tell_zoned(clock, text)
    }
}

/// A time of a day.
fn tell_time_of(day: Option<Day>, text: &[u8]) -> Option<Told>
    ensures value { result ≡ time_told day text.now }
    ensures small { IfSome result IsSmall }
{
    let (hour, rest) = cut_number(2, text)?;
    let (minute, rest) = cut_minute(rest)?;
    let clock = ClockTime {
        day,
        hour,
        minute,
        second: 0,
        nanos: 0,
        zone: Zone::Local,
    };
    tell_after_minute(clock, rest)
}

fn tell_clock(word: &[u8]) -> Option<Told>
    ensures value { result ≡ clock_told word.now }
    ensures small { IfSome result IsSmall }
{
    match cut_day(word) {
        Some((day, rest)) => tell_time_of(Some(day), rest),
        None => tell_time_of(None, word),
    }
}
