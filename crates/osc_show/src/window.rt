// From when to when a recording is shown.
use crate::view::setting_at_offset;
use jiff_core::Offset;
use osc_cues::read_moment;

/// A day, in a time tag's units.
const DAY: u64 = 86_400 << 32;

/// Half a unit of a time tag, and one, in billionths of one.
const HALF: u128 = 500_000_000;

const UNIT: u128 = 1_000_000_000;

/// From when to when lines are shown, both included, as far as that is said.
#[derive(Clone, Copy)]
pub(crate) struct Window {
    pub(crate) from: Option<u64>,
    pub(crate) to: Option<u64>,
}

impl Window {
    /// From one time to the other, of a recording whose first moment this is. A time of day is the
    /// first such second that isn't before the recording's first, or where it names no second the
    /// first such minute; the end isn't before the start. The `Err` says which word is no time.
    pub(crate) fn of<'a>(
        offset: Offset,
        first: u64,
        from: Option<&'a str>,
        to: Option<&'a str>,
    ) -> Result<Window, &'a str> {
        let from = match from {
            Some(word) => Some(time_in(offset, first, span_of(word), word)?),
            None => None,
        };
        let least = from.unwrap_or(first).max(first);
        let to = match to {
            Some(word) => Some(time_in(offset, least, 1, word)?),
            None => None,
        };
        Ok(Window { from, to })
    }
}

/// How many seconds a time of day names: a minute, or a second of it.
fn span_of(word: &str) -> u64 {
    match word.bytes().filter(|byte| *byte == b':').count() {
        1 => 60,
        _ => 1,
    }
}

/// The moment of a word, on the day of a moment, or a day after where its span of so many seconds
/// would be over before that one's second.
fn time_in<'a>(offset: Offset, least: u64, span: u64, word: &'a str) -> Result<u64, &'a str> {
    let Some(setting) = setting_at_offset(least, offset) else {
        return Err(word);
    };
    let Ok(moment) = read_moment(setting, None, None, word.as_bytes()) else {
        return Err(word);
    };
    let tag = ((moment + HALF) / UNIT) as u64;
    if (tag >> 32).saturating_add(span) <= least >> 32 && !word.contains('T') {
        Ok(tag.saturating_add(DAY))
    } else {
        Ok(tag)
    }
}
