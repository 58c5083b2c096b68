// Reads lines that say how bars and beats are counted.
ghost use Rattle.osc_cues.specs.declared.limits.TheConstants.{MAX_SHEET};
ghost use Rattle.std.specs.Prelude.{◌≡◌, ◌≤◌, ◌<◌, ◌^◌, IfOk, IfSome, length};
ghost use Rattle.osc_cues.specs.Moments.{IsMoment, IsTempo};
ghost use Rattle.osc_cues.specs.Sheets;
ghost use Rattle.osc_cues.specs.Sheets.{pace_read, meter_read, moment_in, tempo_of, tempo_says};
ghost use Rattle.osc_cues.specs.Sheets.{pace_of as pace_in, meter_of as meter_in, IsReading};

use crate::cut::{cut_fraction, cut_number};
use crate::draft::Draft;
use crate::fault::{Fault, WordFault};
use crate::moment::read_moment;
use crate::number::has_zero_first;
use crate::scan::{Span, word_at};
use crate::setting::{Setting, Tempo};

/// A thousandth of a beat a minute at least, where nothing follows.
fn pace_of(whole: u32, part: u64, rest: &[u8]) -> Option<u64>
    requires whole { whole < 10 ^ 9 }
    requires part { part < 10 ^ 18 }
    ensures value { result ≡ pace_in whole part rest.now }
    ensures some { IfSome result (λ pace. 0 < pace) }
{
    let pace = u64::from(whole) * 1000 + part;
    if rest.is_empty() && 0 < pace {
        Some(pace)
    } else {
        None
    }
}

/// Beats a minute, as `96` or `112.5`, in thousandths.
fn read_pace(word: &[u8]) -> Option<u64>
    ensures value { result ≡ pace_read word.now }
    ensures some { IfSome result (λ pace. 0 < pace) }
{
    let (whole, rest) = cut_number(3, word)?;
    let (part, rest) = cut_fraction(3, rest)?;
    pace_of(whole, part, rest)
}

fn meter_of(number: u32, word: &[u8], rest: &[u8]) -> Option<u32>
    ensures value { result ≡ meter_in number word.now rest.now }
    ensures few { IfSome result (λ meter. meter < 100) }
{
    if rest.is_empty() && 0 < number && number < 100 && !has_zero_first(word) {
        Some(number)
    } else {
        None
    }
}

/// The beats of a bar, from 1 to 99.
fn read_meter(word: &[u8]) -> Option<u32>
    ensures value { result ≡ meter_read word.now }
    ensures few { IfSome result (λ meter. meter < 100) }
{
    let (number, rest) = cut_number(2, word)?;
    meter_of(number, word, rest)
}

/// The moment of a word of a line.
pub(crate) fn moment_at(
    setting: Setting,
    draft: &Draft,
    line: &[u8],
    span: Span,
) -> Result<u128, WordFault>
    requires { IsReading draft.now }
    ensures value { result ≡ moment_in setting draft.now line.now span }
    ensures small { IfOk result IsMoment }
{
    match read_moment(setting, draft.before, draft.tempo, word_at(line, span)) {
        Ok(moment) => Ok(moment),
        Err(fault) => Err(WordFault {
            at: span.from,
            fault,
        }),
    }
}

fn pace_at(line: &[u8], span: Span) -> Result<u64, WordFault>
    ensures value { result ≡ Sheets.pace_at line.now span }
    ensures some { IfOk result (λ pace. 0 < pace) }
{
    match read_pace(word_at(line, span)) {
        Some(pace) => Ok(pace),
        None => Err(WordFault {
            at: span.from,
            fault: Fault::NotTempo,
        }),
    }
}

fn meter_at(line: &[u8], span: Span) -> Result<u32, WordFault>
    ensures value { result ≡ Sheets.meter_at line.now span }
    ensures few { IfOk result (λ meter. meter < 100) }
{
    match read_meter(word_at(line, span)) {
        Some(meter) => Ok(meter),
        None => Err(WordFault {
            at: span.from,
            fault: Fault::NotMeter,
        }),
    }
}

/// A tempo of the words of its parts: the tempo, the beats of a bar, and the moment.
fn tempo_of(
    setting: Setting,
    draft: &Draft,
    line: &[u8],
    pace: Span,
    meter: Span,
    origin: Span,
) -> Result<Tempo, WordFault>
    requires { IsReading draft.now }
    ensures value { result ≡ tempo_of setting draft.now line.now pace meter origin }
    ensures small { IfOk result IsTempo }
{
    let pace = pace_at(line, pace)?;
    let meter = meter_at(line, meter)?;
    let origin = moment_at(setting, draft, line, origin)?;
    Ok(Tempo {
        origin,
        pace,
        meter,
    })
}

/// The word at a place among these, or else the first of its line.
fn span_at(first: Span, spans: &[Span], place: usize) -> Span
    ensures { result ≡ Sheets.span_at first spans.now place }
{
    match spans.get(place) {
        Some(span) => *span,
        None => first,
    }
}

/// Whether the words after `tempo` are `N in M from MOMENT`.
fn is_tempo_form(line: &[u8], first: Span, spans: &[Span]) -> bool
    ensures { result ≡ Sheets.is_tempo_form line.now first spans.now }
{
    spans.len() == 5
        && is_word(line, span_at(first, spans, 1), b"in")
        && is_word(line, span_at(first, spans, 3), b"from")
}

/// `tempo 96 in 4 from 20:00:00`.
pub(crate) fn read_tempo(
    setting: Setting,
    draft: &Draft,
    line: &[u8],
    first: Span,
    spans: &[Span],
) -> Result<Tempo, WordFault>
    requires { IsReading draft.now }
    ensures value { result ≡ tempo_says setting draft.now line.now first spans.now }
    ensures small { IfOk result IsTempo }
{
    if !is_tempo_form(line, first, spans) {
        return Err(WordFault {
            at: span_at(first, spans, spans.len().saturating_sub(1)).from,
            fault: Fault::TempoForm,
        });
    }
    let pace = span_at(first, spans, 0);
    let meter = span_at(first, spans, 2);
    let origin = span_at(first, spans, 4);
    tempo_of(setting, draft, line, pace, meter, origin)
}

/// Whether the word at a place is this.
pub(crate) fn is_word(line: &[u8], span: Span, word: &[u8]) -> bool
    ensures { result ≡ Sheets.is_word line.now span word.now }
{
    word_at(line, span) == word
}
