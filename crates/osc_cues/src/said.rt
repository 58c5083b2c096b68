// What a line says.
ghost use Rattle.osc_cues.specs.declared.limits.TheConstants.{MAX_SHEET};
ghost use Rattle.std.specs.Prelude.{◌≡◌, ◌≤◌, ℕ, List, Result, Ok, IfOk, IfSome, length};
ghost use Rattle.osc_cues.specs.declared.fault.WordFault.{WordFault};
ghost use Rattle.osc_cues.specs.Faults.{made};
ghost use Rattle.osc_cues.specs.Moments.{IsMoment, IsTempo};
ghost use Rattle.osc_cues.specs.Sheets;
ghost use Rattle.osc_cues.specs.Sheets.{spans_say, line_says, time_fault, IsReading, IsSaid};
ghost use Rattle.osc_cues.specs.Answers.{Says};
ghost use Rattle.osc_packet.specs.Bundling.{IsSpelled};

use crate::draft::Draft;
use crate::fault::{Fault, WordError, WordFault};
use crate::message::read_words;
use crate::moment::{moment_at as moment_of_tag, tag_of};
use crate::scan::{Span, find_words};
use crate::setting::{Setting, Tempo};
use crate::tempo::{is_word, moment_at, read_tempo};
use osc_atoms::Bytes;
use osc_pattern::Address;
use std::alloc::Global;

/// What a line says.
#[derive(Drop)]
pub(crate) enum Said {
    Nothing,
    /// How bars and beats are counted from here on.
    Counted(Tempo),
    /// A moment, and the message that is sent then, or what is wrong with it.
    Cued(u128, Result<Bytes, WordFault>),
}

/// A moment that is before that of the line before.
fn order_fault(before: Option<u128>, moment: u128) -> Option<Fault>
    requires { IfSome before IsMoment }
    ensures { result ≡ Sheets.order_fault before moment }
{
    match before {
        None => None,
        Some(before) => {
            if moment < before {
                Some(Fault::BeforeLine(tag_of(before)))
            } else {
                None
            }
        }
    }
}

/// Whether a moment has gone by.
pub(crate) fn has_gone(setting: Setting, moment: u128) -> bool
    ensures { result ≡ Sheets.has_gone setting moment }
{
    moment < moment_of_tag(setting.skip.unwrap_or(setting.now))
}

/// What is wrong with a moment.
fn time_fault(setting: Setting, before: Option<u128>, moment: u128) -> Option<Fault>
    requires { IfSome before IsMoment }
    ensures { result ≡ time_fault setting before moment }
{
    if let Some(fault) = order_fault(before, moment) {
        return Some(fault);
    }
    if has_gone(setting, moment) && setting.skip.is_none() {
        Some(Fault::Gone(setting.now))
    } else {
        None
    }
}

/// The message of the words after a moment, unless something is wrong with that.
fn message_unless(
    wrong: Option<Fault>,
    alloc: Global,
    methods: &[Address],
    line: &[u8],
    first: Span,
    spans: &[Span],
) -> Result<Bytes, WordError>
    requires { length line.now ≤ MAX_SHEET }
    ensures says { Says result (Sheets.message_unless wrong methods.now line.now first spans.now) }
    ensures message { IfOk result IsSpelled }
{
    match wrong {
        Some(fault) => Err(WordError::Wrong(WordFault {
            at: first.from,
            fault,
        })),
        None => read_words(alloc, methods, line, spans),
    }
}

/// A moment, and what was read of its message.
fn cued(moment: u128, message: Result<Bytes, WordError>) -> Result<Said, WordError>
    requires moment { IsMoment moment }
    requires message { IfOk message IsSpelled }
    ensures says { (read : Result (List ℕ) WordFault) → Says message read
        → Says result (Ok (Said.Cued moment read)) }
    ensures said { IfOk result IsSaid }
{
    match message {
        Ok(message) => Ok(Said::Cued(moment, Ok(message))),
        Err(WordError::Wrong(fault)) => Ok(Said::Cued(moment, Err(fault))),
        Err(WordError::NoMemory) => Err(WordError::NoMemory),
    }
}

/// What the words of a line say.
fn say(
    alloc: Global,
    methods: &[Address],
    setting: Setting,
    draft: &Draft,
    line: &[u8],
    spans: &[Span],
) -> Result<Said, WordError>
    requires reading { IsReading draft.now }
    requires short { length line.now ≤ MAX_SHEET }
    ensures says { Says result (spans_say methods.now setting draft.now line.now spans.now) }
    ensures said { IfOk result IsSaid }
{
    match spans {
        [] => Ok(Said::Nothing),
        [first, others @ ..] => {
            if is_word(line, *first, b"tempo") {
                return counted(read_tempo(setting, draft, line, *first, others));
            }
            match moment_at(setting, draft, line, *first) {
                Ok(moment) => {
                    let wrong = time_fault(setting, draft.before, moment);
                    let message = message_unless(wrong, alloc, methods, line, *first, others);
                    cued(moment, message)
                }
                Err(fault) => Err(WordError::Wrong(fault)),
            }
        }
    }
}

/// A tempo that was read.
fn counted(read: Result<Tempo, WordFault>) -> Result<Said, WordError>
    requires { IfOk read IsTempo }
    ensures says { Says result (made (λ tempo. Said.Counted tempo) read) }
    ensures said { IfOk result IsSaid }
{
    match read {
        Ok(tempo) => Ok(Said::Counted(tempo)),
        Err(fault) => Err(WordError::Wrong(fault)),
    }
}

/// What a line says.
pub(crate) fn read_line(
    alloc: Global,
    methods: &[Address],
    setting: Setting,
    draft: &Draft,
    line: &[u8],
) -> Result<Said, WordError>
    requires reading { IsReading draft.now }
    requires short { length line.now ≤ MAX_SHEET }
    ensures says { Says result (line_says methods.now setting draft.now line.now) }
    ensures said { IfOk result IsSaid }
{
    match find_words(alloc, line) {
        Ok(spans) => say(alloc, methods, setting, draft, line, spans.as_slice()),
        Err(error) => Err(error),
    }
}
