// The lines of a unit that waits, or isn't kept.
ghost use Rattle.std.specs.Prelude.{◌≡◌, OnOk, true};
ghost use Rattle.std.specs.List.{list_any};
ghost use Rattle.osc_message.specs.Reading.{pattern_of};
ghost use Rattle.osc_report.specs.Choices as choices;
ghost use Rattle.osc_report.specs.Entries.{AddsFate, AddsOneLine, AddsRefused};
ghost use Rattle.osc_report.specs.Entries as spec;
ghost use Rattle.osc_report.specs.Notes as notes;
ghost use Rattle.osc_report.specs.Selections.{selects};
ghost use Rattle.osc_report.specs.Units.{AddsChosen};
ghost use Rattle.osc_shown.specs.Tails.{waits};

use crate::front::Front;
use crate::stretch::shown_moment;
use crate::told::add_chosen;
use crate::{Options, Selector};
use osc_message::Message;
use osc_packet::{Unit, UnitMessages};
use osc_shown::{Answered, Arrival, Head, answer_tail, join_of, unit_lines};
use std::alloc::{AllocError, Global};

/// Adds the lines of a unit that are shown.
pub(crate) fn add_fate(
    out: &mut Vec<u8>,
    options: &Options,
    front: Front,
    answer: Answered,
    unit: &Unit<'_>,
) -> Result<(), AllocError>
    ensures { OnOk result (AddsFate options.now front answer unit.now out.old.items
        out.new.items) }
{
    if is_one_line(answer, unit) {
        let is_shown = is_any_named(options, unit);
        return add_one_line(out, is_shown, front, answer, unit);
    }
    let alloc: Global = *out.allocator();
    let tail = answer_tail(alloc, arrival_at(front.moment), answer, unit.tag())?;
    add_refused(out, options, front, &tail, unit)
}

/// Whether a unit is one line: it waits, or has no message.
fn is_one_line(answer: Answered, unit: &Unit<'_>) -> bool
    ensures { result ≡ spec.is_one_line answer unit.now }
{
    waits(answer) || unit.count() == 0
}

fn waits(answer: Answered) -> bool
    ensures { result ≡ waits answer }
{
    match answer {
        Answered::Waiting => true,
        _ => false,
    }
}

/// When a packet came; its sender isn't known.
fn arrival_at(moment: u64) -> Arrival
    ensures { result ≡ spec.arrival_at moment }
{
    Arrival {
        moment: shown_moment(moment),
        sender: None,
    }
}

/// Adds the one line of a unit, if it is shown.
fn add_one_line(
    out: &mut Vec<u8>,
    is_shown: bool,
    front: Front,
    answer: Answered,
    unit: &Unit<'_>,
) -> Result<(), AllocError>
    ensures { OnOk result (AddsOneLine is_shown front answer unit.now out.old.items
        out.new.items) }
{
    if is_shown {
        let arrival = arrival_at(front.moment);
        return unit_lines(out, front.look, arrival, answer, unit, &[]);
    }
    Ok(())
}

/// Whether the one line of a unit is shown.
fn is_any_named(options: &Options, unit: &Unit<'_>) -> bool
    ensures { result ≡ choices.is_any_named options.now.only unit.now.messages }
{
    match &options.only {
        Some(selector) => selects_any(selector, unit.messages()),
        None => true,
    }
}

/// Whether the pattern of any message is selected.
fn selects_any(selector: &Selector, messages: UnitMessages<'_>) -> bool
    ensures { result
        ≡ list_any (λ message. selects selector.now (pattern_of message)) messages.entry }
{
    for message in messages {
        if selector.selects(message.pattern().bytes()) {
            return true;
        }
    }
    false
}

/// Adds the lines of the messages of a unit that isn't kept, those that are shown.
fn add_refused(
    out: &mut Vec<u8>,
    options: &Options,
    front: Front,
    tail: &[u8],
    unit: &Unit<'_>,
) -> Result<(), AllocError>
    ensures { OnOk result (AddsRefused options.now front tail.now true unit.now.messages
        out.old.items out.new.items) }
{
    let mut left = unit.count();
    let mut first = true;
    for message in unit.messages() {
        left = left.saturating_sub(1);
        let join = join_of(first, left == 0);
        add_refused_line(out, options, front, join, &message, tail)?;
        first = false;
    }
    Ok(())
}

/// Adds the line of a message, if it is shown.
fn add_refused_line(
    out: &mut Vec<u8>,
    options: &Options,
    front: Front,
    join: u8,
    message: &Message<'_>,
    tail: &[u8],
) -> Result<(), AllocError>
    ensures { OnOk result (AddsChosen (choices.is_named options.now.only (pattern_of message.now))
        (notes.head front 33 join) message.now tail.now out.old.items out.new.items) }
{
    let head = Head {
        look: front.look,
        moment: shown_moment(front.moment),
        mark: b'!',
        join,
    };
    let is_shown = options.has_named(message.pattern().bytes());
    add_chosen(out, is_shown, head, message, tail)
}
