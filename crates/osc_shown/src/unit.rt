//! The lines of a unit.
ghost use Rattle.std.specs.Prelude.{◌≡◌, ◌++◌, OnOk, OnErr, true};
ghost use Rattle.osc_shown.specs.Added.{report_in, AddsMarkedLine, AddsMessageLine};
ghost use Rattle.osc_shown.specs.Added.{AddsMessageLines, AddsEach};
ghost use Rattle.osc_shown.specs.Lines.{AddsUnit, empty_line, join_of};

use crate::bytes::add;
use crate::columns::{add_head, add_line, is_left_out};
use crate::line::add_headed;
use crate::tail::{add_goes, add_tail, due_mark, mark_of, waits};
use crate::wait::add_waiting;
use crate::{Answered, Arrival, Head, Look, Route};
use osc_message::Message;
use osc_packet::Unit;
use std::alloc::{AllocError, Global};

/// What the lines of a unit say.
#[derive(Clone, Copy)]
struct Report<'a> {
    look: Look,
    arrival: Arrival,
    answer: Answered,
    tag: u64,
    routes: &'a [Route],
}

/// Adds the lines of a unit: one for each message, or for one that waits, its first message alone
/// (docs/FORMATS.md, "Shown lines"). The routes stand in the order in which methods are called, by
/// address. An `Err` means out of memory.
pub fn unit_lines(
    text: &mut Vec<u8>,
    look: Look,
    arrival: Arrival,
    answer: Answered,
    unit: &Unit<'_>,
    routes: &[Route],
) -> Result<(), AllocError>
    ensures ok { OnOk result (AddsUnit look arrival answer routes.now unit.now text.old.items
        text.new.items) }
    ensures err { OnErr result (text.new.items ≡ text.old.items) }
{
    let alloc: Global = *text.allocator();
    let mut lines = Vec::new(alloc);
    add_unit(&mut lines, look, arrival, answer, unit, routes)?;
    text.extend_from_slice(&lines)
}

fn add_unit(
    out: &mut Vec<u8>,
    look: Look,
    arrival: Arrival,
    answer: Answered,
    unit: &Unit<'_>,
    routes: &[Route],
) -> Result<(), AllocError>
    ensures { OnOk result (AddsUnit look arrival answer routes.now unit.now out.old.items
        out.new.items) }
{
    if waits(answer) {
        return add_waiting(out, look, arrival, unit);
    }
    let report = Report {
        look,
        arrival,
        answer,
        tag: unit.tag(),
        routes,
    };
    add_each(out, report, unit)
}

fn add_each(out: &mut Vec<u8>, report: Report<'_>, unit: &Unit<'_>) -> Result<(), AllocError>
    ensures { OnOk result (AddsEach (report_in report.entry) unit.now.messages
        out.old.items out.new.items) }
{
    if unit.count() == 0 {
        return add_empty(out, report);
    }
    add_messages(out, report, unit)
}

/// Adds the line of a unit that has no message, unless it is left out.
fn add_empty(out: &mut Vec<u8>, report: Report<'_>) -> Result<(), AllocError>
    ensures { OnOk result (out.new.items ≡ out.old.items
        ++ empty_line (report_in report.entry)) }
{
    let mark = mark_of(report.answer, b' ');
    if is_left_out(report.look, mark) {
        return Ok(());
    }
    let alloc: Global = *out.allocator();
    let mut front = Vec::new(alloc);
    add_head(&mut front, report.look, report.arrival.moment, mark, b' ')?;
    add(&mut front, b"(no message)")?;
    let mut tail = Vec::new(alloc);
    add_tail(&mut tail, report.arrival, report.answer, report.tag, b"")?;
    add_line(out, report.look.colours, mark, &front, &tail)
}

/// Adds a line for each message.
fn add_messages(out: &mut Vec<u8>, report: Report<'_>, unit: &Unit<'_>) -> Result<(), AllocError>
    ensures { OnOk result (AddsMessageLines (report_in report.entry) true
        unit.now.messages out.old.items out.new.items) }
{
    let mut left = unit.count();
    let mut first = true;
    for message in unit.messages() {
        left = left.saturating_sub(1);
        add_message_line(out, report, join_of(first, left == 0), &message)?;
        first = false;
    }
    Ok(())
}

/// How a message is joined to those around it, by whether it is the first of its unit and the last.
pub fn join_of(first: bool, last: bool) -> u8
    ensures { result ≡ join_of first last }
{
    match (first, last) {
        (true, true) => b' ',
        (true, false) => b'{',
        (false, false) => b'|',
        (false, true) => b'}',
    }
}

/// Adds the line of a message, unless it is left out.
fn add_message_line(
    out: &mut Vec<u8>,
    report: Report<'_>,
    join: u8,
    message: &Message<'_>,
) -> Result<(), AllocError>
    ensures { OnOk result (AddsMessageLine (report_in report.entry) join message.now
        out.old.items out.new.items) }
{
    let mark = mark_of(report.answer, due_mark(message, report.routes));
    if is_left_out(report.look, mark) {
        return Ok(());
    }
    add_marked_line(out, report, mark, join, message)
}

fn add_marked_line(
    out: &mut Vec<u8>,
    report: Report<'_>,
    mark: u8,
    join: u8,
    message: &Message<'_>,
) -> Result<(), AllocError>
    ensures { OnOk result (AddsMarkedLine (report_in report.entry) mark join message.now
        out.old.items out.new.items) }
{
    let alloc: Global = *out.allocator();
    let mut there = Vec::new(alloc);
    add_goes(&mut there, report.look.whole, message, report.routes)?;
    let mut tail = Vec::new(alloc);
    add_tail(&mut tail, report.arrival, report.answer, report.tag, &there)?;
    let head = Head {
        look: report.look,
        moment: report.arrival.moment,
        mark,
        join,
    };
    add_headed(out, head, message, &tail)
}
