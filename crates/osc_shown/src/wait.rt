// The line of a unit that waits.
ghost use Rattle.std.specs.Prelude.{◌≡◌, ◌++◌, [], OnOk};
ghost use Rattle.osc_shown.specs.Added.{AddsUnitText, AddsWaiting, AddsWaitingLine};
ghost use Rattle.osc_shown.specs.Lines.{IsWaitingTail, more_text};

use crate::bytes::add;
use crate::columns::{add_head, add_line};
use crate::day::add_dated;
use crate::message::add_message;
use crate::number::add_thousands;
use crate::tail::{add_sender, add_wait};
use crate::{Arrival, Look};
use osc_packet::Unit;
use std::alloc::{AllocError, Global};

/// Adds the line of a unit that waits for its time tag, unless it is left out.
pub(crate) fn add_waiting(
    out: &mut Vec<u8>,
    look: Look,
    arrival: Arrival,
    unit: &Unit<'_>,
) -> Result<(), AllocError>
    ensures { OnOk result (AddsWaiting look arrival unit.now out.old.items
        out.new.items) }
{
    if look.quiet {
        return Ok(());
    }
    add_waiting_line(out, look, arrival, unit)
}

fn add_waiting_line(
    out: &mut Vec<u8>,
    look: Look,
    arrival: Arrival,
    unit: &Unit<'_>,
) -> Result<(), AllocError>
    ensures { OnOk result (AddsWaitingLine look arrival unit.now out.old.items out.new.items) }
{
    let alloc: Global = *out.allocator();
    let mut front = Vec::new(alloc);
    add_head(&mut front, look, arrival.moment, b'~', b' ')?;
    add_unit_text(&mut front, look.whole, unit)?;
    let mut tail = Vec::new(alloc);
    add_waiting_tail(&mut tail, look, arrival, unit.tag())?;
    add_line(out, look.colours, b'~', &front, &tail)
}

/// Adds the first message, and how many more there are.
fn add_unit_text(out: &mut Vec<u8>, whole: bool, unit: &Unit<'_>) -> Result<(), AllocError>
    ensures { OnOk result (AddsUnitText whole unit.now.messages out.old.items out.new.items) }
{
    let count = unit.count();
    match unit.messages().next() {
        Some(message) => {
            add_message(out, whole, &message)?;
            add_more(out, count - 1)
        }
        None => add(out, b"(no message)"),
    }
}

fn add_more(out: &mut Vec<u8>, count: u32) -> Result<(), AllocError>
    ensures { OnOk result (out.new.items ≡ out.old.items ++ more_text count) }
{
    if count == 0 {
        return Ok(());
    }
    add(out, b" and ")?;
    add_thousands(out, u64::from(count))?;
    add(out, b" more")
}

fn add_waiting_tail(
    out: &mut Vec<u8>,
    look: Look,
    arrival: Arrival,
    tag: u64,
) -> Result<(), AllocError>
    requires { out.old.items ≡ [] }
    ensures { OnOk result (IsWaitingTail look arrival tag out.new.items) }
{
    add(out, b"for ")?;
    add_dated(out, look.clock, arrival.moment, tag)?;
    add_wait(out, arrival.moment, tag)?;
    add_sender(out, arrival.sender)
}
