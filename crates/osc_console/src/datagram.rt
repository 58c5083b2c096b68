// The lines of a datagram's units.
ghost use Rattle.std.specs.Prelude.{OnOk};
ghost use Rattle.osc_console.specs.Datagrams.{AddsUnits};

use crate::View;
use crate::answer::answer_of;
use osc_live::Submission;
use osc_packet::Units;
use osc_shown::{Arrival, unit_lines};
use std::alloc::AllocError;

/// Adds the lines of units, by what was answered to their packet.
pub(crate) fn add_units(
    text: &mut Vec<u8>,
    view: View<'_>,
    arrival: Arrival,
    units: Units<'_>,
    submission: Submission,
) -> Result<(), AllocError>
    ensures { OnOk result (AddsUnits view.entry.look view.entry.late view.entry.routes.now arrival
        submission units.entry text.old.items text.new.items) }
{
    for unit in units {
        let answer = answer_of(view.late, submission, unit.tag());
        unit_lines(text, view.look, arrival, answer, &unit, view.routes)?;
    }
    Ok(())
}
