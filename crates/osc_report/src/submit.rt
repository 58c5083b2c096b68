// The lines of a packet that is handed in.
ghost use Rattle.std.specs.Prelude.{◌≡◌, OnOk, true};
ghost use Rattle.osc_atoms.specs.declared.limits.TheConstants.{MAX_PACKET};
ghost use Rattle.osc_packet.specs.Reading.{is_packet, units_read};
ghost use Rattle.osc_record.specs.Shown.{answer_of};
ghost use Rattle.osc_report.specs.Entries.{answered, queued_fate, AddsSaid, AddsSubmit};

use crate::Options;
use crate::fate::add_fate;
use crate::front::Front;
use osc_model::keeps;
use osc_packet::{MAX_PACKET, Packet, Unit, Units};
use osc_record::Answer;
use osc_shown::Answered;
use osc_story::Story;
use std::alloc::AllocError;

/// Adds the lines of the units of a packet that say something.
pub(crate) fn add_submit(
    out: &mut Vec<u8>,
    options: &Options,
    front: Front,
    story: &Story,
    packet: &[u8],
    answer: Answer<'_>,
) -> Result<(), AllocError>
    ensures { OnOk result (is_packet MAX_PACKET packet.now ≡ true
        → AddsSubmit options.now front story.now (answer_of answer.entry)
        (units_read packet.now) out.old.items out.new.items) }
{
    match Packet::check(packet, MAX_PACKET) {
        Ok(packet) => add_units(out, options, front, story, packet.units(), answer),
        Err(_) => Ok(()),
    }
}

fn add_units(
    out: &mut Vec<u8>,
    options: &Options,
    front: Front,
    story: &Story,
    units: Units<'_>,
    answer: Answer<'_>,
) -> Result<(), AllocError>
    ensures { OnOk result (AddsSubmit options.now front story.now (answer_of answer.entry)
        units.entry out.old.items out.new.items) }
{
    for unit in units {
        add_said(
            out,
            options,
            front,
            answered(story, front.moment, answer, &unit),
            &unit,
        )?;
    }
    Ok(())
}

/// Adds the lines of a unit, where something is said of it.
fn add_said(
    out: &mut Vec<u8>,
    options: &Options,
    front: Front,
    answered: Option<Answered>,
    unit: &Unit<'_>,
) -> Result<(), AllocError>
    ensures { OnOk result (AddsSaid options.now front answered unit.now out.old.items
        out.new.items) }
{
    match answered {
        Some(answer) => add_fate(out, options, front, answer, unit),
        None => Ok(()),
    }
}

/// What is said of a unit of a packet that was answered so.
fn answered(story: &Story, moment: u64, answer: Answer<'_>, unit: &Unit<'_>) -> Option<Answered>
    ensures { result ≡ answered story.now moment (answer_of answer.entry) unit.now }
{
    match answer {
        Answer::Queued { .. } => queued_fate(story, moment, unit),
        Answer::UnitsFull(_) => Some(Answered::UnitsFull),
        Answer::PoolFull(_) => Some(Answered::PoolFull),
        _ => None,
    }
}

fn queued_fate(story: &Story, moment: u64, unit: &Unit<'_>) -> Option<Answered>
    ensures { result ≡ queued_fate story.now moment unit.now }
{
    if !keeps(story.late(), story.clock(), unit) {
        return Some(Answered::Discarded);
    }
    if moment < unit.tag() {
        return Some(Answered::Waiting);
    }
    None
}
