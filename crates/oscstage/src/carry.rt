// The script that carries a recording on.
ghost use Rattle.std.specs.Prelude.{◌≤◌, length};
ghost use Rattle.osc_model.specs.Limits.{max_recording};

use crate::report::{LimitFault, report_carry, report_limit};
use crate::words::Serving;
use osc_carry::{CarryFault, carry};
use osc_console::Agenda;
use osc_edge::StdSink;
use osc_ends::status::{DONE, REFUSED};
use osc_ends::write_text;
use osc_packet::{MAX_PACKET, Packet};
use osc_record::{Caps, Late, Unread};
use osc_script::{Act, Line, Mode, Script, ScriptRefusal};
use osc_show::read_recording;
use osc_words::Capacities;
use std::alloc::{AllocError, Global};

/// Writes the script that brings a new server to where the recording in this file ends.
pub(crate) fn write_script(rt: &HostRuntime, file: &str) -> Result<u8, AllocError> {
    let recording = match read_recording(rt, file)? {
        Ok(recording) => recording,
        Err(status) => return Ok(status),
    };
    match script_of(rt, file, &recording)? {
        Some(script) => Ok(write_text(DONE, &script, &mut StdSink::open(rt))),
        None => Ok(REFUSED),
    }
}

/// The lines of that script for the recording that is to be carried on; none where there is no such
/// recording. The `Err` inside is the status, where it is refused, which is reported.
pub(crate) fn read_carried(
    rt: &HostRuntime,
    serving: &Serving,
) -> Result<Result<Vec<Line>, u8>, AllocError> {
    let alloc = rt.alloc();
    let Some(old) = &serving.names.old else {
        return Ok(Ok(Vec::new(alloc)));
    };
    let recording = match read_recording(rt, old)? {
        Ok(recording) => recording,
        Err(status) => return Ok(Err(status)),
    };
    let Some(script) = script_of(rt, old, &recording)? else {
        return Ok(Err(REFUSED));
    };
    if let Ok(unread) = Unread::open(&recording)
        && let Some(fault) = limit_fault(unread.caps(), serving.caps)
    {
        report_limit(rt, old, fault);
        return Ok(Err(REFUSED));
    }
    match lines_of(alloc, &script)? {
        Some(lines) => Ok(Ok(lines)),
        None => Ok(Err(REFUSED)),
    }
}

/// The lines of a script, unless it is refused.
pub(crate) fn lines_of(alloc: Global, script: &[u8]) -> Result<Option<Vec<Line>>, AllocError> {
    match Script::read(alloc, script, Mode::Plain) {
        Ok(script) => Ok(Some(script.into_lines())),
        Err(ScriptRefusal::NoMemory) => Err(AllocError),
        Err(_) => Ok(None),
    }
}

/// The units that the lines send, which wait when a show begins with them.
pub(crate) fn agenda_of(alloc: Global, lines: &[Line]) -> Result<Agenda, AllocError> {
    let mut agenda = Agenda::new(alloc);
    for line in lines {
        if let Act::Send(bytes) = &line.act
            && let Ok(packet) = Packet::check(bytes.as_slice(), MAX_PACKET)
        {
            agenda.expect(&packet)?;
        }
    }
    Ok(agenda)
}

/// By which limit what waited on the old server could be lost on the new one.
fn limit_fault(old: Caps, new: Capacities) -> Option<LimitFault> {
    if new.units < old.units() {
        return Some(LimitFault::Units(old.units()));
    }
    if new.blocks < old.blocks() {
        return Some(LimitFault::Blocks(old.blocks()));
    }
    if old.late() == Late::Deliver && new.late != Late::Deliver {
        return Some(LimitFault::Late);
    }
    None
}

/// The script, unless the recording is refused, which is reported.
fn script_of(rt: &HostRuntime, file: &str, recording: &[u8]) -> Result<Option<Vec<u8>>, AllocError>
    requires { length recording.now ≤ max_recording }
{
    match carry(rt.alloc(), recording) {
        Ok(script) => Ok(Some(script)),
        Err(CarryFault::NoMemory) => Err(AllocError),
        Err(fault) => {
            report_carry(rt, file, &fault);
            Ok(None)
        }
    }
}
