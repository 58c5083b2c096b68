//! Writes what the commands print.
ghost use Rattle.osc_ends.specs.declared.status.TheConstants.{BANK_SHORT, CALLERS_FULL, DONE};
ghost use Rattle.osc_ends.specs.declared.status.TheConstants.{NO_MEMORY, REFUSED, SINK_FAILED};
ghost use Rattle.osc_ends.specs.declared.status.TheConstants.{USAGE};
ghost use Rattle.std.specs.Prelude.{◌≡◌, ◌≢◌, ◌⊎◌, ◌≤◌, List, ◌++◌, length, IfOk, OnOk};
ghost use Rattle.osc_model.specs.Limits.{Limits, max_recording};
ghost use Rattle.osc_model.specs.Events.{Entry};
ghost use Rattle.osc_model.specs.Recordings.{record_text};
ghost use Rattle.osc_replay.specs.Disagreeing.{IsRecordingOf};
ghost use Rattle.osc_replay.specs.Formed.{IsFormed};
ghost use Rattle.osc_replay.specs.Old.{IsOldRecordingOf};
ghost use Rattle.osc_replay.specs.Onward.{GoesOnFrom};
ghost use Rattle.osc_replay.specs.Upgrading.{upgraded_text};
ghost use Rattle.osc_ends.specs.Printing.{refusal_text, score_fault_text, malformed_text};
ghost use Rattle.osc_ends.specs.Printing.{disagrees_text, too_large_text, bank_short_text};
ghost use Rattle.osc_ends.specs.Printing.{callers_full_text, usage_text, last_text, recorded_text};
ghost use Rattle.osc_ends.specs.Outcomes as outcomes;
ghost use Rattle.osc_ends.specs.Ends.{IsWritten, EndsText, EndsLine};
ghost use Rattle.osc_ends.specs.Recordings.{EndsRecording, DumpsTo, RefusesForm, RefusesRecording};
ghost use Rattle.osc_ends.specs.Recordings.{RefusesUpgrade, ReplaysTo, UpgradesTo};
ghost use Rattle.osc_ends.specs.Sinks.{change};

use crate::lines::{
    bank_short_line, callers_full_line, disagrees_lines, malformed_line, outcome_line,
    refusal_line, score_fault_line, too_large_line,
};
use crate::outcome::status_of;
use crate::recorded::Recorded;
use crate::status::{BANK_SHORT, CALLERS_FULL, DONE, NO_MEMORY, REFUSED, SINK_FAILED, USAGE};
use crate::whole::{Written, write_whole};
use osc_atoms::Bytes;
use osc_edge::Sink;
use osc_print::Text;
use osc_record::MAX_RECORDING;
use osc_replay::{DumpFault, Replay, ReplayFault, UpgradeFault, dump, replay, upgrade};
use osc_score::ScoreFault;
use osc_script::ScriptFault;
use std::alloc::{AllocError, Global};

/// Writes the text of what was recorded: the status with which the program ends.
pub fn write_run_text<O: Sink>(alloc: Global, recorded: &Recorded, out: &mut O) -> u8
    requires { (caps : Limits) × (history : List Entry)
        × IsRecordingOf recorded.now.bytes.items caps history }
    ensures { (caps : Limits) (history : List Entry)
        → IsRecordingOf recorded.now.bytes.items caps history →
        EndsText (outcomes.status_of recorded.now.outcome) result
        (recorded_text caps history recorded.now.faults recorded.now.outcome)
        (change O.Sink out.old out.new) }
{
    match run_text(alloc, recorded) {
        Ok(text) => write_text(status_of(recorded.outcome), text.bytes(), out),
        Err(_) => NO_MEMORY,
    }
}

/// The printed history, the lines of the faults, and where it was stopped the line on that. An
/// `Err` means out of memory.
fn run_text(alloc: Global, recorded: &Recorded) -> Result<Text, AllocError>
    requires { (caps : Limits) × (history : List Entry)
        × IsRecordingOf recorded.now.bytes.items caps history }
    ensures { (caps : Limits) (history : List Entry)
        → IsRecordingOf recorded.now.bytes.items caps history
        → IfOk result (λ text. text ≡ recorded_text caps history recorded.now.faults
        recorded.now.outcome) }
{
    osc_model::laws::a_legal_history_is_recordable();
    let mut text = match replay(alloc, &recorded.bytes) {
        Ok(text) => text,
        Err(ReplayFault::NoMemory) => return Err(AllocError),
        Err(_) => unreachable!(),
    };
    end_text(&mut text, recorded)?;
    Ok(text)
}

/// Writes the text of what was recorded after a past, whose replay goes on with it: the status with
/// which the program ends. What the past has isn't replayed again.
pub fn write_resumed_text<'a, O: Sink>(
    alloc: Global,
    past: Replay<'a>,
    recorded: &'a Recorded,
    out: &mut O,
) -> u8
    requires { GoesOnFrom past recorded.now.bytes.items }
    ensures { (caps : Limits) (history : List Entry)
        → IsRecordingOf recorded.now.bytes.items caps history →
        EndsText (outcomes.status_of recorded.now.outcome) result
        (recorded_text caps history recorded.now.faults recorded.now.outcome)
        (change O.Sink out.old out.new) }
{
    match resumed_text(alloc, past, recorded) {
        Ok(text) => write_text(status_of(recorded.outcome), text.bytes(), out),
        Err(_) => NO_MEMORY,
    }
}

/// As `run_text`, after a past.
fn resumed_text<'a>(
    alloc: Global,
    past: Replay<'a>,
    recorded: &'a Recorded,
) -> Result<Text, AllocError>
    requires { GoesOnFrom past recorded.now.bytes.items }
    ensures { (caps : Limits) (history : List Entry)
        → IsRecordingOf recorded.now.bytes.items caps history
        → IfOk result (λ text. text ≡ recorded_text caps history recorded.now.faults
        recorded.now.outcome) }
{
    let replayed = past.go_on(alloc, &recorded.bytes)?;
    let mut text = replayed.into_text();
    end_text(&mut text, recorded)?;
    Ok(text)
}

/// Adds the lines of the faults, and where it was stopped the line on that.
fn end_text(text: &mut Text, recorded: &Recorded) -> Result<(), AllocError>
    ensures { OnOk result (text.new
        ≡ text.old ++ (recorded.now.faults ++ last_text recorded.now.outcome)) }
{
    text.word(recorded.faults.bytes())?;
    outcome_line(text, recorded.outcome)?;
    Ok(())
}

/// Replays the recording, and writes its printed text, or why it is refused: the status with which
/// the program ends.
pub fn write_replay<O: Sink>(alloc: Global, bytes: &[u8], out: &mut O) -> u8
    requires { length bytes.now ≤ max_recording }
    ensures ends { EndsRecording ReplaysTo RefusesRecording result bytes.now
        (change O.Sink out.old out.new) }
    ensures replayed { (caps : Limits) (history : List Entry) → IsRecordingOf bytes.now caps history
        → (result ≡ DONE) ⊎ (result ≡ NO_MEMORY) ⊎ (result ≡ SINK_FAILED) }
{
    osc_laws::laws::every_history_keeps_the_laws();
    match replay(alloc, bytes) {
        Ok(text) => write_text(DONE, text.bytes(), out),
        Err(ReplayFault::Malformed { at }) => malformed(alloc, at, out),
        Err(
            ReplayFault::Disagrees {
                entry,
                kept,
                computed,
            },
        ) => disagrees(alloc, entry, &kept, &computed, out),
        Err(ReplayFault::NoMemory) => NO_MEMORY,
    }
}

/// Writes the dump of the recording, or the place where it is malformed: the status with which the
/// program ends.
pub fn write_dump<O: Sink>(alloc: Global, bytes: &[u8], out: &mut O) -> u8
    requires { length bytes.now ≤ max_recording }
    ensures ends { EndsRecording DumpsTo RefusesForm result bytes.now
        (change O.Sink out.old out.new) }
    ensures complete { (caps : Limits) (entries : List Entry) → IsFormed caps entries
        → bytes.now ≡ record_text caps entries
        → (result ≡ DONE) ⊎ (result ≡ NO_MEMORY) ⊎ (result ≡ SINK_FAILED) }
{
    match dump(alloc, bytes) {
        Ok(text) => write_text(DONE, text.bytes(), out),
        Err(DumpFault::Malformed { at }) => malformed(alloc, at, out),
        Err(DumpFault::NoMemory) => NO_MEMORY,
    }
}

/// Writes the recording of the first version as one of today, or why it is refused: the status with
/// which the program ends.
pub fn write_upgrade<O: Sink>(alloc: Global, bytes: &[u8], out: &mut O) -> u8
    requires { length bytes.now ≤ max_recording }
    ensures ends { EndsRecording UpgradesTo RefusesUpgrade result bytes.now
        (change O.Sink out.old out.new) }
    ensures complete { (caps : Limits) (history : List Entry)
        → IsOldRecordingOf bytes.now caps history
        → length (upgraded_text max_recording caps history) ≤ max_recording
        → (result ≡ DONE) ⊎ (result ≡ NO_MEMORY) ⊎ (result ≡ SINK_FAILED) }
{
    match upgrade(alloc, bytes, MAX_RECORDING) {
        Ok(recording) => write_text(DONE, recording.as_slice(), out),
        Err(UpgradeFault::Malformed { at }) => malformed(alloc, at, out),
        Err(UpgradeFault::TooLarge { need, limit }) => too_large(alloc, need, limit, out),
        Err(UpgradeFault::NoMemory) => NO_MEMORY,
    }
}

/// Writes a text: the status, 5 where the sink failed, or 3 where it had no memory.
pub fn write_text<O: Sink>(status: u8, text: &[u8], out: &mut O) -> u8
    requires { IsWritten status }
    ensures { EndsText status result text.now (change O.Sink out.old out.new) }
{
    match write_whole(out, text) {
        Written::Wrote => status,
        Written::Refused => SINK_FAILED,
        Written::Short => NO_MEMORY,
    }
}

/// Writes the line of a script that is refused.
pub(crate) fn refuse<O: Sink>(alloc: Global, fault: ScriptFault, out: &mut O) -> u8
    ensures { EndsLine REFUSED result (refusal_text fault) (change O.Sink out.old out.new) }
{
    let mut text = Text::open(alloc);
    match refusal_line(&mut text, fault) {
        Ok(()) => last_line(REFUSED, text.bytes(), out),
        Err(_) => NO_MEMORY,
    }
}

/// Writes the line of a score that is refused.
pub(crate) fn refuse_score<O: Sink>(alloc: Global, fault: ScoreFault, out: &mut O) -> u8
    ensures { EndsLine REFUSED result (score_fault_text fault) (change O.Sink out.old out.new) }
{
    let mut text = Text::open(alloc);
    match score_fault_line(&mut text, fault) {
        Ok(()) => last_line(REFUSED, text.bytes(), out),
        Err(_) => NO_MEMORY,
    }
}

/// Writes the line of a recording that is malformed at a place.
pub(crate) fn malformed<O: Sink>(alloc: Global, at: u32, out: &mut O) -> u8
    ensures { EndsLine REFUSED result (malformed_text at) (change O.Sink out.old out.new) }
{
    let mut text = Text::open(alloc);
    match malformed_line(&mut text, at) {
        Ok(()) => last_line(REFUSED, text.bytes(), out),
        Err(_) => NO_MEMORY,
    }
}

/// Writes the line of a recording whose upgrade needs more bytes than the limit.
fn too_large<O: Sink>(alloc: Global, need: u64, limit: u32, out: &mut O) -> u8
    ensures { EndsLine REFUSED result (too_large_text need limit) (change O.Sink out.old out.new) }
{
    let mut text = Text::open(alloc);
    match too_large_line(&mut text, need, limit) {
        Ok(()) => last_line(REFUSED, text.bytes(), out),
        Err(_) => NO_MEMORY,
    }
}

/// Writes the lines of an entry whose bytes aren't those that the server computes.
pub(crate) fn disagrees<O: Sink>(
    alloc: Global,
    entry: u32,
    kept: &Bytes,
    computed: &Bytes,
    out: &mut O,
) -> u8
    ensures { EndsLine REFUSED result (disagrees_text entry kept.now computed.now)
        (change O.Sink out.old out.new) }
{
    let mut text = Text::open(alloc);
    match disagrees_lines(
        alloc,
        &mut text,
        entry,
        kept.as_slice(),
        computed.as_slice(),
    ) {
        Ok(()) => last_line(REFUSED, text.bytes(), out),
        Err(_) => NO_MEMORY,
    }
}

/// Writes the line of a script that adds more methods than there are boxes: 8, or out of memory.
pub fn bank_short<O: Sink>(alloc: Global, need: usize, have: usize, out: &mut O) -> u8
    ensures { EndsLine BANK_SHORT result (bank_short_text need have)
        (change O.Sink out.old out.new) }
{
    let mut text = Text::open(alloc);
    match bank_short_line(&mut text, need, have) {
        Ok(()) => last_line(BANK_SHORT, text.bytes(), out),
        Err(_) => NO_MEMORY,
    }
}

/// Writes the line of a recording whose callers and lanes together are more than its limits allow:
/// 9, or out of memory.
pub fn callers_full<O: Sink>(alloc: Global, need: usize, have: usize, out: &mut O) -> u8
    ensures { EndsLine CALLERS_FULL result (callers_full_text need have)
        (change O.Sink out.old out.new) }
{
    let mut text = Text::open(alloc);
    match callers_full_line(&mut text, need, have) {
        Ok(()) => last_line(CALLERS_FULL, text.bytes(), out),
        Err(_) => NO_MEMORY,
    }
}

/// Writes the line of words that are no command: 2, or out of memory.
pub fn usage<O: Sink>(out: &mut O) -> u8
    ensures { EndsLine USAGE result usage_text (change O.Sink out.old out.new) }
{
    last_line(USAGE, b"usage\n", out)
}

/// A last line that can't be written changes no status, except when out of memory.
fn last_line<O: Sink>(status: u8, line: &[u8], out: &mut O) -> u8
    requires { status ≢ NO_MEMORY }
    ensures { EndsLine status result line.now (change O.Sink out.old out.new) }
{
    match write_whole(out, line) {
        Written::Short => NO_MEMORY,
        _ => status,
    }
}
