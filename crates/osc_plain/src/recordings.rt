// Does what the commands say that read a recording.
ghost use Rattle.std.specs.Prelude.{◌≡◌, ◌≤◌, List, length};
ghost use Rattle.osc_model.specs.Limits.{Limits, max_recording};
ghost use Rattle.osc_model.specs.Events.{Entry};
ghost use Rattle.osc_model.specs.Recordings.{record_text};
ghost use Rattle.osc_replay.specs.Disagreeing.{IsRecordingOf};
ghost use Rattle.osc_replay.specs.Formed.{IsFormed};
ghost use Rattle.osc_replay.specs.Old.{IsOldRecordingOf};
ghost use Rattle.osc_replay.specs.Upgrading.{upgraded_text};
ghost use Rattle.osc_ends.specs.CommandEnds.{IsCommandsEnd};
ghost use Rattle.osc_ends.specs.Recordings.{EndsRecording, DumpsTo, RefusesForm, RefusesRecording};
ghost use Rattle.osc_ends.specs.Recordings.{RefusesUpgrade, ReplaysTo, UpgradesTo};

use osc_edge::{Sink, Source};
use osc_ends::{read_recording, write_dump, write_replay, write_upgrade};
use std::alloc::Global;

/// Replays the recording that the input is.
pub(crate) fn replay<S: Source, O: Sink>(alloc: Global, input: &mut S, out: &mut O) -> u8
    ensures end { IsCommandsEnd S.Source O.Sink max_recording result input.old input.new
        out.old out.new (EndsRecording ReplaysTo RefusesRecording result)
        (λ recording. (caps : Limits) × (history : List Entry)
        × IsRecordingOf recording caps history) }
{
    osc_model::laws::a_legal_history_is_recordable();
    match read_recording(alloc, input, out) {
        Ok(bytes) => write_replay(alloc, &bytes, out),
        Err(status) => status,
    }
}

/// Dumps the recording that the input is.
pub(crate) fn dump<S: Source, O: Sink>(alloc: Global, input: &mut S, out: &mut O) -> u8
    ensures end { IsCommandsEnd S.Source O.Sink max_recording result input.old input.new
        out.old out.new (EndsRecording DumpsTo RefusesForm result)
        (λ recording. (caps : Limits) × (entries : List Entry) × IsFormed caps entries
        × (recording ≡ record_text caps entries)) }
{
    osc_model::laws::a_legal_history_is_recordable();
    match read_recording(alloc, input, out) {
        Ok(bytes) => write_dump(alloc, &bytes, out),
        Err(status) => status,
    }
}

/// Upgrades the recording of the first version that the input is.
pub(crate) fn upgrade<S: Source, O: Sink>(alloc: Global, input: &mut S, out: &mut O) -> u8
    ensures end { IsCommandsEnd S.Source O.Sink max_recording result input.old input.new
        out.old out.new (EndsRecording UpgradesTo RefusesUpgrade result)
        (λ recording. (caps : Limits) × (history : List Entry)
        × IsOldRecordingOf recording caps history
        × (length (upgraded_text max_recording caps history) ≤ max_recording)) }
{
    match read_recording(alloc, input, out) {
        Ok(bytes) => write_upgrade(alloc, &bytes, out),
        Err(status) => status,
    }
}
