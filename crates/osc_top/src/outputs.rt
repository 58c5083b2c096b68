// Writes the result of a script on many threads.
ghost use Rattle.std.specs.Prelude.{◌≡◌, ◌⊎◌, List, length};
ghost use Rattle.osc_growing.specs.Growing.{HasGrown, IsWithin};
ghost use Rattle.osc_model.specs.Limits.{Limits};
ghost use Rattle.osc_model.specs.Events.{Entry};
ghost use Rattle.osc_replay.specs.Disagreeing.{IsRecordingOf};
ghost use Rattle.osc_ends.specs.declared.status.TheConstants.{SINK_FAILED};
ghost use Rattle.osc_ends.specs.Outcomes.{status_of};
ghost use Rattle.osc_top.specs.Recorded.{CanBePrinted, EndsBoth};
ghost use Rattle.osc_ends.specs.Printing.{recorded_text};
ghost use Rattle.osc_ends.specs.Sinks.{change, Fails};

use crate::played::Played;
use osc_edge::Sink;
use osc_ends::status::DONE;
use osc_ends::{Ended, Recorded, write_resumed_text, write_run_text};
use osc_growing::{Growth, write_rest};
use osc_method::Method;
use osc_replay::Replay;
use std::alloc::Global;

/// Writes what was played. The recording was written so far while it grew. Its text is computed
/// from the replay of the past that it goes on from, where there is one.
pub(crate) fn end<O: Sink, R: Sink>(
    alloc: Global,
    played: Played<Box<dyn Method + Send>>,
    growth: Growth,
    past: Option<Replay<'_>>,
    out: &mut O,
    rec: &mut R,
) -> Ended
    requires within { IsWithin growth (length played.recorded.bytes.items) }
    requires printed { CanBePrinted past played.recorded.bytes.items }
    ensures ends { (start : R) (caps : Limits) (history : List Entry)
        → HasGrown growth (change R.Sink start rec.old) played.recorded.bytes.items
        → IsRecordingOf played.recorded.bytes.items caps history →
        EndsBoth (status_of played.recorded.outcome) result.status played.recorded.bytes.items
        (recorded_text caps history played.recorded.faults played.recorded.outcome)
        (change R.Sink start rec.new) (change O.Sink out.old out.new) }
    ensures sink { result.status ≡ SINK_FAILED
        → Fails (change O.Sink out.old out.new) ⊎ (out.new ≡ out.old) }
    ensures heard { result.heard.items ≡ played.heard.items }
    ensures left { result.left.items ≡ played.left.items }
{
    let Played {
        recorded,
        heard,
        left,
    } = played;
    Ended {
        status: write_both(alloc, &recorded, growth, past, out, rec),
        heard,
        left,
    }
}

/// Writes what is left of the recording, and then its text.
fn write_both<'a, O: Sink, R: Sink>(
    alloc: Global,
    recorded: &'a Recorded,
    growth: Growth,
    past: Option<Replay<'a>>,
    out: &mut O,
    rec: &mut R,
) -> u8
    requires within { IsWithin growth (length recorded.now.bytes.items) }
    requires printed { CanBePrinted past recorded.now.bytes.items }
    ensures both { (start : R) (caps : Limits) (history : List Entry)
        → HasGrown growth (change R.Sink start rec.old) recorded.now.bytes.items
        → IsRecordingOf recorded.now.bytes.items caps history →
        EndsBoth (status_of recorded.now.outcome) result recorded.now.bytes.items
        (recorded_text caps history recorded.now.faults recorded.now.outcome)
        (change R.Sink start rec.new) (change O.Sink out.old out.new) }
    ensures sink { result ≡ SINK_FAILED
        → Fails (change O.Sink out.old out.new) ⊎ (out.new ≡ out.old) }
{
    let status = write_rest(&recorded.bytes, growth, rec);
    if status != DONE {
        return status;
    }
    match past {
        Some(past) => write_resumed_text(alloc, past, recorded, out),
        None => write_run_text(alloc, recorded, out),
    }
}
