// Writes the result of a run.
ghost use Rattle.std.specs.Prelude.{◌≡◌, ◌++◌, List, IfOk};
ghost use Rattle.osc_model.specs.Limits.{Limits};
ghost use Rattle.osc_model.specs.Events.{Entry};
ghost use Rattle.osc_replay.specs.Counted as counts;
ghost use Rattle.osc_replay.specs.Disagreeing.{IsRecordingOf};
ghost use Rattle.osc_script.specs.declared.line.Line.{Line};
ghost use Rattle.osc_ends.specs.Ends.{EndsText};
ghost use Rattle.osc_ends.specs.Outcomes as outcomes;
ghost use Rattle.osc_ends.specs.Printing.{last_text};
ghost use Rattle.osc_ends.specs.Sinks.{change};
ghost use Rattle.osc_plain.specs.Runs.{EndsPlayed, RecordsRun};

use crate::report::Report;
use osc_edge::Sink;
use osc_ends::status::NO_MEMORY;
use osc_ends::{Recorded, outcome_line, status_of, write_run_text, write_text};
use osc_print::Text;
use osc_replay::summary;
use std::alloc::{AllocError, Global};

/// Writes the result of a script.
pub(crate) fn write_recorded<O: Sink>(
    alloc: Global,
    report: Report,
    recorded: &Recorded,
    out: &mut O,
) -> u8
    requires { (caps : Limits) × (lines : List Line)
        × RecordsRun recorded.now.bytes.items recorded.now.faults
        recorded.now.outcome caps lines }
    ensures { (caps : Limits) (lines : List Line)
        → RecordsRun recorded.now.bytes.items recorded.now.faults
        recorded.now.outcome caps lines →
        EndsPlayed report caps result lines (change O.Sink out.old out.new) }
{
    match report {
        Report::Recording => write_text(status_of(recorded.outcome), &recorded.bytes, out),
        Report::Text => write_run_text(alloc, recorded, out),
        Report::Summary => write_summary(alloc, recorded, out),
    }
}

/// Writes the summary of what was recorded, and where it was stopped the line on that.
fn write_summary<O: Sink>(alloc: Global, recorded: &Recorded, out: &mut O) -> u8
    requires { (caps : Limits) × (history : List Entry)
        × IsRecordingOf recorded.now.bytes.items caps history }
    ensures { (caps : Limits) (history : List Entry)
        → IsRecordingOf recorded.now.bytes.items caps history →
        EndsText (outcomes.status_of recorded.now.outcome) result
        (counts.summary caps history ++ last_text recorded.now.outcome)
        (change O.Sink out.old out.new) }
{
    match summary_text(alloc, recorded) {
        Ok(text) => write_text(status_of(recorded.outcome), text.bytes(), out),
        Err(_) => NO_MEMORY,
    }
}

fn summary_text(alloc: Global, recorded: &Recorded) -> Result<Text, AllocError>
    requires { (caps : Limits) × (history : List Entry)
        × IsRecordingOf recorded.now.bytes.items caps history }
    ensures { (caps : Limits) (history : List Entry)
        → IsRecordingOf recorded.now.bytes.items caps history
        → IfOk result (λ text. text ≡ counts.summary caps history
        ++ last_text recorded.now.outcome) }
{
    let mut text = summary(alloc, &recorded.bytes)?;
    outcome_line(&mut text, recorded.outcome)?;
    Ok(text)
}
