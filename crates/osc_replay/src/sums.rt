//! The summary of a history.
ghost use Rattle.std.specs.Prelude.{◌≡◌, ◌++◌, List, IfOk, OnOk};
ghost use Rattle.osc_model.specs.Limits.{Limits};
ghost use Rattle.osc_model.specs.Events.{Entry as Recorded};
ghost use Rattle.osc_replay.specs.Disagreeing.{IsRecordingOf};
ghost use Rattle.osc_replay.specs.Counted;

use crate::counts::{Counts, count_entries};
use osc_print::Text;
use osc_record::Reader;
use std::alloc::{AllocError, Global};

/// The summary of the history that a server recorded, ten lines (docs/FORMATS.md, "Summaries"). An
/// `Err` means out of memory.
pub fn summary(alloc: Global, recording: &[u8]) -> Result<Text, AllocError>
    requires { (caps : Limits) × (history : List Recorded)
        × IsRecordingOf recording.now caps history }
    ensures { (caps : Limits) (history : List Recorded)
        → IsRecordingOf recording.now caps history
        → IfOk result (λ text. text ≡ Counted.summary caps history) }
{
    osc_model::laws::a_legal_history_is_recordable();
    let Ok(reader) = Reader::check(recording) else {
        unreachable!();
    };
    let counts = count_entries(reader.entries());
    counts_text(alloc, &counts, recording.len() as u64)
}

fn counts_text(alloc: Global, counts: &Counts, size: u64) -> Result<Text, AllocError>
    ensures { IfOk result (λ text. text ≡ Counted.counts_text counts.now size) }
{
    let mut text = Text::open(alloc);
    submits_text(&mut text, counts)?;
    changes_text(&mut text, counts)?;
    releases_text(&mut text, counts, size)?;
    Ok(text)
}

fn submits_text(text: &mut Text, counts: &Counts) -> Result<(), AllocError>
    ensures { OnOk result (text.new ≡ text.old ++ Counted.submits_text counts.now) }
{
    count_line(text, b"entries", counts.entries)?;
    count_line(text, b"submits", counts.submits)?;
    count_line(text, b"queued", counts.queued)?;
    count_line(text, b"refused", counts.refused)
}

fn changes_text(text: &mut Text, counts: &Counts) -> Result<(), AllocError>
    ensures { OnOk result (text.new ≡ text.old ++ Counted.changes_text counts.now) }
{
    count_line(text, b"adds", counts.adds)?;
    count_line(text, b"removes", counts.removes)?;
    count_line(text, b"ticks", counts.ticks)
}

fn releases_text(text: &mut Text, counts: &Counts, size: u64) -> Result<(), AllocError>
    ensures { OnOk result (text.new ≡ text.old ++ Counted.releases_text counts.now size) }
{
    count_line(text, b"releases", counts.releases)?;
    count_line(text, b"calls", counts.calls)?;
    count_line(text, b"recording", size)
}

/// Adds a line of a word and a number.
fn count_line(text: &mut Text, name: &[u8], many: u64) -> Result<(), AllocError>
    ensures { OnOk result (text.new ≡ text.old ++ Counted.counted name.now many) }
{
    text.word(name)?;
    text.space_number(many)?;
    text.end_line()
}
