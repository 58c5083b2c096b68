//! Recordings, replayed entry by entry.
ghost use Rattle.std.specs.Prelude.{◌≡◌, ◌≢◌, ◌+◌, ◌≤◌, ◌<◌, ◌^◌, ◌%◌, ◌++◌, ℕ, List, length, IfOk};
ghost use Rattle.std.specs.Prelude.{IfErr, OnOk, true};
ghost use Rattle.osc_print.specs.Entries.{event_line};
ghost use Rattle.osc_model.specs.Limits.{Limits, max_recording};
ghost use Rattle.osc_model.specs.Events.{Entry as Recorded};
ghost use Rattle.osc_model.specs.Recordings.{IsRecordable, entry_text};
ghost use Rattle.osc_model.specs.History.{IsLawful};
ghost use Rattle.osc_record.specs.Left.{placed_of};
ghost use Rattle.osc_record.specs.Shown.{event_of, answer_of, HasWholeHits};
ghost use Rattle.osc_replay.specs.Answers.{OnMalformed, OnDisagrees, IsTextUnlessShort};
ghost use Rattle.osc_replay.specs.Disagreeing.{IsRecordingOf, DisagreesAt, computed_text};
ghost use Rattle.osc_replay.specs.Formed.{IsUnformedAt};
ghost use Rattle.osc_replay.specs.Printed.{printed};
ghost use Rattle.osc_replay.specs.Playing.{IsReached, Goes, Differs};

use crate::agreement::agree;
use crate::calls::Calls;
use crate::fault::ReplayFault;
use crate::onward::Replay;
use crate::outcome::Outcome;
use crate::row::Row;
use crate::server::Server;
use osc_atoms::Bytes;
use osc_print::{Text, entry_line};
use osc_record::{Answer, Entry, entry_bytes};
use std::alloc::Global;

/// The printed history of a recording (docs/FORMATS.md, "Printed text"), as a server with its
/// limits plays it again. Refuses bytes that are malformed anywhere, and else the first entry that
/// the server doesn't give.
pub fn replay(alloc: Global, recording: &[u8]) -> Result<Text, ReplayFault>
    requires { length recording.now ≤ max_recording }
    ensures ok { IfOk result
        (λ text. (caps : Limits) × (history : List Recorded)
        × IsRecordingOf recording.now caps history × (text ≡ printed caps history)) }
    ensures malformed { OnMalformed result (λ at. IsUnformedAt recording.now at) }
    ensures disagrees { OnDisagrees result
        (λ entry kept computed. DisagreesAt recording.now entry kept computed) }
    ensures complete { (caps : Limits) (history : List Recorded)
        → IsRecordingOf recording.now caps history
        → IsTextUnlessShort result (printed caps history) }
{
    let replayed = Replay::open(alloc, recording)?;
    Ok(replayed.into_text())
}

/// Plays the entry with a number, and prints it with its invocations.
pub(crate) fn replay_row<'a>(
    alloc: Global,
    server: &mut Server<'a>,
    calls: &mut Calls,
    text: &mut Text,
    number: u32,
    row: Row<'a>,
) -> Result<(), ReplayFault>
    requires reached { IsReached server.old }
    requires recordable { IsRecordable row.entry.caller (event_of row.entry.event)
        (answer_of row.entry.answer) }
    requires small { length
        (entry_text row.entry.caller (event_of row.entry.event) (answer_of row.entry.answer))
        ≤ max_recording }
    requires printed { calls.old.prints ≡ true }
    ensures ok { OnOk result
        (Goes (placed_of row.entry.entry).entry server.old server.new text.old text.new) }
    ensures printed { calls.new.prints ≡ true }
    ensures differs { IfErr result
        (λ fault. Differs fault number
        (entry_text row.entry.entry.caller (event_of row.entry.entry.event)
        (answer_of row.entry.entry.answer))
        (computed_text server.old row.entry.entry.caller (event_of row.entry.entry.event))) }
{
    osc_model::laws::a_legal_history_is_recordable();
    osc_model::laws::a_performance_goes_on();
    let Row { entry, event } = row;
    match server.play(entry.caller, event, calls)? {
        Outcome::Answered(answer) => print_agreed(alloc, text, number, &entry, answer, b""),
        Outcome::Released(unit) => {
            let hits = calls.hits.as_slice();
            let answer = Answer::Released { unit, hits };
            print_agreed(alloc, text, number, &entry, answer, calls.lines.bytes())
        }
        Outcome::Nothing => Err(ReplayFault::Disagrees {
            entry: number,
            kept: entry_bytes(alloc, entry.caller, entry.event, entry.answer)?,
            computed: Bytes::of(Vec::new(alloc)),
        }),
    }
}

/// Tells whether the answer of the entry with a number is the one that is computed.
#[inline(always)]
pub(crate) fn agreed(
    alloc: Global,
    number: u32,
    entry: &Entry<'_>,
    answer: Answer<'_>,
) -> Result<(), ReplayFault>
    requires whole { HasWholeHits answer }
    requires kept { IsRecordable entry.now.caller (event_of entry.now.event)
        (answer_of entry.now.answer) }
    requires kept_small { length
        (entry_text entry.now.caller (event_of entry.now.event) (answer_of entry.now.answer))
        ≤ max_recording }
    requires computed { IsRecordable entry.now.caller (event_of entry.now.event)
        (answer_of answer) }
    requires computed_small { length
        (entry_text entry.now.caller (event_of entry.now.event) (answer_of answer))
        ≤ max_recording }
    ensures agree { OnOk result (answer_of entry.now.answer ≡ answer_of answer.entry) }
    ensures differs { IfErr result
        (λ fault. Differs fault number
        (entry_text entry.now.caller (event_of entry.now.event) (answer_of entry.now.answer))
        (entry_text entry.now.caller (event_of entry.now.event) (answer_of answer.entry))) }
{
    osc_record::laws::entries_have_their_own_texts();
    if !agree(entry.answer, answer) {
        return Err(ReplayFault::Disagrees {
            entry: number,
            kept: entry_bytes(alloc, entry.caller, entry.event, entry.answer)?,
            computed: entry_bytes(alloc, entry.caller, entry.event, answer)?,
        });
    }
    Ok(())
}

/// Prints the entry with a number and its lines, if its answer is the one that is computed.
#[inline(always)]
fn print_agreed(
    alloc: Global,
    text: &mut Text,
    number: u32,
    entry: &Entry<'_>,
    answer: Answer<'_>,
    lines: &[u8],
) -> Result<(), ReplayFault>
    requires whole { HasWholeHits answer }
    requires kept { IsRecordable entry.now.caller (event_of entry.now.event)
        (answer_of entry.now.answer) }
    requires kept_small { length
        (entry_text entry.now.caller (event_of entry.now.event) (answer_of entry.now.answer))
        ≤ max_recording }
    requires computed { IsRecordable entry.now.caller (event_of entry.now.event)
        (answer_of answer) }
    requires computed_small { length
        (entry_text entry.now.caller (event_of entry.now.event) (answer_of answer))
        ≤ max_recording }
    ensures agree { OnOk result (answer_of entry.now.answer ≡ answer_of answer.entry) }
    ensures text { OnOk result
        (text.new ≡ text.old ++ (event_line (placed_of entry.now).entry ++ lines.now)) }
    ensures differs { IfErr result
        (λ fault. Differs fault number
        (entry_text entry.now.caller (event_of entry.now.event) (answer_of entry.now.answer))
        (entry_text entry.now.caller (event_of entry.now.event) (answer_of answer.entry))) }
{
    agreed(alloc, number, entry, answer)?;
    entry_line(text, entry)?;
    text.word(lines)?;
    Ok(())
}
