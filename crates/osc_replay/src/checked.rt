//! Recordings, checked and not printed.
ghost use Rattle.std.specs.Prelude.{◌≡◌, ◌≤◌, ◌<◌, ◌+◌, ◌^◌, if◌then◌else◌, [], List, length, IfOk};
ghost use Rattle.std.specs.Prelude.{IfErr, OnOk, false};
ghost use Rattle.osc_model.specs.Limits.{Limits, max_recording};
ghost use Rattle.osc_model.specs.Events.{Entry as Recorded};
ghost use Rattle.osc_model.specs.Recordings.{IsRecordable, entry_text};
ghost use Rattle.osc_record.specs.Left.{placed_of};
ghost use Rattle.osc_record.specs.Shown.{event_of, answer_of};
ghost use Rattle.osc_replay.specs.Answers.{OnMalformed, OnDisagrees};
ghost use Rattle.osc_replay.specs.Checking.{IsCheckOf, IsCheckedUnlessShort, lines_of};
ghost use Rattle.osc_replay.specs.Disagreeing.{IsRecordingOf, DisagreesAt, computed_text};
ghost use Rattle.osc_replay.specs.Formed.{IsUnformedAt};
ghost use Rattle.osc_replay.specs.Playing.{IsReached, Goes, Differs};

use crate::calls::Calls;
use crate::counts::is_added;
use crate::fault::ReplayFault;
use crate::form::{first_malformed, next_row};
use crate::outcome::Outcome;
use crate::replay_text::agreed;
use crate::row::Row;
use crate::server::Server;
use osc_atoms::Bytes;
use osc_record::{Answer, Caps, Unread, entry_bytes};
use std::alloc::Global;

/// What the recording of a server holds.
#[derive(Clone, Copy, Debug, PartialEq, Eq)]
pub struct Checked {
    /// How many entries there are.
    pub entries: u32,
    /// How many of them added a method.
    pub adds: u32,
    /// How many callers are enrolled after them.
    pub callers: u32,
    /// The server's limits.
    pub caps: Caps,
}

/// Plays a recording again as `replay` does, and prints nothing. Refuses bytes that are malformed
/// anywhere, and else the first entry that the server doesn't give.
pub fn check(alloc: Global, recording: &[u8]) -> Result<Checked, ReplayFault>
    requires { length recording.now ≤ max_recording }
    ensures ok { IfOk result
        (λ checked. (caps : Limits) × (history : List Recorded)
        × IsRecordingOf recording.now caps history × IsCheckOf checked caps history) }
    ensures malformed { OnMalformed result (λ at. IsUnformedAt recording.now at) }
    ensures disagrees { OnDisagrees result
        (λ entry kept computed. DisagreesAt recording.now entry kept computed) }
    ensures complete { (caps : Limits) (history : List Recorded)
        → IsRecordingOf recording.now caps history
        → IsCheckedUnlessShort result caps history }
{
    osc_model::laws::a_legal_history_is_recordable();
    let mut unread = Unread::open(recording)?;
    let caps = unread.caps();
    let mut server = Server::open(alloc, caps)?;
    let mut calls = Calls::unprinted(alloc);
    let mut entries = 0;
    let mut adds = 0;
    while let Some(row) = next_row(&mut unread)? {
        let added = is_added(row.entry.answer);
        if let Err(fault) = check_row(alloc, &mut server, &mut calls, entries, row) {
            if let Some(at) = first_malformed(unread) {
                return Err(ReplayFault::Malformed { at });
            }
            return Err(fault);
        }
        entries += 1;
        adds = one_more(adds, added);
    }
    Ok(Checked {
        entries,
        adds,
        callers: server.callers(),
        caps,
    })
}

/// One more, if so.
pub(crate) fn one_more(count: u32, more: bool) -> u32
    requires { count + 1 < 2 ^ 32 }
    ensures { result ≡ count + (if more then 1 else 0) }
{
    if more {
        return count + 1;
    }
    count
}

/// Plays the entry with a number, and makes no line of it.
fn check_row<'a>(
    alloc: Global,
    server: &mut Server<'a>,
    calls: &mut Calls,
    number: u32,
    row: Row<'a>,
) -> Result<(), ReplayFault>
    requires reached { IsReached server.old }
    requires recordable { IsRecordable row.entry.caller (event_of row.entry.event)
        (answer_of row.entry.answer) }
    requires small { length
        (entry_text row.entry.caller (event_of row.entry.event) (answer_of row.entry.answer))
        ≤ max_recording }
    requires unprinted { calls.old.prints ≡ false }
    ensures ok { OnOk result
        (Goes (placed_of row.entry.entry).entry server.old server.new []
        (lines_of server.old (placed_of row.entry.entry).entry)) }
    ensures unprinted { calls.new.prints ≡ false }
    ensures differs { IfErr result
        (λ fault. Differs fault number
        (entry_text row.entry.entry.caller (event_of row.entry.entry.event)
        (answer_of row.entry.entry.answer))
        (computed_text server.old row.entry.entry.caller (event_of row.entry.entry.event))) }
{
    osc_model::laws::a_legal_history_is_recordable();
    osc_model::laws::a_performance_goes_on();
    let Row { entry, event } = row;
    match server.play(entry.caller, event, calls)? {
        Outcome::Answered(answer) => agreed(alloc, number, &entry, answer),
        Outcome::Released(unit) => {
            let hits = calls.hits.as_slice();
            agreed(alloc, number, &entry, Answer::Released { unit, hits })
        }
        Outcome::Nothing => Err(ReplayFault::Disagrees {
            entry: number,
            kept: entry_bytes(alloc, entry.caller, entry.event, entry.answer)?,
            computed: Bytes::of(Vec::new(alloc)),
        }),
    }
}
