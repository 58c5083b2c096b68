//! The top call of a stage.
ghost use Rattle.std.specs.Prelude.{◌≡◌, ◌≢◌, ◌⊎◌, ◌+◌, ◌<◌, ◌≤◌, List, length, IfOk};
ghost use Rattle.osc_ends.specs.Sinks.{change};
ghost use Rattle.osc_growing.specs.Growing.{HasGrown, IsWithin};
ghost use Rattle.osc_lanes.specs.Performs.{part_of, IsWhole};
ghost use Rattle.osc_links.specs.Ticks.{clock_read};
ghost use Rattle.osc_links.specs.declared.limits.TheConstants.{MAX_LINKS};
ghost use Rattle.osc_stage.specs.Ends.{HasCause, HasWritten};
ghost use Rattle.osc_stage.specs.Stages.{RecordsStage, IsStaged, IsOpened, end_of};

use crate::ended::ended_by;
use crate::{Ended, Stage, Staged};
use osc_edge::{Clock, Link, Sink};
use osc_ends::status::{DONE, SINK_FAILED};
use osc_growing::{Growth, write_rest};
use osc_lanes::Gate;
use osc_links::{HostPart, Hosted, run_links};
use osc_method::Method;
use osc_relay::{Outlet, Relay};
use std::alloc::{AllocError, Global};
use std::sync::Wait;
use std::thread::Threads;

/// Plays a stage: opens a server with its limits, plays its opening as caller 0, serves each of its
/// links by a thread of its own and the ticker, who reads `clock`, by another, and writes to `rec`
/// what is recorded, while it grows and at the end. `gate` is called round each datagram. An `Err`
/// means out of memory, and the relays and the links are gone then.
///
/// A relay whose add is refused, since its address is taken or lies above or below another's, or
/// since a limit is reached, comes back in [`left`](Staged::left), and the stage plays without it.
pub fn stage_top<
    O: Outlet + Send,
    L: Link + Send + Drop,
    C: Clock + Send,
    W: Threads + Wait + Sync,
    G: Gate + Sync,
    R: Sink,
>(
    rt: &W,
    alloc: Global,
    stage: Stage<O, L>,
    clock: &mut C,
    rec: &mut R,
    gate: &G,
) -> Result<Staged<O, L>, AllocError>
    requires callers { length stage.links.from.items + 2 ≤ stage.caps.callers }
    requires few { length stage.links.from.items ≤ MAX_LINKS }
    requires whole { IsWhole (part_of stage.opening) }
    requires count { 0 < stage.links.bounds.count }
    requires idle { 0 < stage.links.bounds.idle }

    // One history: its laws, its recording, where each relay stands, and what it has heard and sent.
    ensures one_history { IfOk result (λ staged. RecordsStage ⟦<Relay<O> as Method>⟧.keep
        ⟦<Relay<O> as Method>⟧.heard O.sent O.losses stage staged (change R.Sink rec.old rec.new)) }

    // The same history by its callers: the opening, each link's datagrams, and the ticker's rounds.
    ensures staged { IfOk result (λ staged. IsStaged ⟦<Relay<O> as Method>⟧.keep
        ⟦<Relay<O> as Method>⟧.heard L.left L.faults stage
        (clock_read C.left C.faults clock.old clock.new) staged) }

    // Done means that nothing failed, and each failure that a count of faults rose.
    ensures cause { IfOk result (λ staged. HasCause L.faults staged.ended stage.links.from.items
        staged.links.items (clock_read C.left C.faults clock.old clock.new)
        (change R.Sink rec.old rec.new)) }
{
    crate::laws::what_was_sent_is_what_the_history_called();
    osc_model::laws::a_legal_history_is_recordable();
    osc_record::laws::a_written_entry_is_read_again();
    let host = HostPart {
        caps: stage.caps,
        opening: stage.opening,
        links: stage.links,
    };
    let hosted = run_links(rt, alloc, host, clock, rec, gate)?;
    settle(hosted, rec)
}

/// Writes what is left of the recording, and puts together the result of the stage.
fn settle<O: Outlet, L: Drop, R: Sink>(
    hosted: Hosted<Relay<O>, L>,
    rec: &mut R,
) -> Result<Staged<O, L>, AllocError>
    requires { IsWithin hosted.growth (length hosted.closed.bytes.items) }
    ensures recording { IfOk result
        (λ staged. staged.recording.items ≡ hosted.closed.bytes.items) }
    ensures relays { IfOk result (λ staged. staged.relays.items ≡ hosted.closed.kept.items) }
    ensures opening { IfOk result (λ staged. IsOpened staged hosted.opening) }
    ensures links { IfOk result (λ staged. staged.links.items ≡ hosted.links.links.items) }
    ensures faults { IfOk result (λ staged. staged.faults.items ≡ hosted.links.faults.items) }
    ensures ended { IfOk result
        (λ staged. (staged.ended ≡ end_of hosted) ⊎ (staged.ended ≡ Ended.SinkFailed)) }
    ensures written { IfOk result (λ staged. (start : R)
        → HasGrown hosted.growth (change R.Sink start rec.old) hosted.closed.bytes.items
        → HasWritten staged.ended (change R.Sink start rec.new) hosted.closed.bytes.items) }
{
    let Hosted {
        closed,
        opening,
        unenrolled,
        links: told,
        growth,
    } = hosted;
    let stop = opening.stop.or(unenrolled.or(told.stop));
    let played = ended_by(told.failed, told.clock_failed, stop);
    let ended = write_end(&closed.bytes, growth, rec, played)?;
    Ok(Staged {
        ended,
        recording: closed.bytes,
        relays: closed.kept,
        left: opening.back,
        removed: opening.removed,
        opening_faults: opening.faults,
        links: told.links,
        faults: told.faults,
    })
}

/// Writes what is left of the recording: how the stage ended, if it isn't that the sink fails or
/// has failed. An `Err` means out of memory.
fn write_end<R: Sink>(
    recording: &[u8],
    growth: Growth,
    rec: &mut R,
    played: Ended,
) -> Result<Ended, AllocError>
    requires within { IsWithin growth (length recording.now) }
    requires played { played ≢ Ended.SinkFailed }
    ensures ended { IfOk result
        (λ ended. (ended ≡ played) ⊎ (ended ≡ Ended.SinkFailed)) }
    ensures written { IfOk result (λ ended. (start : R)
        → HasGrown growth (change R.Sink start rec.old) recording.now
        → HasWritten ended (change R.Sink start rec.new) recording.now) }
{
    match write_rest(recording, growth, rec) {
        DONE => Ok(played),
        SINK_FAILED => Ok(Ended::SinkFailed),
        _ => Err(AllocError),
    }
}
