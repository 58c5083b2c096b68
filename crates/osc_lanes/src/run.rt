//! Plays many lanes on a server that is new or goes on from a recording, and closes it.
ghost use Rattle.std.specs.Prelude.{◌≡◌, ◌<◌, ◌≤◌, ◌+◌, List, length, map, All, IfOk};
ghost use Rattle.std.specs.Option.{option_map};
ghost use Rattle.osc_record.specs.Shown.{room_of};
ghost use Rattle.osc_model.specs.History.{Legal};
ghost use Rattle.osc_core.specs.Standing.{history_in};
ghost use Rattle.osc_turn.specs.declared.view.Entry.{Entry as Seen};
ghost use Rattle.osc_turn.specs.declared.view.View.{View};
ghost use Rattle.osc_turn.specs.History.{StartsWith};
ghost use Rattle.osc_turn.specs.Passes.{view};
ghost use Rattle.osc_live.specs.Closing.{known};
ghost use Rattle.osc_live.specs.Resuming.{all_resumed};
ghost use Rattle.osc_live.specs.Seen.{past_of};
ghost use Rattle.osc_live.specs.Tokens.{IsOurs};
ghost use Rattle.osc_life.specs.Crews.{IsLeft};
ghost use Rattle.osc_life.specs.Holders.{Stays, holder_at};
ghost use Rattle.osc_life.specs.Whole.{IsWhole as HasAllTokens};
ghost use Rattle.osc_lanes.specs.Performs.{part_of, told_of, IsWhole};
ghost use Rattle.osc_lanes.specs.Later.{Performs, old_callers, PerformsLater, PerformsBeside};
ghost use Rattle.osc_record.specs.declared.limits.TheConstants.{MAX_CALLERS};

use crate::part::{LanePart, LaneTold};
use crate::work::{none_played, number_parts};
use osc_atoms::Room;
use osc_core::Closed;
use osc_life::{Gate, Life, Lived, Meanwhile, Nobody, Played, live_on};
use osc_live::{Caller, Live};
use osc_method::Method;
use osc_record::Caps;
use std::alloc::{AllocError, Global};
use std::sync::Wait;
use std::thread::Threads;

/// The result of all lanes.
#[derive(Drop)]
pub struct Performed<M> {
    /// The recording of the one history, and the methods that are registered at its end.
    pub closed: Closed<M>,
    /// What each lane told, in the order of the parts.
    pub lanes: Vec<LaneTold<M>>,
    /// Where the recording had no room for a lane's enrolment. No lane was started then.
    pub unenrolled: Option<Room>,
}

/// Opens a server with these limits, enrols a caller for each part, plays the parts as lanes at the
/// same time, and closes the server. The callers of the lanes are numbered from 1. An `Err` means
/// out of memory.
pub fn run_lanes<M: Method + Send, W: Threads + Wait + Sync, G: Gate + Sync>(
    rt: &W,
    alloc: Global,
    caps: Caps,
    parts: Vec<LanePart<M>>,
    gate: &G,
) -> Result<Performed<M>, AllocError>
    requires callers { length parts.items < caps.callers }
    requires whole { All (λ part. IsWhole (part_of part)) parts.items }
    ensures { IfOk result (λ performed. Performs M.keep M.heard caps (map part_of parts.items)
        performed.closed.bytes.items performed.closed.kept.items (map told_of performed.lanes.items)
        (option_map room_of performed.unenrolled)) }
{
    // Limits are in their ranges, as each of them tells.
    let _ = caps.callers();
    let life = Life::open(alloc, caps)?;
    let (performed, ()) = perform_beside(rt, life, parts, Nobody, &mut (), gate)?;
    Ok(performed)
}

/// Enrols a caller for each part on a server that goes on from a recording, after the callers that
/// it had, plays the parts as lanes at the same time, and closes the server. `callers` are the
/// tokens that [`Live::resume`](osc_live::Live::resume) gave. An `Err` means out of memory.
pub fn resume_lanes<M: Method + Send, W: Threads + Wait + Sync, G: Gate + Sync>(
    rt: &W,
    alloc: Global,
    live: Live<M>,
    callers: Vec<Caller>,
    parts: Vec<LanePart<M>>,
    gate: &G,
) -> Result<Performed<M>, AllocError>
    requires ours { All (IsOurs live) callers.items }
    requires legal { Legal live.caps (history_in (past_of live.turn)) }
    requires tokens { known callers.items
        ≡ all_resumed live.caps (past_of live.turn) (old_callers (past_of live.turn)) }
    requires room { length callers.items + length parts.items ≤ live.caps.callers }
    requires whole { All (λ part. IsWhole (part_of part)) parts.items }
    ensures { IfOk result (λ performed. PerformsLater M.keep M.heard live.caps
        (past_of live.turn) (map part_of parts.items) performed.closed.bytes.items
        performed.closed.kept.items (map told_of performed.lanes.items)
        (option_map room_of performed.unenrolled)) }
{
    let life = Life::resume(alloc, live, callers);
    let (performed, ()) = perform_beside(rt, life, parts, Nobody, &mut (), gate)?;
    Ok(performed)
}

/// Plays the parts as the works of a life, and something else meanwhile: `meanwhile`, by caller 0,
/// with what it is lent. An `Err` means out of memory.
pub fn perform_beside<
    M: Method + Send,
    W: Threads + Wait + Sync,
    X: Send,
    T: Meanwhile<M, X> + Send + Drop,
    G: Gate + Sync,
>(
    rt: &W,
    life: Life<M>,
    parts: Vec<LanePart<M>>,
    meanwhile: T,
    on: &mut X,
    gate: &G,
) -> Result<(Performed<M>, T::End), AllocError>
    requires tokens { HasAllTokens life }
    requires left { IsLeft (past_of life.live.turn) (view life.first.pass) life.others.items }
    requires room { 1 + length life.others.items + length parts.items ≤ life.live.caps.callers }
    requires few { 1 + length life.others.items + length parts.items ≤ MAX_CALLERS }
    requires whole { All (λ part. IsWhole (part_of part)) parts.items }
    requires begun { (v : View) → StartsWith v.seen (view life.first.pass).seen
        → T.rounds on.old on.old meanwhile (holder_at life.live.caps 0) v v }
    requires stays { (after : X) (end : T.End) (tokens : List (List Seen)) (v w : View)
        → T.ends on.old after end (holder_at life.live.caps 0) tokens v w → Stays v w }
    ensures { IfOk result (λ both. PerformsBeside T.ends M.keep M.heard life.live.caps
        (past_of life.live.turn) (map part_of parts.items) both.0.closed.bytes.items
        both.0.closed.kept.items (map told_of both.0.lanes.items)
        (option_map room_of both.0.unenrolled) on.old on.new both.1) }
{
    osc_model::laws::a_method_is_called_while_it_is_registered();
    let alloc = life.alloc();
    let works = number_parts(alloc, parts)?;
    let lived = live_on(rt, life, works, meanwhile, on, gate)?;
    let Lived { closed, works, end } = lived;
    match works {
        Played::Each(lanes) => {
            let performed = Performed {
                closed,
                lanes,
                unenrolled: None,
            };
            Ok((performed, end))
        }
        Played::NoRoom(room, works) => {
            let lanes = none_played(alloc, works)?;
            let performed = Performed {
                closed,
                lanes,
                unenrolled: Some(room),
            };
            Ok((performed, end))
        }
    }
}
