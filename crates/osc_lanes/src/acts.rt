// Plays one line.
ghost use Rattle.std.specs.Prelude.{◌≡◌, ◌+◌, ◌≤◌, ◌++◌, length, IfOk, OnOk};
ghost use Rattle.std.specs.Vec.Iter.{into_iter_items};
ghost use Rattle.osc_core.specs.Answers.{handed_back, handed_out};
ghost use Rattle.osc_turn.specs.Passes.{view};
ghost use Rattle.osc_live.specs.Tokens.{IsOurs};
ghost use Rattle.osc_script.specs.Adds.{adds_of};
ghost use Rattle.osc_life.specs.Holders.{seen_by, holder_of};
ghost use Rattle.osc_lanes.specs.Performs.{told_of};
ghost use Rattle.osc_lanes.specs.Tells.{TellsAct};

use crate::lane::Lane;
use crate::packet::{report_answer, send};
use osc_core::{Adding, Removing};
use osc_life::Gate;
use osc_live::{Caller, Live};
use osc_method::Method;
use osc_script::{Act, Line};
use std::alloc::AllocError;
use std::sync::Wait;

/// Plays a line of the lane; an add takes the next box. The lane's `stop` is then the room where
/// the recording was full. What a submit is answered is reported to the gate. An `Err` means out of
/// memory.
pub(crate) fn play_line<M: Method, W: Wait, G: Gate>(
    rt: &W,
    live: &Live<M>,
    lane: &mut Lane<M>,
    caller: Caller,
    line: Line,
    gate: &G,
) -> Result<Caller, AllocError>
    requires ours { IsOurs live.now caller }
    requires handed { adds_of line.act ≤ length (into_iter_items lane.old.boxes) }
    ensures ours { IfOk result (IsOurs live.now) }
    ensures holder { IfOk result
        (λ then. holder_of live.now.caps then ≡ holder_of live.now.caps caller) }
    ensures made { IfOk result (λ then. (view then.pass).made ≡ (view caller.pass).made) }
    ensures handed { OnOk result (length (into_iter_items lane.old.boxes)
        ≤ adds_of line.act + length (into_iter_items lane.new.boxes)) }
    ensures number { lane.new.number ≡ lane.old.number }
    ensures played { IfOk result (λ then. TellsAct M.keep M.heard
        (holder_of live.now.caps caller) line.number line.act (into_iter_items lane.old.boxes)
        (into_iter_items lane.new.boxes) (told_of lane.old.told) (told_of lane.new.told)
        (seen_by caller) (seen_by then)) }
{
    let Line { number, act, .. } = line;
    match act {
        Act::Add(address) => {
            let Some(method) = lane.boxes.next() else {
                unreachable!()
            };
            let (caller, adding) = live.add(rt, caller, address, method);
            lane.told.stop = adding.stop();
            keep_refused(&mut lane.told.back, adding)?;
            Ok(caller)
        }
        Act::Remove(address) => {
            let (caller, removing) = live.remove(rt, caller, &address);
            lane.told.stop = removing.stop();
            keep_removed(&mut lane.told.removed, removing)?;
            Ok(caller)
        }
        Act::Send(bytes) => {
            let bytes = bytes.as_slice();
            let (caller, answer) = send(rt, live, caller, number, bytes, &mut lane.told.faults)?;
            lane.told.stop = report_answer(gate, lane.number, number, answer);
            Ok(caller)
        }
        Act::Tick(moment) => {
            let (caller, answer) = live.tick(rt, caller, moment);
            lane.told.stop = answer.stop();
            Ok(caller)
        }
        Act::Pump => {
            let (caller, pumped) = live.pump(rt, caller);
            lane.told.stop = pumped.end.stop();
            Ok(caller)
        }
    }
}

/// Keeps the box that is handed back, if one is.
fn keep_refused<M: Drop>(back: &mut Vec<M>, adding: Adding<M>) -> Result<(), AllocError>
    ensures { OnOk result (back.new.items ≡ back.old.items ++ handed_back adding) }
{
    match adding {
        Adding::Added(_) => Ok(()),
        Adding::Refused { method, .. } => Ok(back.push(method)?),
    }
}

/// Keeps the box that is removed, if one is, under its id.
fn keep_removed<M: Drop>(
    removed: &mut Vec<(u32, M)>,
    removing: Removing<M>,
) -> Result<(), AllocError>
    ensures { OnOk result (removed.new.items ≡ removed.old.items ++ handed_out removing) }
{
    match removing {
        Removing::Removed { id, method } => Ok(removed.push((id, method))?),
        Removing::RecordFull(_) | Removing::NotThere => Ok(()),
    }
}
