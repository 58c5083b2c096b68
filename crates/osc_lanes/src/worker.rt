//! The worker of one lane.
ghost use Rattle.std.specs.Prelude.{◌≡◌, ◌≤◌, ◌++◌, length, IfOk, OnOk, None};
ghost use Rattle.std.specs.Vec.Iter.{into_iter_items};
ghost use Rattle.osc_turn.specs.Passes.{view};
ghost use Rattle.osc_live.specs.Tokens.{IsOurs};
ghost use Rattle.osc_script.specs.Adds.{count_adds};
ghost use Rattle.osc_lanes.specs.Shares.{then_told, ended};
ghost use Rattle.osc_life.specs.Holders.{seen_by, holder_of};
ghost use Rattle.osc_lanes.specs.Ends.{part_in, IsEndOf};
ghost use Rattle.osc_lanes.specs.Performs.{told_of, IsWhole};
ghost use Rattle.osc_lanes.specs.Tells.{TellsLines};

use crate::acts::play_line;
use crate::lane::Lane;
use crate::part::{LaneTold, nothing_told};
use crate::plan::{LaneEnd, LanePlan};
use osc_life::Gate;
use osc_live::{Caller, Live};
use osc_method::Method;
use osc_script::Line;
use std::alloc::{AllocError, Global};
use std::sync::Wait;
use std::vec::IntoIter;

/// Plays a plan, up to the first line that finds the recording full. An `Err` means out of memory.
pub fn play_lane<M: Method, W: Wait, G: Gate>(
    rt: &W,
    alloc: Global,
    live: &Live<M>,
    plan: LanePlan<M>,
    gate: &G,
) -> Result<LaneEnd<M>, AllocError>
    requires ours { IsOurs live.now plan.caller }
    requires whole { IsWhole (part_in plan) }
    ensures ours { IfOk result (λ end. IsOurs live.now end.caller) }
    ensures end { IfOk result (λ end. IsEndOf M.keep M.heard live.now.caps plan end) }
{
    let LanePlan {
        lane,
        caller,
        lines,
        boxes,
    } = plan;
    let mut lane = Lane {
        number: lane,
        boxes: boxes.into_iter(),
        told: nothing_told(alloc, Vec::new(alloc)),
    };
    let caller = play_lines(rt, live, &mut lane, caller, lines, gate)?;
    let Lane {
        number,
        boxes,
        mut told,
    } = lane;
    keep_rest(&mut told.back, boxes)?;
    let LaneTold {
        faults,
        removed,
        back,
        stop,
    } = told;
    Ok(LaneEnd {
        lane: number,
        caller,
        faults,
        removed,
        back,
        stop,
    })
}

/// Plays the lines of the lane, up to the first that finds the recording full.
fn play_lines<M: Method, W: Wait, G: Gate>(
    rt: &W,
    live: &Live<M>,
    lane: &mut Lane<M>,
    mut caller: Caller,
    lines: Vec<Line>,
    gate: &G,
) -> Result<Caller, AllocError>
    requires ours { IsOurs live.now caller }
    requires handed { count_adds lines.items ≤ length (into_iter_items lane.old.boxes) }
    requires begun { lane.old.told.stop ≡ None }
    ensures ours { IfOk result (IsOurs live.now) }
    ensures holder { IfOk result
        (λ then. holder_of live.now.caps then ≡ holder_of live.now.caps caller) }
    ensures made { IfOk result (λ then. (view then.pass).made ≡ (view caller.pass).made) }
    ensures number { lane.new.number ≡ lane.old.number }
    ensures plays { IfOk result (λ then. TellsLines M.keep M.heard
        (holder_of live.now.caps caller) lines.items (into_iter_items lane.old.boxes)
        (told_of lane.old.told) (then_told (told_of lane.new.told)
        (ended (into_iter_items lane.new.boxes) (told_of lane.new.told).stop))
        (seen_by caller) (seen_by then)) }
{
    for line in lines {
        let number = line.number;
        gate.enter(lane.number, number);
        caller = play_line(rt, live, lane, caller, line, gate)?;
        gate.leave(lane.number, number);
        if lane.told.stop.is_some() {
            return Ok(caller);
        }
    }
    Ok(caller)
}

/// Keeps the boxes that no line has taken.
fn keep_rest<M: Drop>(back: &mut Vec<M>, rest: IntoIter<M>) -> Result<(), AllocError>
    ensures { OnOk result (back.new.items ≡ back.old.items ++ into_iter_items rest) }
{
    for method in rest {
        back.push(method)?;
    }
    Ok(())
}
