//! Plays many lanes at the same time.
ghost use Rattle.std.specs.Prelude.{All, IfOk};
ghost use Rattle.std.specs.List.{AllZip, AllByRecursion};
ghost use Rattle.osc_live.specs.Tokens.{IsOurs};
ghost use Rattle.osc_life.specs.Holders.{seen_by};
ghost use Rattle.osc_lanes.specs.Ends.{IsReady, IsEndOf};
ghost use Rattle.osc_lanes.specs.Shares.{IsRemovedAt};

use crate::plan::{LaneEnd, LanePlan};
use crate::worker::play_lane;
use osc_life::{Gate, all_ended};
use osc_live::Live;
use osc_method::Method;
use std::alloc::{AllocError, Global};
use std::sync::Wait;
use std::thread;
use std::thread::Threads;

/// Plays the plans, each by a thread of its own where one can be made. The ends stand in the order
/// of the plans. An `Err` means out of memory.
pub fn play<M: Method + Send, W: Threads + Wait + Sync, G: Gate + Sync>(
    rt: &W,
    alloc: Global,
    live: &Live<M>,
    plans: Vec<LanePlan<M>>,
    gate: &G,
) -> Result<Vec<LaneEnd<M>>, AllocError>
    requires ours { All (λ plan. IsOurs live.now plan.caller) plans.items }
    requires ready { All IsReady plans.items }
    ensures ours { IfOk result (λ ends. All (λ end. IsOurs live.now end.caller) ends.items) }
    ensures ends { IfOk result
        (λ ends. AllZip (IsEndOf M.keep M.heard live.now.caps) plans.items ends.items) }
    ensures removed { IfOk result (λ ends. All (λ end. AllByRecursion
        (IsRemovedAt M.keep M.heard live.now.caps (seen_by end.caller)) end.removed.items)
        ends.items) }
{
    osc_model::laws::a_method_is_called_while_it_is_registered();
    let worker = |plan: LanePlan<M>| -> Result<LaneEnd<M>, AllocError>
        requires { IsOurs live.now plan.caller × IsReady plan }
        ensures { IfOk result
            (λ end. IsOurs live.entry.now end.caller
            × IsEndOf M.keep M.heard live.entry.now.caps plan end) }
    { play_lane(rt, alloc, live, plan, gate) };
    let ends = thread::map_vec(rt, plans, &worker)?;
    let all = all_ended(alloc, ends)?;
    Ok(all)
}
