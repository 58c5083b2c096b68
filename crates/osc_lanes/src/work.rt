//! A lane as a work of a server's life.
ghost use Rattle.std.specs.Prelude.{◌≡◌, ◌<◌, length, map, IfOk, None};
ghost use Rattle.osc_lanes.specs.Performs.{part_of, told_of, IsWhole};
ghost use Rattle.osc_lanes.specs.Shares.{Plays, ended};
ghost use Rattle.osc_lanes.specs.Works.{part_at};
ghost use Rattle.osc_record.specs.declared.limits.TheConstants.{MAX_CALLERS};

use crate::part::{LanePart, LaneTold, nothing_told};
use crate::plan::{LaneEnd, LanePlan};
use crate::worker::play_lane;
use osc_life::{Desk, Done, Gate, Worker};
use osc_live::Caller;
use osc_method::Method;
use std::alloc::{AllocError, Global};
use std::sync::Wait;

/// A lane, with its number.
#[derive(Drop)]
pub struct LaneWork<M> {
    pub lane: u32,
    pub part: LanePart<M>,
}

impl<M: Method + Send> Worker<M> for LaneWork<M> {
    type End = LaneTold<M>;

    ghost ready = { λ work. IsWhole (part_of work.part) };

    ghost plays = { λ work told holder here there. Plays M.keep M.heard holder
        work.part.lines.items work.part.boxes.items (told_of told) here there };

    fn work<W: Wait, G: Gate>(
        self,
        desk: &Desk<'_, M, W, G>,
        caller: Caller,
    ) -> Result<Done<LaneTold<M>>, AllocError> {
        let LaneWork { lane, part } = self;
        let LanePart { lines, boxes } = part;
        let plan = LanePlan {
            lane,
            caller,
            lines,
            boxes,
        };
        let end = play_lane(desk.rt, desk.alloc, desk.live, plan, desk.gate)?;
        let LaneEnd {
            caller,
            faults,
            removed,
            back,
            stop,
            ..
        } = end;
        let told = LaneTold {
            faults,
            removed,
            back,
            stop,
        };
        Ok(Done { caller, end: told })
    }
}

/// The parts, numbered from 0.
pub(crate) fn number_parts<M: Drop>(
    alloc: Global,
    parts: Vec<LanePart<M>>,
) -> Result<Vec<LaneWork<M>>, AllocError>
    requires few { length parts.items < MAX_CALLERS }
    ensures { IfOk result (λ works. map part_at works.items ≡ map part_of parts.items) }
{
    let mut works = Vec::with_capacity(alloc, parts.len())?;
    let mut lane = 0;
    for part in parts {
        works.push(LaneWork { lane, part })?;
        lane += 1;
    }
    Ok(works)
}

/// What lanes tell that weren't started.
pub(crate) fn none_played<M: Drop>(
    alloc: Global,
    works: Vec<LaneWork<M>>,
) -> Result<Vec<LaneTold<M>>, AllocError>
    ensures { IfOk result (λ lanes. map told_of lanes.items
        ≡ map (λ part. ended part.boxes None) (map part_at works.items)) }
{
    let mut lanes = Vec::with_capacity(alloc, works.len())?;
    for work in works {
        let LaneWork { part, .. } = work;
        let LanePart { boxes, .. } = part;
        lanes.push(nothing_told(alloc, boxes))?;
    }
    Ok(lanes)
}
