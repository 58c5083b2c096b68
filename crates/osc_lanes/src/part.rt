//! What a lane is given, and what it tells.
ghost use Rattle.std.specs.Prelude.{◌≡◌, None};
ghost use Rattle.osc_lanes.specs.Shares.{ended};
ghost use Rattle.osc_lanes.specs.Performs.{told_of};

use osc_atoms::{Fault, Room};
use osc_script::Line;
use std::alloc::Global;

/// The lines of one lane, and a box for each line that adds a method.
#[derive(Drop)]
pub struct LanePart<M> {
    pub lines: Vec<Line>,
    pub boxes: Vec<M>,
}

/// What a lane told besides the history.
#[derive(Drop)]
pub struct LaneTold<M> {
    /// The line's number and the fault of each send that was refused, in line order.
    pub faults: Vec<(u32, Fault)>,
    /// Each id that the lane removed, with its box, in that order.
    pub removed: Vec<(u32, M)>,
    /// The boxes that weren't added, in line order.
    pub back: Vec<M>,
    /// The room at the first answer that the recording is full. The lane ended there.
    pub stop: Option<Room>,
}

/// What a lane tells that has played no line, where these boxes come back.
pub(crate) fn nothing_told<M: Drop>(alloc: Global, back: Vec<M>) -> LaneTold<M>
    ensures told { told_of result ≡ ended back.items None }
    ensures stop { result.stop ≡ None }
{
    LaneTold {
        faults: Vec::new(alloc),
        removed: Vec::new(alloc),
        back,
        stop: None,
    }
}
