//! The plan of a lane, and its end.

use osc_atoms::{Fault, Room};
use osc_live::Caller;
use osc_script::Line;

/// What one lane is given, and its caller's token.
#[derive(Drop)]
pub struct LanePlan<M> {
    pub lane: u32,
    pub caller: Caller,
    pub lines: Vec<Line>,
    /// A box for each line that adds a method.
    pub boxes: Vec<M>,
}

/// What is left of a lane that was played.
#[derive(Drop)]
pub struct LaneEnd<M> {
    pub lane: u32,
    pub caller: Caller,
    /// The line's number and the fault of each send that was refused, in line order.
    pub faults: Vec<(u32, Fault)>,
    /// Each id that the lane removed, with its box, in that order.
    pub removed: Vec<(u32, M)>,
    /// The boxes that weren't added, in line order.
    pub back: Vec<M>,
    /// The room at the first answer that the recording is full. The lane ended there.
    pub stop: Option<Room>,
}
