//! How what was played ended.
ghost use Rattle.std.specs.Prelude.{◌≡◌};
ghost use Rattle.std.specs.Option.{option_map};
ghost use Rattle.osc_record.specs.Shown.{room_of};
ghost use Rattle.osc_ends.specs.Outcomes as outcomes;

use crate::status::{DONE, EDGE_FAILED, RECORDING_FULL};
use osc_atoms::Room;

/// How what was played ended, but for what is written of it.
#[derive(Clone, Copy, Debug, PartialEq, Eq)]
pub enum Outcome {
    /// All of it was played.
    Done,
    /// There was no room for an entry in the recording: so many bytes were needed, and so many were
    /// free.
    Full { need: u64, free: u64 },
    /// A link failed; this is the least one that did.
    LinkFailed(u32),
    /// The clock failed, and no link.
    ClockFailed,
}

/// The status of what was played and written.
pub fn status_of(outcome: Outcome) -> u8
    ensures { result ≡ outcomes.status_of outcome }
{
    match outcome {
        Outcome::Done => DONE,
        Outcome::Full { .. } => RECORDING_FULL,
        Outcome::LinkFailed(_) | Outcome::ClockFailed => EDGE_FAILED,
    }
}

/// All was played, or an event wanted more room than was left.
pub fn stopped(stop: Option<Room>) -> Outcome
    ensures { result ≡ outcomes.stopped (option_map room_of stop) }
{
    match stop {
        None => Outcome::Done,
        Some(room) => Outcome::Full {
            need: room.need,
            free: room.free,
        },
    }
}
