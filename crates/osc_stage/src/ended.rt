//! How a stage ends.
ghost use Rattle.std.specs.Prelude.{◌≡◌, ◌≢◌};
ghost use Rattle.osc_stage.specs.Ends as ends;

use osc_atoms::Room;

/// How a stage ended.
#[derive(Clone, Copy, Debug, PartialEq, Eq)]
pub enum Ended {
    /// All links have ended, no unit is due after them, and the recording is written.
    Done,
    /// The recording had no room for an entry. What was recorded is written.
    RecordFull(Room),
    /// A link failed; this is the least one that did, counted from 0. What was recorded is written.
    LinkFailed(u32),
    /// The clock failed, and no link. What was recorded is written.
    ClockFailed,
    /// The sink failed, and has a front of the recording. All else is done as if it hadn't.
    SinkFailed,
}

/// A failed link goes before a failed clock, and both before a full recording.
pub(crate) fn ended_by(failed: Option<u32>, clock_failed: bool, stop: Option<Room>) -> Ended
    ensures is { result ≡ ends.ended_by failed clock_failed stop }
    ensures written { result ≢ Ended.SinkFailed }
{
    match (failed, stop) {
        (Some(link), _) => Ended::LinkFailed(link),
        (None, _) if clock_failed => Ended::ClockFailed,
        (None, Some(room)) => Ended::RecordFull(room),
        (None, None) => Ended::Done,
    }
}
