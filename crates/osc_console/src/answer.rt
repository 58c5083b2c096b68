// What happened to each unit of a packet.
ghost use Rattle.std.specs.Prelude.{◌≡◌};
ghost use Rattle.osc_console.specs.Answers.{answer_of, queued};

use osc_core::Submitted;
use osc_live::Submission;
use osc_model::{Late, is_late};
use osc_shown::Answered;

/// What happened to a unit with this tag, by what was answered to its packet and where the server's
/// clock stood (docs/SERVER.md, "Step").
pub(crate) fn answer_of(late: Late, submission: Submission, tag: u64) -> Answered
    ensures { result ≡ answer_of late submission tag }
{
    match submission.answer {
        Submitted::RecordFull(_) => Answered::RecordFull,
        Submitted::UnitsFull(_) => Answered::UnitsFull,
        Submitted::PoolFull(_) => Answered::PoolFull,
        Submitted::Queued { .. } => queued(late, submission.clock, tag),
    }
}

/// What happened to a unit of a packet that was queued.
fn queued(late: Late, clock: u64, tag: u64) -> Answered
    ensures { result ≡ queued late clock tag }
{
    if tag > clock {
        return Answered::Waiting;
    }
    if !is_late(clock, tag) {
        return Answered::Due;
    }
    match late {
        Late::Deliver => Answered::Late,
        Late::Discard => Answered::Discarded,
    }
}
