// What the server's answers are in C.
ghost use Rattle.std.specs.Prelude.{◌≡◌};
ghost use Rattle.osc_model.specs.Events.{Answer as Given};
ghost use Rattle.osc_core.specs.Answers.{enrolled_of, submitted_of, adding_of, refusal_of};
ghost use Rattle.osc_core.specs.Answers.{removing_of, ticking_of, TellsRelease};
ghost use Rattle.osc_c.specs.Answers.{bare, wanting, shown, due_answer, faulty};

use crate::answer::Answer;
use crate::status;
use osc_atoms::{Fault, Room};
use osc_core::{AddRefusal, Adding, Enrolled, Releasing, Removing, Submitted, Ticking};

/// An answer that tells its number alone.
pub(crate) fn told(status: u32) -> Answer
    ensures { result ≡ bare status }
{
    Answer {
        status,
        number: 0,
        unit: 0,
        count: 0,
        late: 0,
        need: 0,
        free: 0,
    }
}

/// An answer that tells a number besides.
pub(crate) fn numbered(status: u32, number: u32) -> Answer
    ensures { result ≡ record (bare status) { number = number } }
{
    Answer {
        status,
        number,
        unit: 0,
        count: 0,
        late: 0,
        need: 0,
        free: 0,
    }
}

/// An answer that tells a number and a place.
pub(crate) fn placed(status: u32, number: u32, place: u64) -> Answer
    ensures { result ≡ record (bare status) { number = number; unit = place } }
{
    Answer {
        status,
        number,
        unit: place,
        count: 0,
        late: 0,
        need: 0,
        free: 0,
    }
}

/// An answer that tells a count.
pub(crate) fn counted(count: u32) -> Answer
    ensures { result ≡ record (bare 0) { count = count } }
{
    timed(status::OK, 0, count, 0)
}

/// An answer that tells a moment or a unit besides.
fn timed(status: u32, unit: u64, count: u32, late: u32) -> Answer
    ensures { result ≡ record (bare status) { unit = unit; count = count; late = late } }
{
    Answer {
        status,
        number: 0,
        unit,
        count,
        late,
        need: 0,
        free: 0,
    }
}

/// An answer that tells which room is lacking.
pub(crate) fn lacking(status: u32, room: Room) -> Answer
    ensures { result ≡ wanting status room.need room.free }
{
    Answer {
        status,
        number: 0,
        unit: 0,
        count: 0,
        late: 0,
        need: room.need,
        free: room.free,
    }
}

/// What a packet's fault is in C.
pub(crate) fn fault_shown(fault: Fault) -> Answer
    ensures { result ≡ faulty fault }
{
    placed(
        status::BAD_PACKET,
        u32::from(fault.kind),
        u64::from(fault.at),
    )
}

/// The moment at which the next unit is due, where one waits.
pub(crate) fn due_shown(due: Option<u64>) -> Answer
    ensures { result ≡ due_answer due }
{
    match due {
        Some(moment) => timed(status::OK, moment, 0, 0),
        None => told(status::NOTHING_DUE),
    }
}

pub(crate) fn submitted_shown(submitted: Submitted) -> Answer
    ensures { result ≡ shown (submitted_of submitted) }
{
    match submitted {
        Submitted::Queued { first, count, late } => timed(status::OK, first, count, late),
        Submitted::RecordFull(room) => lacking(status::RECORD_FULL, room),
        Submitted::UnitsFull(room) => lacking(status::UNITS_FULL, room),
        Submitted::PoolFull(room) => lacking(status::POOL_FULL, room),
    }
}

pub(crate) fn enrolled_shown(enrolled: Enrolled) -> Answer
    ensures { result ≡ shown (enrolled_of enrolled) }
{
    match enrolled {
        Enrolled::Number(caller) => numbered(status::OK, caller),
        Enrolled::RecordFull(room) => lacking(status::RECORD_FULL, room),
        Enrolled::CallersFull => told(status::CALLERS_FULL),
    }
}

pub(crate) fn adding_shown<M>(adding: &Adding<M>) -> Answer
    ensures { result ≡ shown (adding_of adding.now) }
{
    match adding {
        Adding::Added(id) => numbered(status::OK, *id),
        Adding::Refused { why, .. } => refusal_shown(*why),
    }
}

fn refusal_shown(refusal: AddRefusal) -> Answer
    ensures { result ≡ shown (refusal_of refusal) }
{
    match refusal {
        AddRefusal::RecordFull(room) => lacking(status::RECORD_FULL, room),
        AddRefusal::Taken(id) => numbered(status::TAKEN, id),
        AddRefusal::UnderMethod(id) => numbered(status::UNDER_METHOD, id),
        AddRefusal::IsContainer => told(status::IS_CONTAINER),
        AddRefusal::MethodsFull(limit) => numbered(status::METHODS_FULL, limit),
        AddRefusal::NodesFull(room) => lacking(status::NODES_FULL, room),
    }
}

pub(crate) fn removing_shown<M>(removing: &Removing<M>) -> Answer
    ensures { result ≡ shown (removing_of removing.now) }
{
    match removing {
        Removing::Removed { id, .. } => numbered(status::OK, *id),
        Removing::RecordFull(room) => lacking(status::RECORD_FULL, *room),
        Removing::NotThere => told(status::NOT_THERE),
    }
}

pub(crate) fn ticking_shown(ticking: Ticking) -> Answer
    ensures { result ≡ shown (ticking_of ticking) }
{
    match ticking {
        Ticking::Ticked => told(status::OK),
        Ticking::RecordFull(room) => lacking(status::RECORD_FULL, room),
        Ticking::ClockBack(clock) => timed(status::CLOCK_BACK, clock, 0, 0),
    }
}

pub(crate) fn releasing_shown(releasing: Releasing) -> Answer
    ensures { (given : Given) → TellsRelease releasing given → result ≡ shown given }
{
    match releasing {
        Releasing::Released { unit, calls } => timed(status::OK, unit, calls, 0),
        Releasing::NothingDue { next: None } => told(status::NOTHING_DUE),
        Releasing::NothingDue { next: Some(next) } => timed(status::NOTHING_DUE, next, 0, 0),
        Releasing::RecordFull(room) => lacking(status::RECORD_FULL, room),
    }
}
