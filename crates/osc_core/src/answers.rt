//! What the calls of the server answer.
ghost use Rattle.std.specs.Prelude.{◌≡◌};
ghost use Rattle.std.specs.Option.{option_map};
ghost use Rattle.osc_model.specs.Events.{room_in};
ghost use Rattle.osc_record.specs.Shown.{room_of};
ghost use Rattle.osc_core.specs.Answers.{enrolled_of, submitted_of, refusal_of, adding_of};
ghost use Rattle.osc_core.specs.Answers.{removing_of, ticking_of};

use osc_atoms::Room;
use osc_pattern::Address;

/// What an enrolment is answered.
#[derive(Clone, Copy, Debug, PartialEq, Eq)]
pub enum Enrolled {
    /// The new caller's number.
    Number(u32),
    /// The entry has more bytes than the recording has left.
    RecordFull(Room),
    /// There are as many callers as there may be.
    CallersFull,
}

impl Enrolled {
    /// How much the entry needs and how much is free, where the recording had no room for it.
    pub fn stop(&self) -> Option<Room>
        ensures { option_map room_of result ≡ room_in (enrolled_of self.now) }
    {
        match self {
            Enrolled::RecordFull(room) => Some(*room),
            Enrolled::Number(_) | Enrolled::CallersFull => None,
        }
    }
}

/// What a submit is answered.
#[derive(Clone, Copy, Debug, PartialEq, Eq)]
pub enum Submitted {
    /// So many units were numbered, the first of which has this number. All wait but `late` of
    /// them, which are late and aren't kept.
    Queued { first: u64, count: u32, late: u32 },
    /// The entry has more bytes than the recording has left.
    RecordFull(Room),
    /// More of the packet's units are kept than places are free.
    UnitsFull(Room),
    /// The packet's units that are kept take more blocks of 64 bytes than are free.
    PoolFull(Room),
}

impl Submitted {
    /// How much the entry needs and how much is free, where the recording had no room for it.
    pub fn stop(&self) -> Option<Room>
        ensures { option_map room_of result ≡ room_in (submitted_of self.now) }
    {
        match self {
            Submitted::RecordFull(room) => Some(*room),
            Submitted::Queued { .. } | Submitted::UnitsFull(_) | Submitted::PoolFull(_) => None,
        }
    }
}

/// Why a method isn't added: the first of these that applies.
#[derive(Clone, Copy, Debug, PartialEq, Eq)]
pub enum AddRefusal {
    /// The entry has more bytes than the recording has left.
    RecordFull(Room),
    /// The method with this id has the address.
    Taken(u32),
    /// The method with this id has an address that is a proper prefix of the new one.
    UnderMethod(u32),
    /// A method has an address below the new one.
    IsContainer,
    /// There are as many methods as there may be, which is this number.
    MethodsFull(u32),
    /// The address needs more new nodes than are free.
    NodesFull(Room),
}

impl AddRefusal {
    /// How much the entry needs and how much is free, where the recording had no room for it.
    pub fn stop(&self) -> Option<Room>
        ensures { option_map room_of result ≡ room_in (refusal_of self.now) }
    {
        match self {
            AddRefusal::RecordFull(room) => Some(*room),
            AddRefusal::Taken(_)
            | AddRefusal::UnderMethod(_)
            | AddRefusal::IsContainer
            | AddRefusal::MethodsFull(_)
            | AddRefusal::NodesFull(_) => None,
        }
    }
}

/// What an add is answered.
#[derive(Drop)]
pub enum Adding<M> {
    /// The method was added, with this id.
    Added(u32),
    /// The address and the box come back untouched.
    Refused {
        why: AddRefusal,
        address: Address,
        method: M,
    },
}

impl<M> Adding<M> {
    /// How much the entry needs and how much is free, where the recording had no room for it.
    pub fn stop(&self) -> Option<Room>
        ensures { option_map room_of result ≡ room_in (adding_of self.now) }
    {
        match self {
            Adding::Added(_) => None,
            Adding::Refused { why, .. } => why.stop(),
        }
    }
}

/// What a removal is answered.
#[derive(Drop)]
pub enum Removing<M> {
    /// The method with this id was removed, and its box comes back with what it heard.
    Removed { id: u32, method: M },
    /// The entry has more bytes than the recording has left.
    RecordFull(Room),
    /// No method has the address.
    NotThere,
}

impl<M> Removing<M> {
    /// How much the entry needs and how much is free, where the recording had no room for it.
    pub fn stop(&self) -> Option<Room>
        ensures { option_map room_of result ≡ room_in (removing_of self.now) }
    {
        match self {
            Removing::RecordFull(room) => Some(*room),
            Removing::Removed { .. } | Removing::NotThere => None,
        }
    }
}

/// What a tick is answered.
#[derive(Clone, Copy, Debug, PartialEq, Eq)]
pub enum Ticking {
    /// The clock stands at the moment.
    Ticked,
    /// The entry has more bytes than the recording has left.
    RecordFull(Room),
    /// The moment is before the clock, which stays at this one.
    ClockBack(u64),
}

impl Ticking {
    /// How much the entry needs and how much is free, where the recording had no room for it.
    pub fn stop(&self) -> Option<Room>
        ensures { option_map room_of result ≡ room_in (ticking_of self.now) }
    {
        match self {
            Ticking::RecordFull(room) => Some(*room),
            Ticking::Ticked | Ticking::ClockBack(_) => None,
        }
    }
}

/// What a release is answered.
#[derive(Clone, Copy, Debug, PartialEq, Eq)]
pub enum Releasing {
    /// The unit with this number left the queue, and made so many calls.
    Released { unit: u64, calls: u32 },
    /// No unit is due. `next` is the least due moment in the queue, `None` where the queue is
    /// empty.
    NothingDue { next: Option<u64> },
    /// The entry has more bytes than the recording has left: the unit stays queued, and no box is
    /// called.
    RecordFull(Room),
}

/// The recording and the boxes of a server that is done.
#[derive(Drop)]
pub struct Closed<M> {
    /// The recording (docs/FORMATS.md, "The recording").
    pub bytes: Vec<u8>,
    /// The id of each registered method with its box, ascending.
    pub kept: Vec<(u32, M)>,
}
