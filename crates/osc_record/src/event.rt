//! Events, their answers, and entries of the two.
ghost use Rattle.osc_record.specs.Shown.{HasWholeHits};

use osc_atoms::Room;

/// What a caller hands in.
#[derive(Clone, Copy, Debug, PartialEq, Eq)]
pub enum Event<'a> {
    Enrol,
    /// The bytes of a packet.
    Submit(&'a [u8]),
    /// An address.
    Add(&'a [u8]),
    Remove(&'a [u8]),
    /// The moment.
    Tick(u64),
    Release,
}

/// What an event is answered; docs/FORMATS.md, "The recording", has the answers of each event.
#[derive(Clone, Copy, Debug, PartialEq, Eq)]
pub enum Answer<'a> {
    /// A new caller's number.
    Number(u32),
    CallersFull,
    /// The number of the packet's first unit, how many units it has, and how many of them are late
    /// and aren't kept.
    Queued { first: u64, count: u32, late: u32 },
    UnitsFull(Room),
    PoolFull(Room),
    /// The method's id.
    Added(u32),
    /// The id of the method at the address.
    Taken(u32),
    /// The id of the method above the address.
    UnderMethod(u32),
    IsContainer,
    /// How many methods there may be.
    MethodsFull(u32),
    NodesFull(Room),
    /// The method's id.
    Removed(u32),
    NotThere,
    Ticked,
    /// The clock that is kept.
    ClockBack(u64),
    /// The unit's number, and two words for each invocation: the message's index and the method's
    /// id.
    Released { unit: u64, hits: &'a [u8] },
}

/// An entry of a recording.
#[derive(Clone, Copy, Debug, PartialEq, Eq)]
pub struct Entry<'a> {
    /// Its place in the recording.
    pub at: u32,
    /// Who handed the event in.
    pub caller: u32,
    /// What was handed in.
    pub event: Event<'a>,
    /// What it was answered.
    pub answer: Answer<'a>,
    pub ghost whole: { HasWholeHits answer },
}
