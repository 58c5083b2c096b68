//! What a call answers.

/// What an event is answered: a number of `status`, and what it tells besides. What an answer
/// doesn't tell is 0.
#[repr(C)]
#[derive(Clone, Copy, Debug, PartialEq, Eq)]
pub struct Answer {
    /// 0, or why not.
    pub status: u32,
    /// A method's id; the kind of a fault; a limit.
    pub number: u32,
    /// The first queued unit, the unit that was released, the next moment, the clock; a fault's
    /// place.
    pub unit: u64,
    /// How many units were numbered, or calls made.
    pub count: u32,
    /// How many of the units are late.
    pub late: u32,
    /// How much was needed, and how much is free.
    pub need: u64,
    pub free: u64,
}
