//! Why an entry can't be seen.

/// Why no server gives an entry after those before it. What a pattern matches isn't looked at, nor
/// why an event is refused: a replay of the whole recording does that (`osc_replay`).
#[derive(Clone, Copy, Debug, PartialEq, Eq)]
pub enum Disagreement {
    /// The bytes of a submit are no packet.
    NoPacket,
    /// A packet that was queued has another number of units, or of late ones that aren't kept; or
    /// their numbers end past 64 bits.
    OtherCount,
    /// The unit that was released isn't the first of those that wait.
    NotFirst,
    /// A release called a message that its unit doesn't have, or a method that isn't there.
    NoSuchCall,
}

/// Why an entry isn't seen.
#[derive(Clone, Copy, Debug, PartialEq, Eq)]
pub enum SeeFault {
    NoMemory,
    Disagrees(Disagreement),
}
