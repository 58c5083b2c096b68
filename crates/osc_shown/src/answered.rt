//! What the server answered.

/// What the server answered about a unit: its own answer to the packet, and what its rules make of
/// each unit of it (docs/SERVER.md, "Step").
#[derive(Clone, Copy, Debug, PartialEq, Eq)]
pub enum Answered {
    /// It is queued and due, or was released.
    Due,
    /// The same, and its time tag was over when it came.
    Late,
    /// It is queued, and waits for its time tag.
    Waiting,
    /// Its time tag was over when it came, and it isn't queued.
    Discarded,
    /// Its packet is refused: the queue has no place for its units.
    UnitsFull,
    /// Its packet is refused: there is no room for its messages.
    PoolFull,
    /// Its packet is refused: the recording has no room for it.
    RecordFull,
}
