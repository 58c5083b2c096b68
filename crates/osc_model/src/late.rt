//! What becomes of late bundles.

/// What becomes of a unit that is late when it is submitted: its effective tag isn't 1, and is before the clock.
#[derive(Clone, Copy, Debug, PartialEq, Eq)]
pub enum Late {
    /// It is queued, and due at once.
    Deliver,
    /// It takes its number, and is never queued.
    Discard,
}
