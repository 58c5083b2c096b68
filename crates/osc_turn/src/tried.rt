//! What a call answers that does not wait for the turn.

/// The result of a try.
#[derive(Clone, Copy, PartialEq, Eq, Debug)]
pub enum Tried {
    /// The job was run, and whether it added an entry.
    Done(bool),
    /// Another call had the turn, or took it first. `found` is the turn's word that was found last.
    Busy { found: u64 },
}
