//! What `close` answers where passes are missing.
use crate::job::Kept;
use crate::pass::Pass;
use crate::turn::Turn;

/// Fewer or more passes were handed in than were made. The turn and all passes come back as they were.
#[derive(Drop)]
pub struct StillOut<S: Kept> {
    /// How many passes were made.
    pub made: u32,
    /// How many were handed in.
    pub handed: u32,
    /// The turn, which goes on.
    pub turn: Turn<S>,
    /// The passes that were handed in.
    pub passes: Vec<Pass>,
}
