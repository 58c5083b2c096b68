//! The result of a script.

use crate::outcome::Outcome;
use osc_print::Text;

/// The result of a script.
#[derive(Drop)]
pub struct Recorded {
    /// The recording of its history.
    pub bytes: Vec<u8>,
    /// The lines of the faults, and after them those of what was listed.
    pub faults: Text,
    /// How it ended.
    pub outcome: Outcome,
}
