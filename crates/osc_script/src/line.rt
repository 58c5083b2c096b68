//! A line of a script.
use crate::act::Act;

/// A line that says something.
#[derive(Drop)]
pub struct Line {
    /// The line's number in the input, counted from 1, skipped lines too.
    pub number: u32,
    /// The line's lane in mode `Lanes`, else 0.
    pub lane: u32,
    /// What it says.
    pub act: Act,
}
