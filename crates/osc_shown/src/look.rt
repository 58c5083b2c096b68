//! How lines look.
use crate::WallClock;

/// How lines look, and which of them are shown.
#[derive(Clone, Copy)]
pub struct Look {
    /// Whose time of day is shown.
    pub clock: WallClock,
    /// From which time tag on lines count seconds in place of the time of day, if from one.
    pub since: Option<u64>,
    /// Who has handed in what lines show, by its number, if it is shown.
    pub caller: Option<u32>,
    /// Texts, blobs and lists of addresses are shown whole, however long they are.
    pub whole: bool,
    /// Whole lines are coloured by their marks, for a terminal.
    pub colours: bool,
    /// Only the lines with the marks `!` and `?` are shown.
    pub quiet: bool,
}
