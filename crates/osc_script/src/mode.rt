//! The ways in which scripts are read.

/// How a script is read.
#[derive(Clone, Copy, Debug, PartialEq, Eq)]
pub enum Mode {
    /// All lines are of lane 0.
    Plain,
    /// A line's first word is the number of its lane.
    Lanes,
    /// All lines are of lane 0, and add a method.
    Serve,
}
