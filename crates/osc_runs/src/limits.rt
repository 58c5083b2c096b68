//! Limits of this crate.

/// For how many milliseconds after the line before it a line still goes on with a run.
pub const GAP: u64 = 250;
