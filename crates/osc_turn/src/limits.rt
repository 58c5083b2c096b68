//! How many passes a turn makes.

/// The most passes that a turn makes, the first one among them.
pub const MAX_PASSES: u32 = 65_536;
