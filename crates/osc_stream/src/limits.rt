// Limits of this crate.

/// How many bytes a size and its packet have at most.
pub(crate) const MAX_FRAME: usize = 65_508;

/// A stream takes no more once so many bytes were taken.
pub(crate) const LIMIT: u64 = 1 << 63;
