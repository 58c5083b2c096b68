//! The limits of scores.

/// The most bytes of a score, 1 MiB.
pub const MAX_SCORE: usize = 1_048_576;

/// The most distinct addresses of a score.
pub const MAX_ADDRESSES: u32 = 1_024;

/// The most nodes that the addresses of a score may make.
pub const MAX_NODES: u32 = 4_096;

/// The most bundles of a script that are sent before they are played.
pub const BATCH_SIZE: usize = 16;
