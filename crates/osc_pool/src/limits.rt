//! How many blocks a pool may have, and how large they are.

/// The most blocks of a pool, 4 GiB of bytes but for one block. So the length of each chain is a `u32`.
pub const MAX_BLOCKS: u32 = 67_108_863;

/// How many bytes a block has.
pub(crate) const BLOCK_SIZE: usize = 64;
