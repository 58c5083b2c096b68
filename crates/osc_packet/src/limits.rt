//! The limits of bundles, the size of a block, and the most bytes of a unit that is kept.

/// The most bytes of the messages of one unit where they are kept, each after its length in 4 bytes.
pub const MAX_STORED: u32 = 65_508;

/// How many bytes a block of room for stored messages has.
pub const BLOCK_SIZE: u32 = 64;

/// How many bytes a bundle begins with: the bundle word and its tag (OSC 1.0, "OSC Bundles").
pub(crate) const BUNDLE_HEAD: usize = 16;

/// How deep bundles may be nested.
pub(crate) const MAX_DEPTH: usize = 16;
