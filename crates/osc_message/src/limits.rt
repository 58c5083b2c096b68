//! The limits of messages that are built.

/// The most bytes of a message that is built, as many as a packet may have.
pub const MAX_BUILT: usize = 65_504;

/// The most bytes of a pattern that is built. It leaves room for a tag string.
pub const MAX_BUILT_PATTERN: usize = 65_000;
