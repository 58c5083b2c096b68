//! The limits of limits, and the size of a header.

/// How many bytes the header of a recording has.
pub const HEADER_SIZE: u32 = 60;

/// How many bytes it has in the first version of the format.
pub(crate) const OLD_HEADER_SIZE: u32 = 56;

/// The most queued units, blocks or nodes.
pub const MAX_RESERVED: u32 = 1_048_576;

/// The most methods.
pub const MAX_METHODS: u32 = 65_536;

/// The most callers.
pub const MAX_CALLERS: u32 = 1_024;

/// The most bytes of a recording, 1 GiB.
pub const MAX_RECORDING: u32 = 1_073_741_824;
