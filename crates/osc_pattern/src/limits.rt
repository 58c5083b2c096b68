//! The limits of patterns and addresses.

/// The most bytes of a pattern, 1 GiB.
pub const MAX_PATTERN: usize = 1_073_741_824;

/// The most bytes of a name.
pub const MAX_NAME: usize = 63;

/// The most bytes of an address.
pub const MAX_ADDRESS: usize = 255;

/// The most places of a name: before each of its bytes, and at its end.
pub const MAX_PLACES: usize = 64;

/// The most names of an address.
pub const MAX_NAMES: usize = 16;

/// The most items of a part that are made ready. What follows them is read anew for each name.
pub(crate) const MOST_READY: usize = 144;
