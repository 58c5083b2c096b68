//! How many links are served.

/// The most links that are served at the same time.
pub const MAX_LINKS: usize = 16;
