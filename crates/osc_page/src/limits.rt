//! Limits of this crate.

/// How many bytes a request's head has at most.
pub const MAX_HEAD: usize = 8_192;

/// How many fields a request's head has at most.
pub const MAX_FIELDS: usize = 64;
