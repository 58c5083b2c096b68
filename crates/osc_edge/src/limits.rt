//! Limits of this crate.

/// The bytes that a link is handed to put a datagram in: one more than a datagram of UDP over IPv4 has at most.
pub const MAX_DATAGRAM: usize = 65_508;
