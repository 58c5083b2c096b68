//! How many bytes are read or written at once, and how many a packet has at most.

/// The most bytes in which an atom is read or which a blob holds, 1 GiB. So each place is a `u32`.
pub const MAX_BYTES: u32 = 1_073_741_824;

/// The most bytes of a packet, whether it comes as a datagram or over a stream.
pub const MAX_PACKET: u32 = 65_504;
