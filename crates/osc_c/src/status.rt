//! The numbers that calls answer; `vestrulj.h` says what else each call tells with them.

/// Done.
pub const OK: u32 = 0;
/// No unit is due.
pub const NOTHING_DUE: u32 = 1;
/// The recording has no room for the entry.
pub const RECORD_FULL: u32 = 2;
/// Too few places in the queue.
pub const UNITS_FULL: u32 = 3;
/// Too few blocks of 64 bytes for the messages.
pub const POOL_FULL: u32 = 4;
/// A method has the address.
pub const TAKEN: u32 = 5;
/// A method has a prefix of the address.
pub const UNDER_METHOD: u32 = 6;
/// A method has an address below this one.
pub const IS_CONTAINER: u32 = 7;
/// There are as many methods as there may be.
pub const METHODS_FULL: u32 = 8;
/// Too few nodes of addresses.
pub const NODES_FULL: u32 = 9;
/// No method has the address.
pub const NOT_THERE: u32 = 10;
/// The moment is before the clock.
pub const CLOCK_BACK: u32 = 11;
/// The bytes are no packet.
pub const BAD_PACKET: u32 = 12;
/// The bytes are no address.
pub const BAD_ADDRESS: u32 = 13;
/// A limit is outside its range.
pub const BAD_LIMIT: u32 = 14;
/// Out of memory, and nothing has changed.
pub const NO_MEMORY: u32 = 15;
/// The server is closed, or was never opened.
pub const IS_CLOSED: u32 = 16;
/// The server is open already.
pub const IS_OPEN: u32 = 17;
/// All calls of the last release are read.
pub const NO_CALL: u32 = 18;
/// The buffer is too small, and what it was for stays.
pub const BUFFER_SMALL: u32 = 19;
/// There are as many callers as there may be.
pub const CALLERS_FULL: u32 = 20;
/// The caller's number wasn't given.
pub const NOT_ENROLLED: u32 = 21;
/// The bytes are no address pattern.
pub const BAD_PATTERN: u32 = 22;
/// An argument is at fault.
pub const BAD_ARGUMENT: u32 = 23;
/// A pattern or a message is too long.
pub const TOO_LONG: u32 = 24;
/// The array brackets don't balance.
pub const BRACKETS: u32 = 25;
