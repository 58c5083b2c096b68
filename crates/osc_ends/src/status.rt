//! The exit statuses of the programs (docs/FORMATS.md, "Programs").

/// All was done.
pub const DONE: u8 = 0;

/// The script or the recording is refused.
pub const REFUSED: u8 = 1;

/// The words are no command.
pub const USAGE: u8 = 2;

/// There was no memory.
pub const NO_MEMORY: u8 = 3;

/// The input couldn't be read.
pub const SOURCE_FAILED: u8 = 4;

/// The output couldn't be written.
pub const SINK_FAILED: u8 = 5;

/// There was no room for an entry in the recording.
pub const RECORDING_FULL: u8 = 6;

/// A link or the clock failed.
pub const EDGE_FAILED: u8 = 7;

/// There are more adds than boxes.
pub const BANK_SHORT: u8 = 8;

/// There are more callers, of a recording and of lanes, than the recording's limits allow.
pub const CALLERS_FULL: u8 = 9;
