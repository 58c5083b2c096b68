//! The limits of a sheet.

/// The most bytes of a sheet, 1 MiB, as of a score.
pub const MAX_SHEET: usize = 1_048_576;

/// How many bytes the cues of one moment may have, each with the four of its size: what a packet
/// may have, without the 16 that begin a bundle.
pub(crate) const ROOM: usize = 65_488;
