//! Limits of this crate.

/// How many visitors there are at a time.
pub const GUESTS: usize = 32;

/// How many are let in in a round.
pub const COMERS: usize = 16;

/// For how many rounds a visitor may stay.
pub const PATIENCE: u32 = 300;

/// How many bytes of a visitor are read in a round.
pub(crate) const PIECE: usize = 2_048;

/// How many bytes a visitor is told in a round.
pub(crate) const SHARE: usize = 65_536;
