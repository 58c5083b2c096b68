//! What the moments of a sheet lean on.
use jiff_core::Offset;
use jiff_core::civil::Date;

/// When and where a sheet is read.
#[derive(Clone, Copy)]
pub struct Setting {
    /// The time tag of now.
    pub now: u64,
    /// Today.
    pub date: Date,
    /// How far the clock on the wall is ahead of UTC.
    pub offset: Offset,
    /// The time tag before whose moment cues are left out. Without one, cues that have gone by are
    /// wrong.
    pub skip: Option<u64>,
}

/// How bars and beats are counted.
#[derive(Clone, Copy)]
pub struct Tempo {
    /// The moment of the first beat of bar 1, in billionths of a time tag's unit.
    pub origin: u128,
    /// Beats in a thousand minutes.
    pub pace: u64,
    /// Beats in a bar.
    pub meter: u32,
}
