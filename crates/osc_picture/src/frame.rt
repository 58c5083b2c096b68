//! Where a moment stands.
ghost use Rattle.std.specs.Prelude.{◌≡◌, ◌≤◌, max, min};
ghost use Rattle.osc_picture.specs.Frames as spec;

/// From when to when a picture goes, in milliseconds, or in calls where they stand in their order.
#[derive(Clone, Copy)]
pub struct Frame {
    pub first: u64,
    pub last: u64,
    /// How far the clock on the wall is ahead, in milliseconds, for the scale.
    pub ahead: u64,
    /// Calls stand in their order, since the clock doesn't move.
    pub by_order: bool,
    /// Calls of one row that share a column are one mark.
    pub thinned: bool,
}

/// Where the plot begins, and where it ends.
pub(crate) const LEFT: u64 = 1700;

pub(crate) const RIGHT: u64 = 7740;

/// How wide a column is.
const COLUMN: u64 = 14;

impl Frame {
    ghost use Rattle.std.specs.Prelude.{◌≡◌, ◌≤◌};
    ghost use Rattle.osc_picture.specs.Frames as spec;

    /// How long it goes, at least 1.
    pub(crate) fn length(self) -> u64
        ensures value { result ≡ spec.length_of self }
        ensures some { 1 ≤ result }
    {
        self.last.saturating_sub(self.first).max(1)
    }

    /// How far from the left edge of the picture a moment stands.
    pub(crate) fn x(self, at: u64) -> u64
        ensures value { result ≡ spec.x_of self at }
        ensures right { result ≤ 7740 }
    {
        LEFT + along(at.saturating_sub(self.first), self.length())
    }

    /// Where it stands whose end isn't there: at the right edge.
    pub(crate) fn end(self, to: Option<u64>) -> u64
        ensures value { result ≡ spec.end_of self to }
        ensures right { result ≤ 7740 }
    {
        match to {
            Some(to) => self.x(to),
            None => RIGHT,
        }
    }

    /// How wide the places are that are one.
    pub(crate) fn width(self) -> u64
        ensures value { result ≡ spec.width_of self }
        ensures some { 1 ≤ result }
    {
        if self.thinned { COLUMN } else { 1 }
    }

    /// The column of a moment.
    pub(crate) fn column(self, at: u64) -> u64
        ensures { result ≡ spec.column_of self at }
    {
        self.x(at) / self.width()
    }
}

/// How far along the plot a part of a length is.
fn along(part: u64, length: u64) -> u64
    requires { 1 ≤ length }
    ensures value { result ≡ spec.along part length }
    ensures within { result ≤ 6040 }
{
    (u128::from(part) * 6040 / u128::from(length)).min(6040) as u64
}
