//! The clock on the wall.
ghost use Rattle.std.specs.Prelude.{◌≡◌, pos, ◌+ℤ◌};

use jiff_core::Offset;

/// The seconds from the start of 1899-12-30 to that of 1900-01-01, more than any clock is after
/// UTC.
const SECONDS_TO_1900: i32 = 172_800;

/// A clock that is always as far ahead of UTC. A zone's clock is one as long as its offset doesn't
/// change.
#[derive(Clone, Copy)]
pub struct WallClock {
    /// In seconds, and two days more, so that it is no negative number.
    pub(crate) ahead: u32,
}

impl WallClock {
    ghost use Rattle.std.specs.Prelude.{◌≡◌, pos, ◌+ℤ◌};

    /// The clock at this offset from UTC.
    pub fn at(offset: Offset) -> WallClock
        ensures { pos result.ahead ≡ offset.seconds +ℤ pos 172_800 }
    {
        WallClock {
            ahead: (offset.seconds + SECONDS_TO_1900) as u32,
        }
    }
}
