// Where marks stand in a picture.
ghost use Rattle.std.specs.Prelude.{◌≡◌, ◌<◌, ◌^◌};
ghost use Rattle.osc_drawing.specs.Rows as spec;

use crate::mark::Stamp;
use osc_picture::{Frame, Stay};

/// From when to when a picture goes, when its first recording begins, and when its last one ends.
#[derive(Clone, Copy)]
pub(crate) struct View {
    pub(crate) frame: Frame,
    pub(crate) begin: u64,
    pub(crate) end: Stamp,
}

impl View {
    ghost use Rattle.std.specs.Prelude.{◌≡◌};
    ghost use Rattle.osc_drawing.specs.Rows as spec;

    /// Where something stands: which call it is, or when it was.
    pub(crate) fn at(self, stamp: Stamp) -> u64
        ensures { result ≡ spec.at_of self stamp }
    {
        if self.frame.by_order {
            return stamp.order;
        }
        millis_of(stamp.moment).max(self.begin)
    }

    /// Until when something stands that stood at the end of its recording: until then, or on where that
    /// is the last one.
    pub(crate) fn until(self, end: Stamp) -> Option<u64>
        ensures { result ≡ spec.until_of self end }
    {
        if end.moment == self.end.moment && end.order == self.end.order {
            return None;
        }
        Some(self.at(end))
    }

    /// Whether that is within the picture.
    pub(crate) fn is_within(self, at: u64) -> bool
        ensures { result ≡ spec.is_within self at }
    {
        self.frame.first <= at && at <= self.frame.last
    }

    /// Whether a stay has something within it.
    pub(crate) fn meets(self, stay: Stay) -> bool
        ensures { result ≡ spec.meets self stay }
    {
        stay.from <= self.frame.last && self.ends_within(stay.to)
    }

    fn ends_within(self, to: Option<u64>) -> bool
        ensures { result ≡ spec.ends_within self to }
    {
        match to {
            Some(to) => self.frame.first <= to,
            None => true,
        }
    }
}

/// The milliseconds since the start of 1900, to the nearest.
pub(crate) fn millis_of(moment: u64) -> u64
    ensures { result ≡ spec.millis_of moment }
{
    ((u128::from(moment) * 1000 + 2_147_483_648) / 4_294_967_296) as u64
}
