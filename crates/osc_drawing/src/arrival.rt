// When what has a number came.
ghost use Rattle.std.specs.Prelude.{◌≡◌};
ghost use Rattle.osc_drawing.specs.Marks as spec;

use crate::mark::Stamp;

/// When a unit came that waits, or a method that is there.
#[derive(Clone, Copy)]
pub(crate) struct Arrival {
    pub(crate) number: u64,
    pub(crate) at: Stamp,
}

impl Arrival {
    ghost use Rattle.std.specs.Prelude.{◌≡◌, ◌==◌, not};

    fn is_of(&self, number: u64) -> bool
        ensures { result ≡ (self.now.number == number) }
    {
        self.number == number
    }

    fn is_other(&self, number: u64) -> bool
        ensures { result ≡ not (self.now.number == number) }
    {
        self.number != number
    }

    fn at(&self) -> Stamp
        ensures { result ≡ self.now.at }
    {
        self.at
    }
}

/// When what has a number came, where that is kept.
pub(crate) fn arrival_of(number: u64, arrivals: &[Arrival]) -> Option<Stamp>
    ensures { result ≡ spec.arrival_of number arrivals.now }
{
    arrivals
        .iter()
        .find(|arrival| arrival.is_of(number))
        .map(|arrival| arrival.at())
}

/// It isn't kept any longer.
pub(crate) fn take_off(arrivals: &mut Vec<Arrival>, number: u64)
    ensures { arrivals.new.items ≡ spec.without number arrivals.old.items }
{
    arrivals.retain(|arrival| arrival.is_other(number));
}
