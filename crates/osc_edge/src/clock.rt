//! A clock that gives moments.
ghost use Rattle.std.specs.Prelude.{◌≡◌, ℕ, List, Option};
ghost use Rattle.osc_edge.specs.Clock.{GivesMoment, HasMoments, HasClockCause};

/// What a call of a clock answers.
#[derive(Clone, Copy, Debug, PartialEq, Eq)]
pub enum Moment {
    /// The moment, in the form of a time tag: seconds since 1900 in the upper 32 bits, a fraction of one in the lower.
    At(u64),
    /// The clock failed, and counted it.
    Failed,
}

/// Something that tells the time.
pub trait Clock {
    /// The moments left, at least one, where the clock tells.
    ghost left: { Self → Option (List ℕ) };

    /// How often it has failed.
    ghost faults: { Self → ℕ };

    /// The first of the moments left, which then goes, but the last one stays.
    fn now(&mut self) -> Moment
        ensures moments { GivesMoment (left self.old) (left self.new) result }
        ensures some { HasMoments (left self.new) }
        ensures cause { HasClockCause (faults self.old) (faults self.new) result };

    /// Tells that nothing is to be done before the moment `next`, or before something new comes: the clock may wait
    /// until then. A clock that waits at each `now` need not.
    fn until(&mut self, _next: Option<u64>)
        ensures same { left self.new ≡ left self.old }
        ensures steady { faults self.new ≡ faults self.old }
    {}
}
