//! A clock in memory that gives its moments in order, and fails at the calls in a list.
ghost use Rattle.std.specs.Prelude.{◌≡◌, ◌<◌, length, drop, Some, vec_len};

use crate::calls::Calls;
use crate::{Clock, Moment};

/// Moments in memory, one a call; after the last one that one again. Calls whose numbers, from 1, stand in a list
/// fail.
#[derive(Drop)]
pub struct MemoryClock {
    moments: Vec<u64>,
    at: usize,
    calls: Calls,
    faults: u64,
    ghost within: { at < vec_len moments },
}

impl MemoryClock {
    ghost use Rattle.osc_edge.specs.Memory.{clock_calls};

    /// Takes no memory. There is at least one moment.
    pub fn open(moments: Vec<u64>, fails: Vec<u32>) -> Self
        requires some { 0 < length moments.items }
        ensures left { ⟦<MemoryClock as Clock>⟧.left result ≡ Some moments.items }
        ensures faults { ⟦<MemoryClock as Clock>⟧.faults result ≡ 0 }
        ensures calls { clock_calls result ≡ record { made = 0; fails = fails.items } }
    {
        MemoryClock {
            moments,
            at: 0,
            calls: Calls::open(fails),
            faults: 0,
        }
    }
}

impl Clock for MemoryClock {
    ghost use Rattle.osc_edge.specs.Calls.{one_more};
    ghost use Rattle.osc_edge.specs.Clock.{GivesMoment, HasMoments, HasClockCause};
    ghost use Rattle.osc_edge.specs.Memory.{clock_calls, clock_moments, moment_of};

    ghost left = { λ c. Some (drop c.at c.moments.items) };

    ghost faults = { λ c. c.faults };

    /// Fails at the calls in the list, and gives the next moment at every other.
    fn now(&mut self) -> Moment
        ensures moments { GivesMoment (Some (clock_moments self.old))
            (Some (clock_moments self.new)) result }
        ensures some { HasMoments (Some (clock_moments self.new)) }
        ensures cause { HasClockCause self.old.faults self.new.faults result }
        ensures answer { result ≡ moment_of (clock_calls self.old) (clock_moments self.old) }
        ensures calls { clock_calls self.new ≡ one_more (clock_calls self.old) }
    {
        if self.calls.next_fails() {
            self.faults = self.faults.saturating_add(1);
            return Moment::Failed;
        }
        let moment = self.moments[self.at];
        if self.at + 1 < self.moments.len() {
            self.at += 1;
        }
        Moment::At(moment)
    }
}
