// An item that is kept, and the one comparison of two of them.
ghost use Rattle.std.specs.Prelude.{◌≡◌, ◌+◌};
ghost use Rattle.osc_queue.specs.Timed.{is_before};
ghost use Rattle.osc_queue.specs.Views.{item_of};

use osc_pattern::Steps;
use std::sync::ledger::Ledger;

/// An item that is kept, with its due moment and the number of its unit.
#[derive(Drop)]
pub(crate) struct Entry<T> {
    pub(crate) due: u64,
    pub(crate) unit: u64,
    pub(crate) item: T,
}

impl<T> Entry<T> {
    /// Whether this one is taken before the other. Each comparison is one step.
    pub(crate) fn is_before<L: Ledger>(&self, other: &Entry<T>, steps: &mut Steps<L>) -> bool
        ensures value { result ≡ is_before (item_of self.now) (item_of other.now) }
        ensures counted { steps.new ≡ steps.old + 1 }
    {
        steps.tick();
        self.due < other.due || (self.due == other.due && self.unit < other.unit)
    }
}
