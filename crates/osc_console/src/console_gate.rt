//! A gate that keeps each link's answers and wakes the ticker.
use crate::{Rounds, Slot};
use osc_life::Gate;
use osc_live::Submission;

/// Leaves each answer in the slot of its link, and wakes the ticker after each datagram.
#[derive(Clone, Copy)]
pub struct ConsoleGate<'a> {
    rounds: &'a Rounds,
    slots: &'a [Slot],
}

impl<'a> ConsoleGate<'a> {
    ghost use Rattle.std.specs.Prelude.{◌≡◌};

    /// The k-th slot is the k-th link's.
    pub fn new(rounds: &'a Rounds, slots: &'a [Slot]) -> ConsoleGate<'a>
        ensures { result.slots.now ≡ slots.now }
    {
        ConsoleGate { rounds, slots }
    }
}

impl Gate for ConsoleGate<'_> {
    fn enter(&self, _worker: u32, _step: u32) {}

    fn answered(&self, worker: u32, _step: u32, submission: &Submission) {
        if let Some(slot) = self.slots.get(worker as usize) {
            slot.put(*submission);
        }
    }

    fn leave(&self, _worker: u32, _step: u32) {
        self.rounds.wake();
    }
}
