//! Calls of the queue for whoever doesn't count steps.
ghost use Rattle.std.specs.Prelude.{◌≡◌, ◌↔◌, ◌<◌, ◌≤◌, ◌∷◌, length, IsNone, IfSome, IfNone};
ghost use Rattle.osc_queue.specs.Timed.{NoneIsDue, IsNewUnit, due_of, enter};

use crate::Queue;
use osc_pattern::Steps;
use std::marker::Brand;
use std::sync::ledger::{Blank, Ledger};

impl<T> Queue<T> {
    ghost use Rattle.std.specs.Prelude.{◌≡◌, ◌↔◌, ◌<◌, ◌≤◌, ◌∷◌, length, IsNone, IfSome, IfNone};
    ghost use Rattle.osc_queue.specs.Timed.{NoneIsDue, IsNewUnit, due_of, enter};

    /// Adds an item in a place that is free, as `push` does.
    pub fn enter(&mut self, due: u64, unit: u64, item: T)
        requires new { IsNewUnit unit self.old.items }
        requires place { length self.old.items < self.old.limit }
        ensures items { self.new.items ≡ enter (due, unit, item) self.old.items }
        ensures limit { self.new.limit ≡ self.old.limit }
    {
        enter_in::<T, Brand>(self, due, unit, item, Blank::new(1));
    }

    /// Takes the least item, if it is due at the moment `now`, as `pop_due` does.
    pub fn take_due(&mut self, now: u64) -> Option<(u64, u64, T)>
        ensures none { IsNone result ↔ NoneIsDue now self.old.items }
        ensures unchanged { IfNone result (self.new ≡ self.old) }
        ensures due { IfSome result (λ taken. due_of taken ≤ now) }
        ensures taken { IfSome result (λ taken. self.old.items ≡ taken ∷ self.new.items) }
        ensures limit { self.new.limit ≡ self.old.limit }
    {
        take_from::<T, Brand>(self, now, Blank::new(1))
    }
}

fn enter_in<T, L: Ledger>(queue: &mut Queue<T>, due: u64, unit: u64, item: T, blank: Blank)
    requires name { blank.name ≡ L.name }
    requires parts { blank.parts ≡ L.parts }
    requires some { 0 < blank.parts }
    requires new { IsNewUnit unit queue.old.items }
    requires place { length queue.old.items < queue.old.limit }
    ensures items { queue.new.items ≡ enter (due, unit, item) queue.old.items }
    ensures limit { queue.new.limit ≡ queue.old.limit }
{
    let mut steps = Steps::<L>::new(blank);
    match queue.push(due, unit, item, &mut steps) {
        Ok(()) => {}
        Err(_) => unreachable!(),
    }
}

fn take_from<T, L: Ledger>(queue: &mut Queue<T>, now: u64, blank: Blank) -> Option<(u64, u64, T)>
    requires name { blank.name ≡ L.name }
    requires parts { blank.parts ≡ L.parts }
    requires some { 0 < blank.parts }
    ensures none { IsNone result ↔ NoneIsDue now queue.old.items }
    ensures unchanged { IfNone result (queue.new ≡ queue.old) }
    ensures due { IfSome result (λ taken. due_of taken ≤ now) }
    ensures taken { IfSome result (λ taken. queue.old.items ≡ taken ∷ queue.new.items) }
    ensures limit { queue.new.limit ≡ queue.old.limit }
{
    let mut steps = Steps::<L>::new(blank);
    queue.pop_due(now, &mut steps)
}
