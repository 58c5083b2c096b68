//! The timed queue: items in the order of due moment and unit number, in a heap whose room is reserved at opening.
ghost use Rattle.std.specs.Prelude.{◌≡◌, ◌+◌, ◌-◌, ◌*◌, ◌^◌, ◌<◌, ◌≤◌, ◌↔◌, List, [], ◌∷◌, length};
ghost use Rattle.std.specs.Prelude.{Some, slice_get, IsNone, IsErr, IfOk, IfErr, IfSome, IfNone};
ghost use Rattle.std.specs.Prelude.{OnOk, OnErr, slice_index_or, vec_len, vec_capacity};
ghost use Rattle.std.specs.List.{Contains};
ghost use Rattle.std.specs.List.Sorted.{IsPermutation};
ghost use Rattle.osc_queue.specs.Timed.{due_of, enter, IsInOrder, IsLeast, IsNewUnit, NoneIsDue};
ghost use Rattle.osc_queue.specs.Views.{item_of, items_of, IsHeap};

use crate::entry::Entry;
use crate::heap::{rise, sink};
use osc_pattern::Steps;
use std::alloc::{AllocError, Global};
use std::marker::Model;
use std::sync::ledger::Ledger;

/// A queue of items, each with the moment from which it is due and the number of its unit. The item that is due
/// first is taken first, and of items that are due at one moment the one with the lowest unit number. Moments are
/// compared as numbers, as time tags are (OSC 1.0, "Temporal Semantics and OSC Time Tags").
///
/// No call but `open` takes memory, and none lets an item go.
#[derive(Drop)]
pub struct Queue<T> {
    entries: Vec<Entry<T>>,
    limit: u32,
}

impl<T> Model for Queue<T> {
    ghost use Rattle.std.specs.Prelude.{vec_capacity};
    ghost use Rattle.osc_queue.specs.Timed.{TimedQueue, timed_code};

    ghost Value = { TimedQueue T };

    ghost coded = { timed_code T.code };

    ghost use Rattle.osc_queue.specs.Views.{items_of, in_order, IsReserved};

    ghost view = { λ queue.
        record { limit = queue.limit; items = in_order (items_of queue.entries.items) } };

    ghost invariant = { λ queue. IsReserved queue.entries.items queue.limit
        (vec_capacity queue.entries) };
}

/// The queue holds as many items as it may.
#[derive(Clone, Copy, Debug, PartialEq, Eq)]
pub struct UnitsFull {
    /// How many items the queue may hold.
    pub limit: u32,
}

impl<T> Queue<T> {
    /// An empty queue, with room for `units` items. The `Err` means that there is no memory for them.
    pub fn open(alloc: Global, units: u32) -> Result<Queue<T>, AllocError>
        ensures limit { IfOk result (λ queue. queue.limit ≡ units) }
        ensures empty { IfOk result (λ queue. queue.items ≡ []) }
    {
        Ok(Queue {
            entries: Vec::with_capacity(alloc, units as usize)?,
            limit: units,
        })
    }

    /// How many more items the queue may hold.
    pub fn free(&self) -> u32
        ensures { result + length self.now.items ≡ self.now.limit }
    {
        self.limit - self.entries.len() as u32
    }

    /// Adds an item of the unit numbered `unit`, which is due from the moment `due` on. A full queue hands it back.
    pub fn push<L: Ledger>(
        &mut self,
        due: u64,
        unit: u64,
        item: T,
        steps: &mut Steps<L>,
    ) -> Result<(), (UnitsFull, T)>
        requires { IsNewUnit unit self.old.items }
        ensures full { IsErr result ↔ (length self.old.items ≡ self.old.limit) }
        ensures err { IfErr result (λ refused. refused.0.limit ≡ self.old.limit) }
        ensures handed_back { IfErr result (λ refused. refused.1 ≡ item) }
        ensures unchanged { OnErr result (self.new ≡ self.old) }
        ensures ok { OnOk result (self.new.items ≡ enter (due, unit, item) self.old.items) }
        ensures joined { OnOk result
            (IsPermutation ((due, unit, item) ∷ self.old.items) self.new.items) }
        ensures limit { self.new.limit ≡ self.old.limit }
        ensures ordered { IsInOrder self.new.items }
        ensures counted { steps.old ≤ steps.new }
        ensures bounded { 2 ^ (steps.new - steps.old) ≤ 2 * length self.old.items + 2 }
    {
        if self.entries.len() == self.limit as usize {
            return Err((UnitsFull { limit: self.limit }, item));
        }
        enter_entry(&mut self.entries, Entry { due, unit, item }, steps);
        Ok(())
    }

    /// The least item by due moment and unit number, after these two, or `None` where the queue is empty.
    pub fn first(&self) -> Option<(u64, u64, &T)>
        ensures empty { IsNone result ↔ (self.now.items ≡ []) }
        ensures head { IfSome result
            (λ first. slice_get self.now.items 0 ≡ Some (first.0, first.1, first.2.now)) }
        ensures held { IfSome result
            (λ first. Contains self.now.items (first.0, first.1, first.2.now)) }
        ensures least { IfSome result
            (λ first. IsLeast (first.0, first.1, first.2.now) self.now.items) }
        ensures ordered { IsInOrder self.now.items }
    {
        let entry = self.entries.first()?;
        Some((entry.due, entry.unit, &entry.item))
    }

    /// Takes the least item by due moment and unit number, after these two, if it is due at the moment `now`.
    pub fn pop_due<L: Ledger>(&mut self, now: u64, steps: &mut Steps<L>) -> Option<(u64, u64, T)>
        ensures none { IsNone result ↔ NoneIsDue now self.old.items }
        ensures unchanged { IfNone result (self.new ≡ self.old) }
        ensures due { IfSome result (λ taken. due_of taken ≤ now) }
        ensures least { IfSome result (λ taken. IsLeast taken self.old.items) }
        ensures taken { IfSome result (λ taken. self.old.items ≡ taken ∷ self.new.items) }
        ensures limit { self.new.limit ≡ self.old.limit }
        ensures ordered { IsInOrder self.new.items }
        ensures counted { steps.old ≤ steps.new }
        ensures bounded { 2 ^ (steps.new - steps.old) ≤ (2 * length self.old.items + 2) ^ 2 }
    {
        if self.entries.first()?.due > now {
            return None;
        }
        let Entry { due, unit, item } = leave_first(&mut self.entries, steps);
        Some((due, unit, item))
    }
}

/// An entry enters, in room that is there.
fn enter_entry<T, L: Ledger>(entries: &mut Vec<Entry<T>>, entry: Entry<T>, steps: &mut Steps<L>)
    requires heap { IsHeap entries.old.items }
    requires room { vec_len entries.old < vec_capacity entries.old }
    ensures heap { IsHeap entries.new.items }
    ensures joined { IsPermutation (item_of entry ∷ items_of entries.old.items)
        (items_of entries.new.items) }
    ensures len { vec_len entries.new ≡ vec_len entries.old + 1 }
    ensures capacity { vec_capacity entries.old ≤ vec_capacity entries.new }
    ensures counted { steps.old ≤ steps.new }
    ensures bounded { 2 ^ (steps.new - steps.old) ≤ vec_len entries.old + 1 }
{
    match entries.push(entry) {
        Ok(()) => {}
        Err(_) => unreachable!(),
    }
    let last = entries.len() - 1;
    rise(entries, last, steps);
}

/// The first entry leaves.
fn leave_first<T, L: Ledger>(entries: &mut Vec<Entry<T>>, steps: &mut Steps<L>) -> Entry<T>
    requires some { 0 < vec_len entries.old }
    requires heap { IsHeap entries.old.items }
    ensures heap { IsHeap entries.new.items }
    ensures first { result ≡ slice_index_or entries.old.items 0 result }
    ensures left { IsPermutation (items_of entries.old.items)
        (item_of result ∷ items_of entries.new.items) }
    ensures len { vec_len entries.new + 1 ≡ vec_len entries.old }
    ensures capacity { vec_capacity entries.new ≡ vec_capacity entries.old }
    ensures counted { steps.old ≤ steps.new }
    ensures bounded { 2 ^ (steps.new - steps.old) ≤ vec_len entries.old * vec_len entries.old }
{
    let first = entries.swap_remove(0);
    sink(entries, steps);
    first
}
