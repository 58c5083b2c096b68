// Entries as a binary heap: the one that is taken first stands first, and none is taken before the one above it.
ghost use Rattle.std.specs.Prelude.{◌≡◌, ◌+◌, ◌*◌, ◌^◌, ◌-◌, ◌<◌, ◌≤◌, length, IsTrue, false};
ghost use Rattle.std.specs.Prelude.{IfSome, IfNone};
ghost use Rattle.std.specs.List.Sorted.{IsPermutation};
ghost use Rattle.osc_queue.specs.Views.{before_at, above, IsHeap};
ghost use Rattle.osc_queue.specs.Heaps.{Rises, Sinks, IsFirstBelow};

use crate::entry::Entry;
use osc_pattern::Steps;
use std::sync::ledger::Ledger;

/// The entry in a place goes up to where no entry above it is taken after it.
pub(crate) fn rise<T, L: Ledger>(entries: &mut [Entry<T>], place: usize, steps: &mut Steps<L>)
    requires within { 0 < place → place < length entries.old }
    requires heap { Rises place entries.old }
    ensures heap { IsHeap entries.new }
    ensures same { IsPermutation entries.old entries.new }
    ensures counted { steps.old ≤ steps.new }
    ensures bounded { 2 ^ (steps.new - steps.old) ≤ place + 1 }
{
    let mut place = place;
    while place > 0 && rise_once(entries, place, steps) {
        place = (place - 1) / 2;
    }
}

/// The entry changes places with the one above it if it is taken before that.
fn rise_once<T, L: Ledger>(entries: &mut [Entry<T>], place: usize, steps: &mut Steps<L>) -> bool
    requires some { 0 < place }
    requires within { place < length entries.old }
    requires heap { Rises place entries.old }
    ensures risen { IsTrue result → Rises (above place) entries.new }
    ensures over { result ≡ false → IsHeap entries.new }
    ensures same { IsPermutation entries.old entries.new }
    ensures counted { steps.new ≡ steps.old + 1 }
{
    let next = (place - 1) / 2;
    let rises = entries[place].is_before(&entries[next], steps);
    if rises {
        entries.swap(place, next);
    }
    rises
}

/// The first entry goes down to where none is below it, and from there up to where no entry above it is taken after
/// it. So on the way down no entry is compared with it: it was the last one, and most of those belong near the end.
pub(crate) fn sink<T, L: Ledger>(entries: &mut [Entry<T>], steps: &mut Steps<L>)
    requires heap { Sinks 0 entries.old }
    ensures heap { IsHeap entries.new }
    ensures same { IsPermutation entries.old entries.new }
    ensures counted { steps.old ≤ steps.new }
    ensures bounded { 2 ^ (steps.new - steps.old)
        ≤ (length entries.old + 1) * (length entries.old + 1) }
{
    if entries.len() < 2 {
        return;
    }
    let place = fall(entries, steps);
    rise(entries, place, steps);
}

/// The first entry goes down to where none is below it. Tells where it is then.
fn fall<T, L: Ledger>(entries: &mut [Entry<T>], steps: &mut Steps<L>) -> usize
    requires heap { Sinks 0 entries.old }
    ensures heap { Rises result entries.new }
    ensures within { 0 < result → result < length entries.new }
    ensures same { IsPermutation entries.old entries.new }
    ensures counted { steps.old ≤ steps.new }
    ensures bounded { 2 ^ (steps.new - steps.old) ≤ result + 1 }
{
    let mut place = 0;
    while let Some(next) = fall_once(entries, place, steps) {
        place = next;
    }
    place
}

/// The entry changes places with the first of those right below it. Tells where it is then.
fn fall_once<T, L: Ledger>(
    entries: &mut [Entry<T>],
    place: usize,
    steps: &mut Steps<L>,
) -> Option<usize>
    requires within { place ≤ length entries.old }
    requires heap { Sinks place entries.old }
    ensures fallen { IfSome result (λ next. Sinks next entries.new) }
    ensures lower { IfSome result (λ next. (2 * place < next) × (next < length entries.old)) }
    ensures over { IfNone result (Rises place entries.new) }
    ensures same { IsPermutation entries.old entries.new }
    ensures counted { (steps.old ≤ steps.new) × (steps.new ≤ steps.old + 1) }
    ensures last { IfNone result (steps.new ≡ steps.old) }
{
    let child = first_below(entries, place, steps)?;
    entries.swap(place, child);
    Some(child)
}

/// The place right below this one whose entry is taken first, if there is one.
fn first_below<T, L: Ledger>(
    entries: &[Entry<T>],
    place: usize,
    steps: &mut Steps<L>,
) -> Option<usize>
    requires within { place ≤ length entries.now }
    ensures found { IsFirstBelow entries.now place result }
    ensures lower { IfSome result (λ child. 2 * place < child) }
    ensures counted { (steps.old ≤ steps.new) × (steps.new ≤ steps.old + 1) }
    ensures few { length entries.now ≤ 2 * place + 1 → steps.new ≡ steps.old }
{
    let left = 2 * place + 1;
    let right = left + 1;
    if right < entries.len() {
        let is_right = entries[right].is_before(&entries[left], steps);
        return Some(if is_right { right } else { left });
    }
    if left < entries.len() {
        Some(left)
    } else {
        None
    }
}
