// Units that are handed in.
ghost use Rattle.std.specs.Prelude.{◌≡◌, ◌+◌, ◌<◌, ◌≤◌, ◌^◌, length, filter, position, IfOk};
ghost use Rattle.std.specs.List.{position_or_len};
ghost use Rattle.std.specs.Vec.{vec_len, vec_capacity};
ghost use Rattle.osc_queue.specs.Timed as timed;
ghost use Rattle.osc_model.specs.Step.{is_kept};
ghost use Rattle.osc_story.specs.Standings.{all_handed};
ghost use Rattle.osc_story.specs.Standings as spec;

use crate::waiter::Waiting;
use osc_model::{Late, keeps};
use osc_packet::{Unit, Units};
use std::alloc::{AllocError, Global};

/// How a packet's units are handed in: what becomes of late ones, the clock, who does it, and the
/// number of the first.
#[derive(Clone, Copy, Debug, PartialEq, Eq)]
pub(crate) struct Hand {
    pub(crate) late: Late,
    pub(crate) clock: u64,
    pub(crate) caller: u32,
    pub(crate) first: u64,
}

/// The units that are kept, each under its number, which is counted over all of them.
pub(crate) fn kept_units(
    alloc: Global,
    units: Units<'_>,
    hand: Hand,
) -> Result<Vec<Waiting>, AllocError>
    requires { hand.first + length units < 2 ^ 64 }
    ensures { IfOk result (λ kept. kept.items
        ≡ filter (λ item. is_kept hand.late hand.clock item.2.unit)
        (all_handed hand.caller hand.clock hand.first units.entry)) }
{
    let mut kept = Vec::new(alloc);
    let mut number = hand.first;
    for unit in units {
        if keeps(hand.late, hand.clock, &unit) {
            kept.push(Waiting::new(alloc, &unit, hand.caller, hand.clock, number)?)?;
        }
        number += 1;
    }
    Ok(kept)
}

/// The first that is taken after it.
fn first_after(waiting: &[Waiting], new: &Waiting) -> Option<usize>
    ensures { result ≡ position (timed.is_before new.now) waiting.now }
{
    waiting.iter().position(|other| new.is_before(other))
}

#[tactic(auto, using(crate::proofs::Places::places))]
/// The place before the first that is taken after it.
fn place_of(waiting: &Vec<Waiting>, new: &Waiting) -> usize
    ensures place { result ≡ position_or_len (timed.is_before new.now) waiting.now.items }
    ensures bound { result ≤ length waiting.now.items }
{
    match first_after(waiting, new) {
        Some(place) => place,
        None => waiting.len(),
    }
}

/// A unit enters at its place. There is room for it.
fn enter(waiting: &mut Vec<Waiting>, new: Waiting)
    requires { vec_len waiting.old < vec_capacity waiting.old }
    ensures items { waiting.new.items ≡ timed.enter new waiting.old.items }
    ensures len { vec_len waiting.new ≡ vec_len waiting.old + 1 }
    ensures capacity { vec_capacity waiting.old ≤ vec_capacity waiting.new }
{
    let place = place_of(waiting, &new);
    if waiting.insert(place, new).is_err() {
        unreachable!();
    }
}

/// Units enter one after another. There is room for all.
pub(crate) fn enter_all(waiting: &mut Vec<Waiting>, units: Vec<Waiting>)
    requires { vec_len waiting.old + vec_len units ≤ vec_capacity waiting.old }
    ensures { waiting.new.items ≡ spec.all_enter units.items waiting.old.items }
{
    for unit in units {
        enter(waiting, unit);
    }
}
