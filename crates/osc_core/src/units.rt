// The queued units: the queue has their places and chains, and the store their messages.
ghost use Rattle.std.specs.Prelude.{◌≡◌, ◌+◌, ◌<◌, ◌≤◌, length, drop};
ghost use Rattle.osc_packet.specs.Units.{blocks};
ghost use Rattle.osc_pool.specs.Holding.{used_blocks};
ghost use Rattle.osc_queue.specs.Timed as timed;
ghost use Rattle.osc_model.specs.Step as step;
ghost use Rattle.osc_core.specs.Views.{queue_of, AreKept, AreQueued};

use crate::store::{Store, Stored};
use osc_packet::Unit;
use osc_queue::Queue;

/// One unit enters, due at its tag or at the clock, whichever is greater.
pub(crate) fn enter(
    queue: &mut Queue<Stored>,
    store: &mut Store,
    unit: &Unit<'_>,
    clock: u64,
    number: u64,
)
    requires running { AreQueued store.old queue.old.items number }
    requires place { length queue.old.items < queue.old.limit }
    requires blocks { used_blocks store.old + blocks unit.now ≤ length store.old }
    ensures queue { queue_of store.new queue.new.items
        ≡ timed.enter (step.waiting clock number unit.now) (queue_of store.old queue.old.items) }
    ensures running { AreQueued store.new queue.new.items (number + 1) }
    ensures length { length queue.new.items ≡ length queue.old.items + 1 }
    ensures used { used_blocks store.new ≡ used_blocks store.old + blocks unit.now }
    ensures places { queue.new.limit ≡ queue.old.limit }
    ensures limit { length store.new ≡ length store.old }
{
    let due = unit.tag().max(clock);
    let stored = store.put(unit);
    queue.enter(due, number, stored);
}

/// The first unit leaves, where one is due.
pub(crate) fn take_first(queue: &mut Queue<Stored>, store: &mut Store, now: u64)
    requires kept { AreKept store.old queue.old.items }
    requires due { timed.NoneIsDue now queue.old.items → ⊥ }
    ensures queue { queue_of store.new queue.new.items
        ≡ drop 1 (queue_of store.old queue.old.items) }
    ensures items { queue.new.items ≡ drop 1 queue.old.items }
    ensures kept { AreKept store.new queue.new.items }
    ensures places { queue.new.limit ≡ queue.old.limit }
    ensures limit { length store.new ≡ length store.old }
{
    match queue.take_due(now) {
        Some((_, _, stored)) => store.give(stored),
        None => unreachable!(),
    }
}
