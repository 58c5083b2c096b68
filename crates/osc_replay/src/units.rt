// Units that wait, with the blocks that they take.
ghost use Rattle.std.specs.Prelude.{◌≡◌, ◌≤◌, ◌+◌, ◌<◌, ◌^◌, ◌∷◌, [], length};
ghost use Rattle.osc_packet.specs.Reading.{units_read};
ghost use Rattle.osc_queue.specs.Timed as timed;
ghost use Rattle.osc_model.specs.State.{AreNumbered};
ghost use Rattle.osc_model.specs.Step as step;

use osc_model::{Late, keeps};
use osc_packet::{Packet, Unit, UnitMessages, Units};
use osc_queue::Queue;
use std::marker::Model;

/// A unit of a packet in the recording, and how many blocks it takes. A contract sees the unit.
#[derive(Drop)]
pub(crate) struct Queued<'a> {
    unit: Unit<'a>,
    blocks: u32,
}

impl<'a> Model for Queued<'a> {
    ghost use Rattle.osc_packet.specs.Units.{TimedUnit};
    ghost use Rattle.osc_replay.specs.Kept.{IsKept};

    ghost Value = { TimedUnit };

    ghost view = { λ q. q.unit };

    ghost invariant = { λ q. IsKept q.unit q.blocks };
}

impl<'a> Queued<'a> {
    ghost use Rattle.std.specs.Prelude.{◌≡◌, ◌≤◌, length};
    ghost use Rattle.osc_packet.specs.Units.{blocks};

    fn new(unit: Unit<'a>) -> Queued<'a>
        ensures { result ≡ unit.entry }
    {
        let blocks = unit.blocks();
        Queued { unit, blocks }
    }

    fn tag(&self) -> u64
        ensures { result ≡ self.now.tag }
    {
        self.unit.tag()
    }

    /// How many blocks of 64 bytes the messages take, each after its length in 4 bytes.
    pub(crate) fn blocks(&self) -> u32
        ensures { result ≡ blocks self.now }
    {
        self.blocks
    }

    /// The messages in order.
    pub(crate) fn messages(&self) -> UnitMessages<'a>
        ensures value { result ≡ self.now.messages }
        ensures few { length self.now.messages ≤ 16377 }
    {
        self.unit.messages()
    }
}

/// The units of a packet that are kept enter, numbered from `first` on as all of them are. Most
/// packets are a message alone, which has one unit.
pub(crate) fn enter_packet<'a>(
    queue: &mut Queue<Queued<'a>>,
    packet: &Packet<'a>,
    late: Late,
    clock: u64,
    first: u64,
)
    requires given { AreNumbered first queue.old.items }
    requires numbers { first + length (units_read packet.now) < 2 ^ 64 }
    requires places { length queue.old.items + length (step.kept late clock (units_read packet.now))
        ≤ queue.old.limit }
    ensures items { queue.new.items
        ≡ step.enter_all (step.kept_numbered late clock first (units_read packet.now))
        queue.old.items }
    ensures limit { queue.new.limit ≡ queue.old.limit }
{
    match packet.alone() {
        Some(unit) => enter_kept(queue, unit, late, clock, first),
        None => enter_all(queue, packet.units(), late, clock, first),
    }
}

/// The units that are kept enter, numbered from `first` on as all of them are.
fn enter_all<'a>(
    queue: &mut Queue<Queued<'a>>,
    units: Units<'a>,
    late: Late,
    clock: u64,
    first: u64,
)
    requires given { AreNumbered first queue.old.items }
    requires numbers { first + length units < 2 ^ 64 }
    requires places { length queue.old.items + length (step.kept late clock units)
        ≤ queue.old.limit }
    ensures items { queue.new.items
        ≡ step.enter_all (step.kept_numbered late clock first units.entry) queue.old.items }
    ensures limit { queue.new.limit ≡ queue.old.limit }
{
    let mut number = first;
    for unit in units {
        enter_kept(queue, unit, late, clock, number);
        number += 1;
    }
}

/// One unit enters, if it is kept.
fn enter_kept<'a>(
    queue: &mut Queue<Queued<'a>>,
    unit: Unit<'a>,
    late: Late,
    clock: u64,
    number: u64,
)
    requires given { AreNumbered number queue.old.items }
    requires place { length queue.old.items + length (step.kept late clock (unit ∷ []))
        ≤ queue.old.limit }
    ensures items { queue.new.items
        ≡ step.enter_all (step.kept_numbered late clock number (unit.entry ∷ [])) queue.old.items }
    ensures given { AreNumbered (number + 1) queue.new.items }
    ensures length { length queue.new.items
        ≡ length queue.old.items + length (step.kept late clock (unit.entry ∷ [])) }
    ensures limit { queue.new.limit ≡ queue.old.limit }
{
    if keeps(late, clock, &unit) {
        enter(queue, Queued::new(unit), clock, number);
    }
}

/// One unit enters, due at its tag or at the clock, whichever is greater.
fn enter<'a>(queue: &mut Queue<Queued<'a>>, unit: Queued<'a>, clock: u64, number: u64)
    requires given { AreNumbered number queue.old.items }
    requires place { length queue.old.items < queue.old.limit }
    ensures items { queue.new.items
        ≡ timed.enter (step.waiting clock number unit.entry) queue.old.items }
    ensures given { AreNumbered (number + 1) queue.new.items }
    ensures length { length queue.new.items ≡ length queue.old.items + 1 }
    ensures limit { queue.new.limit ≡ queue.old.limit }
{
    queue.enter(unit.tag().max(clock), number, unit);
}
