// The units that wait: those that are queued, or one alone, whose message stands ready.
ghost use Rattle.osc_packet.specs.declared.limits.TheConstants.{MAX_STORED};

use crate::store::{MOST_BESIDE, Store, Stored, fit, write_message};
use crate::units::{enter, take_first};
use osc_model::{Late, keeps};
use osc_packet::{MAX_STORED, Packet, Unit};
use osc_queue::Queue;
use std::alloc::{AllocError, Global};
use std::mem::swap;

/// A unit that waits alone.
#[derive(Clone, Copy)]
pub(crate) struct Lone {
    pub(crate) due: u64,
    pub(crate) unit: u64,
    pub(crate) tag: u64,
}

/// The units that wait. One message alone, to which nothing waits that is due before it, is mostly
/// released before another unit comes: it needs neither the queue nor blocks then, though it counts
/// as a unit with a block.
#[derive(Drop)]
pub(crate) struct Backlog {
    pub(crate) queue: Queue<Stored>,
    /// The messages of the queued units.
    pub(crate) store: Store,
    /// The messages of the unit that waits alone, or that is to be released, each after its length.
    pub(crate) bytes: Vec<u8>,
    /// The unit that waits alone, where there is one. None is queued then.
    pub(crate) lone: Option<Lone>,
}

impl Backlog {
    ghost use Rattle.osc_packet.specs.declared.limits.TheConstants.{MAX_STORED};
    ghost use Rattle.osc_atoms.specs.declared.limits.TheConstants.{MAX_BYTES};
    ghost use Rattle.std.specs.Prelude.{◌≡◌, ◌+◌, ◌<◌, ◌≤◌, ◌^◌, ◌∷◌, [], length, drop, max};
    ghost use Rattle.std.specs.Prelude.{IsTrue, MatchBool, IfOk, IfSome, IfNone, None, option_map};
    ghost use Rattle.std.specs.Prelude.{vec_capacity};
    ghost use Rattle.osc_message.specs.Reading.{is_message};
    ghost use Rattle.osc_packet.specs.Reading.{units_read};
    ghost use Rattle.osc_packet.specs.Units.{blocks, blocks_of};
    ghost use Rattle.osc_queue.specs.Timed as timed;
    ghost use Rattle.osc_model.specs.Counts.{queued_blocks};
    ghost use Rattle.osc_model.specs.Releases.{IsLeastDue};
    ghost use Rattle.osc_model.specs.State.{AreNumbered};
    ghost use Rattle.osc_model.specs.Step as step;
    ghost use Rattle.osc_core.specs.Frames.{messages_in, AreFramed};
    ghost use Rattle.osc_core.specs.Views.{units_of, AreWaiting, BeginsWith, FirstIsDue};
    ghost use Rattle.osc_core.specs.Views.{first_messages, IsUnused, StandsAlone};

    /// Room for so many units and blocks, all free. The `Err` means that there is no memory for it.
    pub(crate) fn open(alloc: Global, units: u32, blocks: u32) -> Result<Backlog, AllocError>
        requires { blocks ≤ 1048576 }
        ensures waiting { IfOk result AreWaiting }
        ensures none { IfOk result (λ waiting. units_of waiting ≡ []) }
        ensures places { IfOk result (λ waiting. waiting.queue.limit ≡ units) }
        ensures limit { IfOk result (λ waiting. length waiting.store ≡ blocks) }
    {
        Ok(Backlog {
            queue: Queue::open(alloc, units)?,
            store: Store::open(alloc, blocks)?,
            bytes: Vec::with_capacity(alloc, MAX_STORED as usize)?,
            lone: None,
        })
    }

    /// How many more units may wait.
    pub(crate) fn free_places(&self) -> u32
        requires { AreWaiting self.now }
        ensures { result + length (units_of self.now) ≡ self.now.queue.limit }
    {
        match self.lone {
            Some(_) => self.queue.free() - 1,
            None => self.queue.free(),
        }
    }

    /// How many blocks are free for their messages.
    pub(crate) fn free_blocks(&self) -> u32
        requires { AreWaiting self.now }
        ensures { result + queued_blocks (units_of self.now) ≡ length self.now.store }
    {
        match self.lone {
            Some(_) => self.store.free() - 1,
            None => self.store.free(),
        }
    }

    /// The packet's units that are kept enter, numbered from `first` on as all of them are.
    pub(crate) fn enter_all(&mut self, packet: &Packet<'_>, late: Late, clock: u64, first: u64)
        requires waiting { AreWaiting self.old }
        requires numbered { AreNumbered first (units_of self.old) }
        requires numbers { first + length (units_read packet.now) < 2 ^ 64 }
        requires places { length (units_of self.old)
            + length (step.kept late clock (units_read packet.now)) ≤ self.old.queue.limit }
        requires blocks { queued_blocks (units_of self.old)
            + blocks_of (step.kept late clock (units_read packet.now)) ≤ length self.old.store }
        ensures units { units_of self.new
            ≡ step.enter_all (step.kept_numbered late clock first (units_read packet.now))
            (units_of self.old) }
        ensures waiting { AreWaiting self.new }
        ensures numbered { AreNumbered (first + length (units_read packet.now))
            (units_of self.new) }
        ensures places { self.new.queue.limit ≡ self.old.queue.limit }
        ensures limit { length self.new.store ≡ length self.old.store }
    {
        if let Some(unit) = packet.alone() {
            self.enter_kept(&unit, late, clock, first);
            return;
        }
        let mut number = first;
        for unit in packet.units() {
            self.enter_kept(&unit, late, clock, number);
            number += 1;
        }
    }

    /// One unit enters, if it is kept.
    #[inline(always)]
    fn enter_kept(&mut self, unit: &Unit<'_>, late: Late, clock: u64, number: u64)
        requires waiting { AreWaiting self.old }
        requires numbered { AreNumbered number (units_of self.old) }
        requires place { length (units_of self.old) + length (step.kept late clock (unit.now ∷ []))
            ≤ self.old.queue.limit }
        requires blocks { queued_blocks (units_of self.old)
            + blocks_of (step.kept late clock (unit.now ∷ [])) ≤ length self.old.store }
        ensures units { units_of self.new
            ≡ step.enter_all (step.kept_numbered late clock number (unit.now ∷ []))
            (units_of self.old) }
        ensures waiting { AreWaiting self.new }
        ensures numbered { AreNumbered (number + 1) (units_of self.new) }
        ensures length { length (units_of self.new)
            ≡ length (units_of self.old) + length (step.kept late clock (unit.now ∷ [])) }
        ensures used { queued_blocks (units_of self.new)
            ≡ queued_blocks (units_of self.old) + blocks_of (step.kept late clock (unit.now ∷ [])) }
        ensures places { self.new.queue.limit ≡ self.old.queue.limit }
        ensures limit { length self.new.store ≡ length self.old.store }
    {
        if keeps(late, clock, unit) {
            self.enter(unit, clock, number);
        }
    }

    /// One unit enters, due at its tag or at the clock, whichever is greater.
    #[inline(always)]
    fn enter(&mut self, unit: &Unit<'_>, clock: u64, number: u64)
        requires waiting { AreWaiting self.old }
        requires numbered { AreNumbered number (units_of self.old) }
        requires place { length (units_of self.old) < self.old.queue.limit }
        requires blocks { queued_blocks (units_of self.old) + blocks unit.now
            ≤ length self.old.store }
        ensures units { units_of self.new
            ≡ timed.enter (step.waiting clock number unit.now) (units_of self.old) }
        ensures waiting { AreWaiting self.new }
        ensures numbered { AreNumbered (number + 1) (units_of self.new) }
        ensures length { length (units_of self.new) ≡ length (units_of self.old) + 1 }
        ensures used { queued_blocks (units_of self.new)
            ≡ queued_blocks (units_of self.old) + blocks unit.now }
        ensures places { self.new.queue.limit ≡ self.old.queue.limit }
        ensures limit { length self.new.store ≡ length self.old.store }
    {
        self.settle();
        enter(&mut self.queue, &mut self.store, unit, clock, number);
    }

    /// A packet that is a message of up to 60 bytes waits alone, if it is kept, no unit waits, and
    /// there are a place and a block for one. It tells whether it does.
    #[inline(always)]
    pub(crate) fn stand_alone(
        &mut self,
        packet: &Packet<'_>,
        late: Late,
        clock: u64,
        number: u64,
    ) -> bool
        requires { AreWaiting self.old }
        ensures stands { MatchBool result
            (StandsAlone late clock number (units_read packet.now) self.old self.new)
            (self.new ≡ self.old) }
        ensures waiting { AreWaiting self.new }
        ensures places { self.new.queue.limit ≡ self.old.queue.limit }
        ensures limit { length self.new.store ≡ length self.old.store }
    {
        if !self.is_unused() {
            return false;
        }
        let Some(unit) = packet.alone() else {
            return false;
        };
        let Some(message) = unit.alone() else {
            return false;
        };
        if message.len() > MOST_BESIDE || !keeps(late, clock, &unit) {
            return false;
        }
        self.stand(message, unit.tag(), clock, number);
        true
    }

    /// Whether no unit waits, and there are a place and a block for one.
    #[inline(always)]
    fn is_unused(&self) -> bool
        ensures { IsTrue result → IsUnused self.now }
    {
        self.lone.is_none()
            && self.queue.first().is_none()
            && self.queue.free() > 0
            && self.store.free() > 0
    }

    /// A message with this tag waits alone.
    #[inline(always)]
    fn stand(&mut self, message: &[u8], tag: u64, clock: u64, number: u64)
        requires waiting { AreWaiting self.old }
        requires none { self.old.queue.items ≡ [] }
        requires read { IsTrue (is_message MAX_BYTES message.now) }
        requires small { length message.now ≤ 60 }
        requires place { 0 < self.old.queue.limit }
        requires block { 0 < length self.old.store }
        ensures units { units_of self.new
            ≡ (max tag clock, number, record { tag = tag; messages = message.now ∷ [] }) ∷ [] }
        ensures waiting { AreWaiting self.new }
        ensures places { self.new.queue.limit ≡ self.old.queue.limit }
        ensures limit { length self.new.store ≡ length self.old.store }
    {
        fit(&mut self.bytes, 4 + message.len());
        write_message(&mut self.bytes, message);
        let due = tag.max(clock);
        self.lone = Some(Lone {
            due,
            unit: number,
            tag,
        });
    }

    /// The unit that waits alone is queued, where there is one.
    #[inline(always)]
    fn settle(&mut self)
        requires { AreWaiting self.old }
        ensures none { self.new.lone ≡ None }
        ensures units { units_of self.new ≡ units_of self.old }
        ensures waiting { AreWaiting self.new }
        ensures places { self.new.queue.limit ≡ self.old.queue.limit }
        ensures limit { length self.new.store ≡ length self.old.store }
    {
        let Some(lone) = self.lone else {
            return;
        };
        self.lone = None;
        let stored = self.store.put_framed(lone.tag, self.bytes.as_slice());
        self.queue.enter(lone.due, lone.unit, stored);
    }

    /// When the first unit is due, and its number.
    pub(crate) fn first(&self) -> Option<(u64, u64)>
        ensures head { IfSome result (λ first. BeginsWith first.0 first.1 (units_of self.now)) }
        ensures least { IsLeastDue (units_of self.now) (option_map (λ first. first.0) result) }
        ensures none { IfNone result (units_of self.now ≡ []) }
    {
        match self.lone {
            Some(lone) => Some((lone.due, lone.unit)),
            None => {
                let (due, unit, _) = self.queue.first()?;
                Some((due, unit))
            }
        }
    }

    /// Reads the messages of the first unit into `bytes`.
    pub(crate) fn read(&mut self)
        requires waiting { AreWaiting self.old }
        requires some { 0 < length (units_of self.old) }
        ensures units { units_of self.new ≡ units_of self.old }
        ensures waiting { AreWaiting self.new }
        ensures framed { AreFramed self.new.bytes.items }
        ensures messages { messages_in self.new.bytes.items ≡ first_messages (units_of self.old) }
        ensures places { self.new.queue.limit ≡ self.old.queue.limit }
        ensures limit { length self.new.store ≡ length self.old.store }
    {
        if self.lone.is_some() {
            return;
        }
        match self.queue.first() {
            Some((_, _, stored)) => self.store.read(stored, &mut self.bytes),
            None => unreachable!(),
        }
    }

    /// The first unit leaves, which is due and was read, and its messages are handed out for other
    /// bytes.
    pub(crate) fn take(&mut self, now: u64, messages: &mut Vec<u8>)
        requires waiting { AreWaiting self.old }
        requires due { FirstIsDue now (units_of self.old) }
        requires room { MAX_STORED ≤ vec_capacity messages.old }
        ensures units { units_of self.new ≡ drop 1 (units_of self.old) }
        ensures waiting { AreWaiting self.new }
        ensures messages { messages.new.items ≡ self.old.bytes.items }
        ensures reserved { MAX_STORED ≤ vec_capacity messages.new }
        ensures places { self.new.queue.limit ≡ self.old.queue.limit }
        ensures limit { length self.new.store ≡ length self.old.store }
    {
        swap(&mut self.bytes, messages);
        if self.lone.is_some() {
            self.lone = None;
            return;
        }
        take_first(&mut self.queue, &mut self.store, now);
    }
}
