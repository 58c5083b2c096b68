//! What stands after entries of a recording.
ghost use Rattle.std.specs.Prelude.{◌≡◌, length};
ghost use Rattle.osc_tree.specs.Registry.{without};
ghost use Rattle.osc_model.specs.Recordings.{hits_in};
ghost use Rattle.osc_story.specs.Standings as spec;

use crate::calls::{Calls, are_calls};
use crate::disagreement::{Disagreement, SeeFault};
use crate::hand::{Hand, enter_all, kept_units};
use crate::registered::Registered;
use crate::totals::Totals;
use crate::waiter::Waiting;
use osc_model::{Late, need_of};
use osc_packet::{MAX_PACKET, Packet};
use osc_record::{Answer, Entry, Event};
use std::alloc::{AllocError, Global};
use std::marker::Model;

/// What stands after the entries that were seen: the clock, the methods, and the units that wait.
/// It makes no match: the entry of a release tells what it called.
#[derive(Drop)]
pub struct Story {
    alloc: Global,
    late: Late,
    clock: u64,
    methods: Vec<Registered>,
    waiting: Vec<Waiting>,
    totals: Totals,
}

impl Model for Story {
    ghost use Rattle.osc_story.specs.Standings.{Standing};

    ghost Value = { Standing };

    ghost view = { λ s. record {
      late = s.late;
      clock = s.clock;
      methods = s.methods.items;
      waiting = s.waiting.items;
      totals = s.totals;
    } };
}

impl Story {
    ghost use Rattle.std.specs.Prelude.{◌≡◌, ◌+◌, ◌<◌, ◌^◌, length, drop, None, OnOk, OnErr, IfErr};
    ghost use Rattle.osc_packet.specs.Reading.{units_read};
    ghost use Rattle.osc_model.specs.Events as model;
    ghost use Rattle.osc_model.specs.Events.{added};
    ghost use Rattle.osc_record.specs.Left.{placed_of};
    ghost use Rattle.osc_record.specs.Shown.{event_of, answer_of};
    ghost use Rattle.osc_story.specs.Standings as spec;
    ghost use Rattle.osc_story.specs.Standings.{opened, Follows, are_counted, kept_handed};
    ghost use Rattle.osc_story.specs.Standings.{all_enter, calls_told, fault_of, told_by};
    ghost use Rattle.osc_story.specs.Seen.{Sees, IsFaultOf};

    /// Nothing is seen yet. Takes no memory.
    pub fn open(alloc: Global, late: Late) -> Story
        ensures { result ≡ opened late }
    {
        Story {
            alloc,
            late,
            clock: 1,
            methods: Vec::new(alloc),
            waiting: Vec::new(alloc),
            totals: Totals::none(),
        }
    }

    /// What becomes of late units.
    pub fn late(&self) -> Late
        ensures { result ≡ self.now.late }
    {
        self.late
    }

    /// The server's clock, an OSC time tag.
    pub fn clock(&self) -> u64
        ensures { result ≡ self.now.clock }
    {
        self.clock
    }

    /// The methods, in the order of adding.
    pub fn methods(&self) -> &[Registered]
        ensures { result.now ≡ self.now.methods }
    {
        &self.methods
    }

    /// The units that wait, in the order of their release.
    pub fn waiting(&self) -> &[Waiting]
        ensures { result.now ≡ self.now.waiting }
    {
        &self.waiting
    }

    /// How much the entries told.
    pub fn totals(&self) -> Totals
        ensures { result ≡ self.now.totals }
    {
        self.totals
    }

    /// Sees the next entry. Whatever keeps it from that, nothing changes; out of memory, it can be
    /// seen later.
    pub fn see(&mut self, entry: &Entry<'_>) -> Result<(), SeeFault>
        ensures ok { OnOk result (Follows self.old (placed_of entry.now).entry self.new) }
        ensures why { IfErr result
            (λ fault. IsFaultOf fault self.old (placed_of entry.now).entry) }
        ensures err { OnErr result (self.new ≡ self.old) }
    {
        let totals = self.told_by(entry.event, entry.answer);
        self.see_event(entry.caller, entry.event, entry.answer)?;
        self.totals = totals.with_entry();
        Ok(())
    }

    /// How much is told with an event and its answer.
    fn told_by(&self, event: Event<'_>, answer: Answer<'_>) -> Totals
        ensures { fault_of self.now (event_of event.entry) (answer_of answer.entry) ≡ None
            → result ≡ told_by self.now (event_of event.entry) (answer_of answer.entry) }
    {
        match event {
            Event::Submit(packet) => self
                .totals
                .with_packet(self.late, self.clock, packet, answer),
            Event::Release => self.totals.with_release(first_count(&self.waiting), answer),
            _ => self.totals,
        }
    }

    fn see_event(
        &mut self,
        caller: u32,
        event: Event<'_>,
        answer: Answer<'_>,
    ) -> Result<(), SeeFault>
        ensures { Sees result self.old caller (event_of event.entry) (answer_of answer.entry)
            self.new }
    {
        match event {
            Event::Enrol => Ok(()),
            Event::Submit(packet) => self.submit(caller, packet, answer),
            Event::Add(address) => self.add(address, answer),
            Event::Remove(address) => {
                self.remove(address, answer);
                Ok(())
            }
            Event::Tick(now) => {
                self.tick(now, answer);
                Ok(())
            }
            Event::Release => self.release(answer),
        }
    }

    fn add(&mut self, address: &[u8], answer: Answer<'_>) -> Result<(), SeeFault>
        ensures { Sees result self.old 0 (model.add address.now) (answer_of answer.entry)
            self.new }
    {
        let Answer::Added(id) = answer else {
            return Ok(());
        };
        match self.register(id, address) {
            Ok(()) => Ok(()),
            Err(_) => Err(SeeFault::NoMemory),
        }
    }

    /// A method enters, as the last. Out of memory, it doesn't.
    fn register(&mut self, id: u32, address: &[u8]) -> Result<(), AllocError>
        ensures ok { OnOk result (self.new ≡ spec.with_method self.old address.now (added id)) }
        ensures err { OnErr result (self.new ≡ self.old) }
    {
        let method = Registered::new(self.alloc, id, address)?;
        self.methods.push(method)?;
        Ok(())
    }

    fn remove(&mut self, address: &[u8], answer: Answer<'_>)
        ensures { self.new ≡ spec.without_method self.old address.now (answer_of answer.entry) }
    {
        if let Answer::Removed(_) = answer {
            keep_elsewhere(&mut self.methods, address);
        }
    }

    fn tick(&mut self, now: u64, answer: Answer<'_>)
        ensures { self.new ≡ spec.at_moment self.old now (answer_of answer.entry) }
    {
        if let Answer::Ticked = answer {
            self.clock = now;
        }
    }

    fn submit(&mut self, caller: u32, packet: &[u8], answer: Answer<'_>) -> Result<(), SeeFault>
        ensures { Sees result self.old caller (model.submit packet.now) (answer_of answer.entry)
            self.new }
    {
        let Ok(packet) = Packet::check(packet, MAX_PACKET) else {
            return Err(SeeFault::Disagrees(Disagreement::NoPacket));
        };
        let Answer::Queued { first, count, late } = answer else {
            return Ok(());
        };
        if !self.are_counted(&packet, first, count, late) {
            return Err(SeeFault::Disagrees(Disagreement::OtherCount));
        }
        match self.queue(&packet, caller, first) {
            Ok(()) => Ok(()),
            Err(_) => Err(SeeFault::NoMemory),
        }
    }

    /// Whether the packet has so many units, so many of which aren't kept, and their numbers end
    /// within 64 bits.
    fn are_counted(&self, packet: &Packet<'_>, first: u64, count: u32, late: u32) -> bool
        ensures { result ≡ are_counted self.now (units_read packet.now) first count late }
    {
        let need = need_of(self.late, self.clock, packet);
        count == need.count
            && late == need.count - need.places
            && first.checked_add(u64::from(need.count)).is_some()
    }

    /// The units of a packet that are kept enter. Out of memory, none does.
    fn queue(&mut self, packet: &Packet<'_>, caller: u32, first: u64) -> Result<(), AllocError>
        requires { first + length (units_read packet.now) < 2 ^ 64 }
        ensures ok { OnOk result (self.new ≡ record self.old {
          waiting = all_enter (kept_handed self.old caller first (units_read packet.now))
              self.old.waiting;
        }) }
        ensures err { OnErr result (self.new ≡ self.old) }
    {
        let hand = Hand {
            late: self.late,
            clock: self.clock,
            caller,
            first,
        };
        let units = kept_units(self.alloc, packet.units(), hand)?;
        self.waiting.reserve(units.len())?;
        enter_all(&mut self.waiting, units);
        Ok(())
    }

    fn release(&mut self, answer: Answer<'_>) -> Result<(), SeeFault>
        ensures { Sees result self.old 0 model.release (answer_of answer.entry) self.new }
    {
        let Answer::Released { unit, hits } = answer else {
            return Ok(());
        };
        match release_fault(&self.methods, &self.waiting, unit, hits) {
            Some(why) => Err(SeeFault::Disagrees(why)),
            None => {
                self.leave();
                Ok(())
            }
        }
    }

    /// The first unit leaves.
    fn leave(&mut self)
        requires { 0 < length self.old.waiting }
        ensures { self.new ≡ record self.old { waiting = drop 1 self.old.waiting } }
    {
        self.waiting.remove(0);
    }

    /// The calls that the entry of a release tells, in their order, before it is seen; and none of
    /// any other entry.
    pub fn calls<'a>(&'a self, answer: Answer<'a>) -> Calls<'a>
        ensures { result ≡ calls_told self.now (answer_of answer.entry) }
    {
        match (answer, self.waiting.first()) {
            (Answer::Released { hits, .. }, Some(first)) => {
                Calls::new(&self.methods, first.messages(), hits)
            }
            (Answer::Released { hits, .. }, None) => Calls::new(&self.methods, &[], hits),
            _ => Calls::new(&self.methods, &[], b""),
        }
    }
}

/// How many messages the first unit has.
fn first_count(waiting: &[Waiting]) -> usize
    ensures { result ≡ length (spec.first_messages waiting.now) }
{
    match waiting.first() {
        Some(first) => first.messages().len(),
        None => 0,
    }
}

/// The methods with other addresses stay.
fn keep_elsewhere(methods: &mut Vec<Registered>, address: &[u8])
    ensures { methods.new.items ≡ without methods.old.items address.now }
{
    methods.retain(|method| method.is_elsewhere(address));
}

/// Why a unit can't have been released, where it can't.
fn release_fault(
    methods: &[Registered],
    waiting: &[Waiting],
    unit: u64,
    hits: &[u8],
) -> Option<Disagreement>
    ensures { result ≡ spec.release_fault methods.now waiting.now unit (hits_in hits.now) }
{
    match waiting.first() {
        Some(first) if first.number() == unit => {
            if are_calls(methods, first.messages(), hits) {
                None
            } else {
                Some(Disagreement::NoSuchCall)
            }
        }
        _ => Some(Disagreement::NotFirst),
    }
}
