// A plain sequential server over lists.
ghost use Rattle.std.specs.Prelude.{◌≡◌, ◌<◌, ◌++◌, ◌∷◌, [], option_map, IfSome, IfNone};
ghost use Rattle.osc_tree.specs.Adding.{refusal_of, add_refusal};
ghost use Rattle.osc_tree.specs.Registry.{IsNewId};
ghost use Rattle.osc_model.specs.Events.{release, ticked};
ghost use Rattle.osc_model.specs.Recordings.{entry_size};
ghost use Rattle.osc_replay.specs.Events.{event_in};

use crate::calls::{Calls, find_calls};
use crate::event::LawfulEvent;
use crate::outcome::Outcome;
use crate::units::{Queued, enter_packet};
use osc_atoms::Room;
use osc_model::{Late, Need, need_of};
use osc_packet::Packet;
use osc_pattern::Address;
use osc_queue::Queue;
use osc_record::{
    Answer, Caps, ENROL_SIZE, HEADER_SIZE, RELEASE_HEAD, TICK_SIZE, add_size, release_size,
    remove_size, submit_size,
};
use osc_tree::{Hits, Tree, TreeRefusal};
use std::alloc::{AllocError, Global};
use std::marker::Model;

/// A server: methods by address, units that wait for their moment, a clock, callers, and how many
/// bytes are recorded. The units stay where they stand in the recording. A contract sees its state.
///
/// An `Err` of its calls means out of memory. After it, and where no entry is added, the server
/// isn't to be used again.
#[derive(Drop)]
pub(crate) struct Server<'a> {
    alloc: Global,
    tree: Tree,
    hits: Hits,
    queue: Queue<Queued<'a>>,
    /// How many blocks there may be, and how many the queued units take.
    blocks: u32,
    used: u32,
    clock: u64,
    next_id: u32,
    next_unit: u64,
    callers: u32,
    caller_limit: u32,
    recorded: u32,
    record_limit: u32,
    /// What becomes of late units.
    late: Late,
}

impl<'a> Model for Server<'a> {
    ghost use Rattle.osc_model.specs.State.{State};
    ghost use Rattle.osc_replay.specs.Playing.{IsRunning};

    ghost Value = { State };

    ghost view = { λ s. record {
      caps = record {
        units = s.queue.limit;
        blocks = s.blocks;
        methods = s.tree.method_limit;
        nodes = s.tree.node_limit;
        callers =
            s.caller_limit;
        recording = s.record_limit;
        late = s.late;
      };
      methods = s.tree.methods;
      queue = s.queue.items;
      clock = s.clock;
      next_id = s.next_id;
      next_unit =
          s.next_unit;
      callers = s.callers;
      recorded = s.recorded;
    } };

    ghost invariant = { λ s. IsRunning s.tree s.hits s.queue s.used };
}

impl<'a> Server<'a> {
    ghost use Rattle.std.specs.Prelude.{◌≡◌, ◌≢◌, ◌+◌, ◌<◌, IsTrue, IfOk};
    ghost use Rattle.osc_pattern.specs.Addresses.{is_address};
    ghost use Rattle.osc_model.specs.State.{opening};
    ghost use Rattle.osc_model.specs.Events.{enrol, submit, add, remove, tick, release};
    ghost use Rattle.osc_model.specs.History.{IsLawful, IsSound, IsCounted};
    ghost use Rattle.osc_replay.specs.Events.{event_in};
    ghost use Rattle.osc_replay.specs.Playing.{IsReached, Decides, Does, Releases, ComesTo};
    ghost use Rattle.osc_replay.specs.Room.{in_room};

    /// How many callers are enrolled.
    pub(crate) fn callers(&self) -> u32
        ensures { result ≡ self.now.callers }
    {
        self.callers
    }

    pub(crate) fn open(alloc: Global, caps: Caps) -> Result<Server<'a>, AllocError>
        ensures { IfOk result (λ server. server ≡ opening caps) }
    {
        Ok(Server {
            alloc,
            tree: Tree::open(alloc, caps.methods(), caps.nodes())?,
            hits: Hits::open(alloc, caps.methods())?,
            queue: Queue::open(alloc, caps.units())?,
            blocks: caps.blocks(),
            used: 0,
            clock: 1,
            next_id: 0,
            next_unit: 0,
            callers: 1,
            caller_limit: caps.callers(),
            recorded: HEADER_SIZE,
            record_limit: caps.recording(),
            late: caps.late(),
        })
    }

    /// Lets the recording have so many bytes.
    pub(crate) fn make_room(&mut self, room: u32)
        ensures { self.new ≡ in_room room self.old }
    {
        self.record_limit = room;
    }

    /// The result of a caller's event. It is no entry where the caller isn't enrolled or the rules
    /// add none. A release makes `calls` its own.
    pub(crate) fn play(
        &mut self,
        caller: u32,
        event: LawfulEvent<'a>,
        calls: &mut Calls,
    ) -> Result<Outcome, AllocError>
        requires lawful { IsLawful (event_in event) }
        requires reached { IsReached self.old }
        ensures comes { IfOk result
            (λ outcome. ComesTo outcome calls.new caller self.old (event_in event.entry) self.new) }
        ensures prints { calls.new.prints ≡ calls.old.prints }
    {
        if caller >= self.callers {
            return Ok(Outcome::Nothing);
        }
        match event {
            LawfulEvent::Release => self.release(calls),
            _ => self.play_other(event),
        }
    }

    /// The result of an event that isn't a release.
    fn play_other(&mut self, event: LawfulEvent<'a>) -> Result<Outcome, AllocError>
        requires no_release { event_in event ≢ release }
        requires lawful { IsLawful (event_in event) }
        requires reached { IsReached self.old }
        ensures { IfOk result (λ outcome. Does outcome self.old (event_in event.entry) self.new) }
    {
        osc_model::laws::a_server_stays_sound();
        let size = entry_size(&event);
        if size > u64::from(self.record_limit - self.recorded) {
            return Ok(Outcome::Nothing);
        }
        let answer = self.decide(event)?;
        self.recorded += size as u32;
        Ok(Outcome::Answered(answer))
    }

    /// The answer to an event that isn't a release, for whose entry there is room.
    fn decide(&mut self, event: LawfulEvent<'a>) -> Result<Answer<'static>, AllocError>
        requires no_release { event_in event ≢ release }
        requires lawful { IsLawful (event_in event) }
        requires sound { IsSound self.old }
        requires counted { IsCounted self.old }
        ensures { IfOk result (λ answer. Decides answer self.old (event_in event.entry) self.new) }
    {
        match event {
            LawfulEvent::Enrol => Ok(self.enrol()),
            LawfulEvent::Submit(packet) => Ok(self.submit(&packet)),
            LawfulEvent::Add(address) => self.add(address),
            LawfulEvent::Remove(address) => self.remove(address),
            LawfulEvent::Tick(now) => Ok(self.tick(now)),
            LawfulEvent::Release => unreachable!(),
        }
    }

    fn enrol(&mut self) -> Answer<'static>
        requires { IsSound self.old }
        ensures { Decides result self.old enrol self.new }
    {
        if self.callers == self.caller_limit {
            return Answer::CallersFull;
        }
        let caller = self.callers;
        self.callers += 1;
        Answer::Number(caller)
    }

    /// Queues all of the packet's units that are kept, or none of them.
    fn submit(&mut self, packet: &Packet<'a>) -> Answer<'static>
        requires sound { IsSound self.old }
        requires counted { IsCounted self.old }
        ensures { Decides result self.old (submit packet.now) self.new }
    {
        let Need {
            count,
            places: keeps,
            blocks: need,
        } = need_of(self.late, self.clock, packet);
        let places = self.queue.free();
        if keeps > places {
            return Answer::UnitsFull(Room::new(keeps as u64, places as u64));
        }
        let free = self.blocks - self.used;
        if need > free {
            return Answer::PoolFull(Room::new(need as u64, free as u64));
        }
        let first = self.next_unit;
        enter_packet(&mut self.queue, packet, self.late, self.clock, first);
        self.used += need;
        self.next_unit += count as u64;
        Answer::Queued {
            first,
            count,
            late: count - keeps,
        }
    }

    fn add(&mut self, address: &[u8]) -> Result<Answer<'static>, AllocError>
        requires lawful { IsTrue (is_address address.now) }
        requires sound { IsSound self.old }
        requires counted { IsCounted self.old }
        ensures { IfOk result (λ answer. Decides answer self.old (add address.now) self.new) }
    {
        let address = Address::known(self.alloc, address)?;
        let id = self.next_id;
        if let Some(refusal) = add_to(&mut self.tree, address, id) {
            return Ok(Answer::from(refusal));
        }
        self.next_id += 1;
        Ok(Answer::Added(id))
    }

    fn remove(&mut self, address: &[u8]) -> Result<Answer<'static>, AllocError>
        requires { IsTrue (is_address address.now) }
        ensures { IfOk result (λ answer. Decides answer self.old (remove address.now) self.new) }
    {
        let address = Address::known(self.alloc, address)?;
        match self.tree.remove(&address) {
            Ok(id) => Ok(Answer::Removed(id)),
            Err(_) => Ok(Answer::NotThere),
        }
    }

    fn tick(&mut self, now: u64) -> Answer<'static>
        ensures { Decides result self.old (tick now) self.new }
    {
        if now < self.clock {
            return Answer::ClockBack(self.clock);
        }
        self.clock = now;
        Answer::Ticked
    }

    /// Takes the first unit, if it is due and there is room for the entry, and tells its calls.
    fn release(&mut self, calls: &mut Calls) -> Result<Outcome, AllocError>
        requires { IsReached self.old }
        ensures releases { IfOk result (λ outcome. Releases outcome calls.new self.old self.new) }
        ensures prints { calls.new.prints ≡ calls.old.prints }
    {
        osc_model::laws::a_legal_history_is_recordable();
        osc_model::laws::a_server_stays_sound();
        let Some((_, unit, taken)) = self.queue.take_due(self.clock) else {
            return Ok(Outcome::Nothing);
        };
        self.used -= taken.blocks();
        find_calls(&self.tree, &mut self.hits, unit, &taken, calls)?;
        let size = RELEASE_HEAD as usize + calls.hits.len();
        if size > (self.record_limit - self.recorded) as usize {
            return Ok(Outcome::Nothing);
        }
        self.recorded += size as u32;
        Ok(Outcome::Released(unit))
    }
}

/// How many bytes the entry of an event has; that of a release, as long as it has no hits.
fn entry_size(event: &LawfulEvent<'_>) -> u64
    ensures { result ≡ entry_size (event_in event.now) ticked }
{
    match event {
        LawfulEvent::Enrol => ENROL_SIZE,
        LawfulEvent::Submit(packet) => submit_size(packet.bytes()),
        LawfulEvent::Add(address) => add_size(address),
        LawfulEvent::Remove(address) => remove_size(address),
        LawfulEvent::Tick(_) => TICK_SIZE,
        LawfulEvent::Release => release_size(0),
    }
}

/// Adds a method with an id at the address, unless that is refused.
fn add_to(tree: &mut Tree, address: Address, id: u32) -> Option<TreeRefusal>
    requires { IsNewId tree.old.methods id }
    ensures refusal { option_map refusal_of result ≡ add_refusal tree.old address }
    ensures added { IfNone result
        (tree.new ≡ record tree.old {
          methods = tree.old.methods
              ++ record { id = id; address = address } ∷ [];
        }) }
    ensures unchanged { IfSome result (λ refusal. tree.new ≡ tree.old) }
{
    match tree.add(address, id) {
        Ok(()) => None,
        Err((refusal, _)) => Some(refusal),
    }
}
