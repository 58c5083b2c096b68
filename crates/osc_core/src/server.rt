// The tables of the server: all but its boxes and its recording.
ghost use Rattle.osc_model.specs.Limits.{max_methods};
ghost use Rattle.std.specs.Prelude.{◌≡◌, ◌+◌, ◌<◌, ◌≤◌, ◌^◌, ◌++◌, ◌∷◌, [], length, map, All};
ghost use Rattle.std.specs.Prelude.{Contains, IfOk, IfErr, OnOk, OnErr, IsTrue, None, Some, IsSome};
ghost use Rattle.std.specs.Prelude.{vec_capacity};
ghost use Rattle.osc_packet.specs.Reading.{units_read};
ghost use Rattle.osc_tree.specs.Adding.{refusal_of};
ghost use Rattle.osc_tree.specs.Registry.{address_by_id};
ghost use Rattle.osc_model.specs.State.{opening};
ghost use Rattle.osc_model.specs.Events.{enrol, submit, add, remove, tick, release, added, refused};
ghost use Rattle.osc_model.specs.Events.{adds_entry};
ghost use Rattle.osc_model.specs.Heard.{all_hear};
ghost use Rattle.osc_model.specs.Releases.{IsLeastDue};
ghost use Rattle.osc_model.specs.Step.{decided, calls_from, invocations_of};
ghost use Rattle.osc_packet.specs.declared.limits.TheConstants.{MAX_STORED};
ghost use Rattle.osc_core.specs.Answers.{enrolled_of, submitted_of, removing_of, ticking_of};
ghost use Rattle.osc_core.specs.Answers.{OnRemoved, OnReleased, OnWaiting};
ghost use Rattle.osc_core.specs.Ids.{is_ascending, without};
ghost use Rattle.osc_core.specs.Telling.{told};
ghost use Rattle.osc_core.specs.Due.{Releases, made_by};
ghost use Rattle.osc_core.specs.Frames.{messages_in, AreFramed};
ghost use Rattle.osc_core.specs.Playing.{tables};

use crate::answers::{Enrolled, Releasing, Removing, Submitted, Ticking};
use crate::backlog::Backlog;
use crate::calls::{DueUnit, MAX_KEPT, release_unit};
use crate::messages::Messages;
use osc_atoms::Room;
use osc_method::Method;
use osc_model::{Late, Need, need_of};
use osc_packet::Packet;
use osc_pattern::Address;
use osc_record::{Caps, Recorder};
use osc_tree::{Hits, Tree, TreeRefusal};
use std::alloc::{AllocError, Global};
use std::marker::Model;

/// The methods' addresses, the units with their messages, the clock and the numbers that are given
/// next. A contract sees the server's state, in which nothing is recorded.
#[derive(Drop)]
pub(crate) struct Server {
    tree: Tree,
    hits: Hits,
    /// What the messages of the unit that is released call.
    kept: Vec<u32>,
    /// The units that are not released yet.
    waiting: Backlog,
    clock: u64,
    next_id: u32,
    next_unit: u64,
    callers: u32,
    caller_limit: u32,
    /// What becomes of late units.
    late: Late,
}

impl Model for Server {
    ghost use Rattle.osc_model.specs.State.{State};
    ghost use Rattle.std.specs.Prelude.{length};
    ghost use Rattle.osc_core.specs.Views.{units_of, IsRunning};

    ghost Value = { State };

    ghost view = { λ s. record {
      caps = record {
        units = s.waiting.queue.limit;
        blocks = length s.waiting.store;
        methods = s.tree.method_limit;
        nodes = s.tree.node_limit;
        callers =
            s.caller_limit;
        recording = 0;
        late = s.late;
      };
      methods = s.tree.methods;
      queue = units_of s.waiting;
      clock = s.clock;
      next_id =
          s.next_id;
      next_unit = s.next_unit;
      callers = s.callers;
      recorded = 0;
    } };

    ghost invariant = { λ s. IsRunning s.tree s.hits s.waiting s.next_id s.next_unit s.callers
        s.caller_limit };
}

impl Server {
    pub(crate) fn open(alloc: Global, caps: Caps) -> Result<Server, AllocError>
        ensures { IfOk result (λ server. server ≡ tables (opening caps)) }
    {
        Ok(Server {
            tree: Tree::open(alloc, caps.methods(), caps.nodes())?,
            hits: Hits::open(alloc, caps.methods())?,
            kept: Vec::with_capacity(alloc, MAX_KEPT)?,
            waiting: Backlog::open(alloc, caps.units(), caps.blocks())?,
            clock: 1,
            next_id: 0,
            next_unit: 0,
            callers: 1,
            caller_limit: caps.callers(),
            late: caps.late(),
        })
    }

    pub(crate) fn enrol(&mut self) -> Enrolled
        ensures answer { enrolled_of result ≡ (decided self.old enrol).answer }
        ensures entry { IsTrue (adds_entry (enrolled_of result)) }
        ensures state { self.new ≡ (decided self.old enrol).state }
    {
        if self.callers == self.caller_limit {
            return Enrolled::CallersFull;
        }
        let caller = self.callers;
        self.callers += 1;
        Enrolled::Number(caller)
    }

    /// Queues all of the packet's units that are kept, or none of them.
    pub(crate) fn submit(&mut self, packet: &Packet<'_>) -> Submitted
        requires { self.old.next_unit + length (units_read packet.now) < 2 ^ 64 }
        ensures answer { submitted_of result ≡ (decided self.old (submit packet.now)).answer }
        ensures entry { IsTrue (adds_entry (submitted_of result)) }
        ensures state { self.new ≡ (decided self.old (submit packet.now)).state }
    {
        if self
            .waiting
            .stand_alone(packet, self.late, self.clock, self.next_unit)
        {
            let first = self.next_unit;
            self.next_unit += 1;
            return Submitted::Queued {
                first,
                count: 1,
                late: 0,
            };
        }
        self.submit_all(packet)
    }

    /// The same, where others wait, or there may be several.
    fn submit_all(&mut self, packet: &Packet<'_>) -> Submitted
        requires { self.old.next_unit + length (units_read packet.now) < 2 ^ 64 }
        ensures answer { submitted_of result ≡ (decided self.old (submit packet.now)).answer }
        ensures entry { IsTrue (adds_entry (submitted_of result)) }
        ensures state { self.new ≡ (decided self.old (submit packet.now)).state }
    {
        let Need {
            count,
            places: keeps,
            blocks: need,
        } = need_of(self.late, self.clock, packet);
        let places = self.waiting.free_places();
        if keeps > places {
            return Submitted::UnitsFull(Room::new(u64::from(keeps), u64::from(places)));
        }
        let free = self.waiting.free_blocks();
        if need > free {
            return Submitted::PoolFull(Room::new(u64::from(need), u64::from(free)));
        }
        let first = self.next_unit;
        self.waiting.enter_all(packet, self.late, self.clock, first);
        self.next_unit += u64::from(count);
        Submitted::Queued {
            first,
            count,
            late: count - keeps,
        }
    }

    /// Adds a method at the address, or hands the address back.
    pub(crate) fn add(&mut self, address: Address) -> Result<u32, (TreeRefusal, Address)>
        requires { self.old.next_id + 1 < 2 ^ 32 }
        ensures added { IfOk result (λ id. (decided self.old (add address)).answer ≡ added id) }
        ensures refused { IfErr result
            (λ why. (decided self.old (add address)).answer ≡ refused (refusal_of why.0)) }
        ensures state { self.new ≡ (decided self.old (add address)).state }
        ensures new { IfOk result (λ id. All (λ method. method.id < id) self.old.methods) }
        ensures ids { IfOk result
            (λ id. map (λ method. method.id) self.new.methods
            ≡ map (λ method. method.id) self.old.methods ++ id ∷ []) }
        ensures found { IfOk result (λ id. address_by_id self.new.methods id ≡ Some address) }
        ensures room { OnOk result (length self.old.methods < self.old.caps.methods) }
        ensures handed_back { IfErr result (λ refused. refused.1 ≡ address) }
    {
        osc_model::laws::methods_stay_lawful();
        let id = self.next_id;
        match self.tree.add(address, id) {
            Ok(()) => {
                self.next_id += 1;
                Ok(id)
            }
            Err(refused) => Err(refused),
        }
    }

    /// The address of the method with the id.
    pub(crate) fn address_of(&self, id: u32) -> &[u8]
        requires { IsSome (address_by_id self.now.methods id) }
        ensures { Some result.now ≡ address_by_id self.now.methods id }
    {
        match self.tree.address_of(id) {
            Some(address) => address.bytes(),
            None => unreachable!(),
        }
    }

    /// Removes the method at the address, and tells its id.
    pub(crate) fn remove(&mut self, address: &Address) -> Removing<()>
        ensures answer { removing_of result ≡ (decided self.old (remove address.now)).answer }
        ensures entry { IsTrue (adds_entry (removing_of result)) }
        ensures state { self.new ≡ (decided self.old (remove address.now)).state }
        ensures held { OnRemoved result
            (λ id _. Contains (map (λ method. method.id) self.old.methods) id) }
        ensures others { OnRemoved result
            (λ id _. map (λ method. method.id) self.new.methods
            ≡ without id (map (λ method. method.id) self.old.methods)) }
    {
        let Ok(id) = self.tree.remove(address) else {
            return Removing::NotThere;
        };
        Removing::Removed { id, method: () }
    }

    /// Sets the clock, unless the moment is before it.
    pub(crate) fn tick(&mut self, now: u64) -> Ticking
        ensures answer { ticking_of result ≡ (decided self.old (tick now)).answer }
        ensures entry { IsTrue (adds_entry (ticking_of result)) }
        ensures state { self.new ≡ (decided self.old (tick now)).state }
    {
        if now < self.clock {
            return Ticking::ClockBack(self.clock);
        }
        self.clock = now;
        Ticking::Ticked
    }

    /// Takes the first unit, if it is due, and makes the calls of its messages, each of which is
    /// recorded and then made. Where the recording has no room for the entry, all stays.
    pub(crate) fn release<M: Method>(
        &mut self,
        caller: u32,
        recorder: &mut Recorder,
        boxes: &mut Vec<(u32, M)>,
        messages: &mut Vec<u8>,
    ) -> Releasing
        requires room { MAX_STORED ≤ vec_capacity messages.old }
        requires methods { self.old.caps.methods ≤ max_methods }
        requires caller { caller < 2 ^ 31 }
        requires units { self.old.next_unit < 2 ^ 63 }
        requires whole { recorder.old.begun ≡ None }
        requires small { recorder.old.caps.recording < 2 ^ 32 }
        requires ascending { IsTrue (is_ascending (map (λ one. one.0) boxes.old.items)) }
        ensures answer { Releases result caller self.old self.new recorder.old recorder.new }
        ensures boxes { told M.keep M.heard boxes.new.items
            ≡ all_hear (made_by result (decided self.old release).invocations)
            (told M.keep M.heard boxes.old.items) }
        ensures ids { map (λ one. one.0) boxes.new.items ≡ map (λ one. one.0) boxes.old.items }
        ensures capacity { vec_capacity boxes.old ≤ vec_capacity boxes.new }
        ensures messages { OnReleased result (λ unit. (decided self.old release).invocations
            ≡ invocations_of unit
            (calls_from self.old.methods 0 (messages_in messages.new.items))) }
        ensures framed { OnReleased result (λ unit. AreFramed messages.new.items) }
        ensures kept { OnWaiting result (messages.new ≡ messages.old) }
        ensures reserved { MAX_STORED ≤ vec_capacity messages.new }
    {
        let Some((due, unit)) = self.waiting.first() else {
            return Releasing::NothingDue { next: None };
        };
        if due > self.clock {
            return Releasing::NothingDue { next: Some(due) };
        }
        self.waiting.read();
        let read = Messages::new(self.waiting.bytes.as_slice());
        let first = DueUnit {
            caller,
            unit,
            messages: read,
        };
        let (tree, hits, kept) = (&self.tree, &mut self.hits, &mut self.kept);
        match release_unit(tree, hits, kept, first, recorder, boxes) {
            Ok(calls) => {
                self.waiting.take(self.clock, messages);
                Releasing::Released { unit, calls }
            }
            Err(room) => Releasing::RecordFull(room),
        }
    }

    /// The moment of the first unit that waits.
    pub(crate) fn due(&self) -> Option<u64>
        ensures { IsLeastDue self.now.queue result }
    {
        let (due, _) = self.waiting.first()?;
        Some(due)
    }

    pub(crate) fn callers(&self) -> u32
        ensures { result ≡ self.now.callers }
    {
        self.callers
    }

    pub(crate) fn clock(&self) -> u64
        ensures { result ≡ self.now.clock }
    {
        self.clock
    }
}
