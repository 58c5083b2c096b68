//! The server with its recording and its boxes, one event after another.
ghost use Rattle.std.specs.Prelude.{◌≡◌, ◌≢◌, ◌+◌, ◌*◌, ◌<◌, ◌≤◌, ◌++◌, ◌∷◌, [], length, map, drop};
ghost use Rattle.std.specs.Prelude.{IsTrue, ℕ, ◌↔◌, List, Contains, vec_capacity, IfOk, IfSome};
ghost use Rattle.std.specs.Prelude.{IsSome};
ghost use Rattle.osc_model.specs.Events.{enrol, submit, add, remove, tick, release};
ghost use Rattle.osc_model.specs.Recordings.{record_text};
ghost use Rattle.osc_model.specs.Heard.{Told, reset, all_hear, without_id};
ghost use Rattle.osc_model.specs.Refusals.{IsRefusal};
ghost use Rattle.osc_model.specs.Releases.{IsLeastDue};
ghost use Rattle.osc_model.specs.History.{IsLawful, Legal, state_of, stepped_in, onward, HaveHeard};
ghost use Rattle.osc_record.specs.Shown.{event_of, answer_of};
ghost use Rattle.osc_laws.specs.Laws.{KeepsTheLaws};
ghost use Rattle.osc_core.specs.Answers.{enrolled_of, submitted_of, adding_of, removing_of};
ghost use Rattle.osc_core.specs.Answers.{ticking_of, TellsRelease, OnAdded, OnRefused, OnRemoved};
ghost use Rattle.osc_core.specs.Answers.{OnKept};
ghost use Rattle.osc_core.specs.Invoked.{last_calls, calls_left, calls_in, calls_set};
ghost use Rattle.osc_packet.specs.declared.limits.TheConstants.{MAX_STORED};
ghost use Rattle.osc_core.specs.Ids.{is_ascending};
ghost use Rattle.osc_core.specs.Telling.{told};
ghost use Rattle.osc_core.specs.Standing.{StandsFor, GoesOn};
ghost use Rattle.osc_core.specs.Hearing.{HaveHeard-prop};

use crate::answers::{Adding, Closed, Enrolled, Releasing, Removing, Submitted, Ticking};
use crate::boxes::{box_of, hand_out, keep_box};
use crate::called::Calls;
use crate::kept::a_server_stands_for_more;
use crate::performance::Performance;
use crate::performance_laws::boxes_stay;
use crate::release::LastRelease;
use osc_method::Method;
use osc_packet::Packet;
use osc_pattern::Address;
use osc_record::{Answer, Caps, Event};
use std::alloc::{AllocError, Global};

/// Methods by address with their boxes, units that wait for their moment, a clock and callers (OSC
/// 1.0, "OSC Message Dispatching and Pattern Matching" and "Temporal Semantics and OSC Time Tags"),
/// and the recording of all that was handed in and answered. Caller 0 is enrolled from the start.
///
/// A contract sees its limits and its history as `performance`, and what each of its boxes keeps
/// and tells. All memory is taken at opening. Where a call is answered `RecordFull`, all is as it
/// was.
pub struct Core<M: Method> {
    performance: Performance,
    boxes: Vec<(u32, M)>,
    last: LastRelease,
    ghost room: { MAX_STORED ≤ vec_capacity last.bytes },
    ghost places: { MAX_STORED ≤ 4 * vec_capacity last.starts },
    ghost within: { last.place + 8 * last.calls
        ≤ length (record_text performance.caps performance.history) },
    ghost calls: { calls_in last (record_text performance.caps performance.history)
        ≡ last_calls performance } by { calls_set _ _ },
    ghost alike: { map (λ one. one.0) boxes.items
        ≡ map (λ method. method.id) (state_of performance).methods },
    ghost ascending: { IsTrue (is_ascending (map (λ one. one.0) boxes.items)) },
    ghost reserved: { performance.caps.methods ≤ vec_capacity boxes },
    ghost heard: { HaveHeard performance
        (told M.keep M.heard boxes.items) } by { HaveHeard-prop performance _ },
}

impl<M: Method> Drop for Core<M> {
    fn drop(self) {
        let Core {
            performance: _,
            boxes: _,
            last: _,
        } = self;
    }
}

impl<M: Method> Core<M> {
    /// A server with these limits. Its clock stands at 1. The `Err` means that there is no memory
    /// for its tables.
    pub fn open(alloc: Global, caps: Caps) -> Result<Core<M>, AllocError>
        ensures performance { IfOk result
            (λ core. core.performance ≡ record { caps = caps; history = [] }) }
        ensures boxes { IfOk result (λ core. told M.keep M.heard core.boxes.items ≡ []) }
        ensures heard { IfOk result
            (λ core. HaveHeard core.performance (told M.keep M.heard core.boxes.items)) }
        ensures stands { IfOk result
            (λ core. StandsFor core.performance (told M.keep M.heard core.boxes.items) []) }
    {
        osc_model::laws::boxes_hear_the_history();
        Ok(Core {
            performance: Performance::open(alloc, caps)?,
            boxes: Vec::with_capacity(alloc, caps.methods() as usize)?,
            last: LastRelease::open(alloc)?,
        })
    }

    /// Enrols a caller, who gets the number of callers so far.
    pub fn enrol(&mut self, caller: u32) -> Enrolled
        requires { caller < (state_of self.old.performance).callers }
        ensures answer { enrolled_of result ≡ (stepped_in self.old.performance enrol).answer }
        ensures performance { self.new.performance ≡ onward self.old.performance caller enrol }
        ensures boxes { told M.keep M.heard self.new.boxes.items
            ≡ told M.keep M.heard self.old.boxes.items }
        ensures stands { GoesOn enrol self.old.performance
            (told M.keep M.heard self.old.boxes.items)
            self.new.performance (told M.keep M.heard self.new.boxes.items) }
    {
        boxes_stay();
        a_server_stands_for_more();
        self.performance.enrol(caller)
    }

    /// Queues the packet's units, numbered in their order (docs/SERVER.md, "Units").
    pub fn submit(&mut self, caller: u32, packet: &Packet<'_>) -> Submitted
        requires { caller < (state_of self.old.performance).callers }
        ensures answer { submitted_of result
            ≡ (stepped_in self.old.performance (submit packet.now)).answer }
        ensures performance { self.new.performance
            ≡ onward self.old.performance caller (submit packet.now) }
        ensures boxes { told M.keep M.heard self.new.boxes.items
            ≡ told M.keep M.heard self.old.boxes.items }
        ensures stands { GoesOn (submit packet.now) self.old.performance
            (told M.keep M.heard self.old.boxes.items)
            self.new.performance (told M.keep M.heard self.new.boxes.items) }
    {
        boxes_stay();
        a_server_stands_for_more();
        // The packet is valid, as it tells.
        let _ = packet.bytes();
        self.performance.submit(caller, packet)
    }

    /// Adds a method at the address, and resets and keeps its box. A refusal hands both back.
    pub fn add(&mut self, caller: u32, address: Address, method: M) -> Adding<M>
        requires { caller < (state_of self.old.performance).callers }
        ensures answer { adding_of result ≡ (stepped_in self.old.performance (add address)).answer }
        ensures performance { self.new.performance
            ≡ onward self.old.performance caller (add address) }
        ensures added { OnAdded result
            (λ id. told M.keep M.heard self.new.boxes.items
            ≡ told M.keep M.heard self.old.boxes.items
            ++ reset (record { id = id; keep = M.keep method; heard = M.heard method }) ∷ []) }
        ensures boxes { OnRefused result
            (λ _ _. told M.keep M.heard self.new.boxes.items
            ≡ told M.keep M.heard self.old.boxes.items) }
        ensures handed_back { OnRefused result
            (λ back untouched. (back ≡ address) × (untouched ≡ method)) }
        ensures stands { GoesOn (add address) self.old.performance
            (told M.keep M.heard self.old.boxes.items)
            self.new.performance (told M.keep M.heard self.new.boxes.items) }
    {
        boxes_stay();
        a_server_stands_for_more();
        // The address is lawful, as it tells.
        let _ = address.bytes();
        osc_model::laws::boxes_hear_the_history();
        match self.performance.add(caller, address) {
            Ok(id) => {
                keep_box(&mut self.boxes, id, method);
                Adding::Added(id)
            }
            Err((why, address)) => Adding::Refused {
                why,
                address,
                method,
            },
        }
    }

    /// Removes the method at the address, and hands its box out with what it heard.
    pub fn remove(&mut self, caller: u32, address: &Address) -> Removing<M>
        requires { caller < (state_of self.old.performance).callers }
        ensures answer { removing_of result
            ≡ (stepped_in self.old.performance (remove address.now)).answer }
        ensures performance { self.new.performance
            ≡ onward self.old.performance caller (remove address.now) }
        ensures removed { OnRemoved result
            (λ id method. Contains {X = Told} (told M.keep M.heard self.old.boxes.items)
            (record { id = id; keep = M.keep method; heard = M.heard method })) }
        ensures others { OnRemoved result
            (λ id _. told M.keep M.heard self.new.boxes.items
            ≡ without_id id (told M.keep M.heard self.old.boxes.items)) }
        ensures boxes { OnKept result
            (told M.keep M.heard self.new.boxes.items ≡ told M.keep M.heard self.old.boxes.items) }
        ensures stands { GoesOn (remove address.now) self.old.performance
            (told M.keep M.heard self.old.boxes.items)
            self.new.performance (told M.keep M.heard self.new.boxes.items) }
    {
        boxes_stay();
        a_server_stands_for_more();
        // The address is lawful, as it tells.
        let _ = address.bytes();
        osc_model::laws::boxes_hear_the_history();
        match self.performance.remove(caller, address) {
            Removing::Removed { id, .. } => Removing::Removed {
                id,
                method: hand_out(&mut self.boxes, id),
            },
            Removing::RecordFull(room) => Removing::RecordFull(room),
            Removing::NotThere => Removing::NotThere,
        }
    }

    /// Sets the clock to the moment, unless it is before the clock.
    pub fn tick(&mut self, caller: u32, now: u64) -> Ticking
        requires { caller < (state_of self.old.performance).callers }
        ensures answer { ticking_of result ≡ (stepped_in self.old.performance (tick now)).answer }
        ensures performance { self.new.performance ≡ onward self.old.performance caller (tick now) }
        ensures boxes { told M.keep M.heard self.new.boxes.items
            ≡ told M.keep M.heard self.old.boxes.items }
        ensures stands { GoesOn (tick now) self.old.performance
            (told M.keep M.heard self.old.boxes.items)
            self.new.performance (told M.keep M.heard self.new.boxes.items) }
    {
        boxes_stay();
        a_server_stands_for_more();
        self.performance.tick(caller, now)
    }

    /// Takes the unit that is least by due moment and number, if it is due, and invokes for each of
    /// its messages in order each method that its pattern matches, in ascending order of the
    /// address. The calls are counted first: where the entry has no room, no box is called.
    pub fn release(&mut self, caller: u32) -> Releasing
        requires { caller < (state_of self.old.performance).callers }
        ensures answer { TellsRelease result (stepped_in self.old.performance release).answer }
        ensures performance { self.new.performance ≡ onward self.old.performance caller release }
        ensures boxes { told M.keep M.heard self.new.boxes.items
            ≡ all_hear (stepped_in self.old.performance release).invocations
            (told M.keep M.heard self.old.boxes.items) }
        ensures stands { GoesOn release self.old.performance
            (told M.keep M.heard self.old.boxes.items)
            self.new.performance (told M.keep M.heard self.new.boxes.items) }
    {
        boxes_stay();
        a_server_stands_for_more();
        osc_model::laws::boxes_hear_the_history();
        osc_model::laws::a_legal_history_is_recordable();
        // The history is legal, as the recording tells.
        let _ = self.performance.bytes();
        let releasing = self
            .performance
            .release(caller, &mut self.boxes, &mut self.last.bytes);
        let Releasing::Released { unit, calls } = releasing else {
            return releasing;
        };
        self.last.note(unit, calls, self.performance.bytes().len());
        releasing
    }

    /// Records the entry of an event that was refused, as the history has it.
    pub(crate) fn refuse(&mut self, caller: u32, event: Event<'_>, answer: Answer<'_>)
        requires caller { caller < (state_of self.old.performance).callers }
        requires lawful { IsLawful (event_of event) }
        requires no_release { event_of event ≢ release }
        requires answer { answer_of answer
            ≡ (stepped_in self.old.performance (event_of event)).answer }
        requires refusal { IsRefusal (answer_of answer) }
        ensures performance { self.new.performance
            ≡ onward self.old.performance caller (event_of event.entry) }
        ensures boxes { told M.keep M.heard self.new.boxes.items
            ≡ told M.keep M.heard self.old.boxes.items }
    {
        boxes_stay();
        self.performance.refuse(caller, event, answer);
    }

    /// How many callers are enrolled: their numbers are those below this one. Caller 0 always is.
    pub fn callers(&self) -> u32
        ensures value { result ≡ (state_of self.now.performance).callers }
        ensures some { 1 ≤ result }
    {
        osc_model::laws::a_server_stays_sound();
        self.performance.callers()
    }

    /// The clock: the last moment that was handed in, or 1.
    pub fn clock(&self) -> u64
        ensures { result ≡ (state_of self.now.performance).clock }
    {
        self.performance.clock()
    }

    /// The moment of the unit that a release takes next, once the clock stands there: the least of
    /// those that wait, or `None` where none waits.
    pub fn due(&self) -> Option<u64>
        ensures { IsLeastDue (state_of self.now.performance).queue result }
    {
        self.performance.due()
    }

    /// The box of the method with this id, where there is one.
    pub fn method(&self, id: u32) -> Option<&M>
        ensures there { IsSome result
            ↔ Contains (map (λ method. method.id) (state_of self.now.performance).methods) id }
        ensures told { IfSome result (λ method. Contains {X = Told}
            (told M.keep M.heard self.now.boxes.items)
            (record { id = id; keep = M.keep method.now; heard = M.heard method.now })) }
    {
        box_of(&self.boxes, id)
    }

    /// How many entries the history has.
    pub fn entries(&self) -> u64
        ensures { result ≡ length self.now.performance.history }
    {
        self.performance.entries()
    }

    /// The calls that the last release of a unit made, in order.
    pub fn calls(&self) -> Calls<'_>
        ensures { calls_left result ≡ last_calls self.now.performance }
    {
        self.calls_from(0)
    }

    /// Those of them from this one on, counted from 0. So a host that keeps no `Calls` reads them
    /// one by one.
    pub fn calls_from(&self, first: u32) -> Calls<'_>
        ensures { calls_left result ≡ drop first (last_calls self.now.performance) }
    {
        self.last.calls_from(first, self.performance.bytes())
    }

    /// The recording so far (docs/FORMATS.md, "The recording").
    pub fn bytes(&self) -> &[u8]
        ensures text { result.now
            ≡ record_text self.now.performance.caps self.now.performance.history }
        ensures legal { Legal self.now.performance.caps self.now.performance.history }
    {
        self.performance.bytes()
    }

    /// Ends the server, and hands out its recording, and its boxes with what they heard.
    pub fn close(self) -> Closed<M>
        ensures text { result.bytes.items
            ≡ record_text self.performance.caps self.performance.history }
        ensures legal { Legal self.performance.caps self.performance.history }
        ensures laws { KeepsTheLaws self.performance.caps self.performance.history }
        ensures kept { told M.keep M.heard result.kept.items
            ≡ told M.keep M.heard self.boxes.items }
        ensures heard { HaveHeard self.performance (told M.keep M.heard result.kept.items) }
        ensures ids { map (λ one. one.0) result.kept.items
            ≡ map (λ method. method.id) (state_of self.performance).methods }
        ensures ascending { IsTrue (is_ascending (map (λ one. one.0) result.kept.items)) }
    {
        osc_laws::laws::every_history_keeps_the_laws();
        let Core {
            performance,
            boxes,
            last: _,
        } = self;
        Closed {
            bytes: performance.close(),
            kept: boxes,
        }
    }
}
