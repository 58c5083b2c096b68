// The server with its recording, but for its boxes.
ghost use Rattle.std.specs.Prelude.{◌≡◌, ◌≢◌, ◌+◌, ◌<◌, ◌≤◌, ◌++◌, ◌∷◌, [], length, map, All};
ghost use Rattle.std.specs.Prelude.{Contains, IsTrue, IfOk, IfErr, OnOk, IfSome, IfNone};
ghost use Rattle.std.specs.Prelude.{vec_capacity};
ghost use Rattle.osc_tree.specs.Adding.{refusal_of as tree_refusal_of};
ghost use Rattle.osc_model.specs.Events.{enrol, submit, add, remove, tick, release, added, removed};
ghost use Rattle.osc_model.specs.Recordings.{record_text};
ghost use Rattle.osc_model.specs.Heard.{all_hear};
ghost use Rattle.osc_model.specs.Releases.{IsLeastDue};
ghost use Rattle.osc_model.specs.Refusals.{IsRefusal};
ghost use Rattle.osc_model.specs.History.{IsLawful, Legal, state_of, stepped_in, onward};
ghost use Rattle.osc_record.specs.Shown.{event_of, answer_of};
ghost use Rattle.osc_core.specs.Answers.{enrolled_of, submitted_of, refusal_of, removing_of};
ghost use Rattle.osc_core.specs.Answers.{ticking_of, OnRemoved, TellsRelease, OnReleased};
ghost use Rattle.osc_core.specs.Answers.{OnWaiting};
ghost use Rattle.osc_core.specs.Frames.{messages_in, AreFramed};
ghost use Rattle.osc_packet.specs.declared.limits.TheConstants.{MAX_STORED};
ghost use Rattle.osc_model.specs.Step.{calls_from, invocations_of};
ghost use Rattle.osc_core.specs.Ids.{is_ascending, without};
ghost use Rattle.osc_core.specs.Telling.{told};

use crate::answers::{AddRefusal, Enrolled, Releasing, Removing, Submitted, Ticking};
use crate::entry_answers::{
    enrol_answer, refusal_in_words, remove_answer, submit_answer, tick_answer,
};
use crate::performance_laws::a_performance_is_played;
use crate::server::Server;
use crate::shortage::shortage;
use osc_method::Method;
use osc_packet::Packet;
use osc_pattern::Address;
use osc_record::{
    Answer, Caps, ENROL_SIZE, Event, Recorder, TICK_SIZE, add_size, remove_size, submit_size,
};
use std::alloc::{AllocError, Global};
use std::marker::Model;

/// A server's tables, and the recording of what was handed in and answered. A contract sees the
/// limits and the history.
///
/// Where the entry of an event has more bytes than are free, all stays. No call but `open` takes
/// memory.
#[derive(Drop)]
pub(crate) struct Performance {
    server: Server,
    recorder: Recorder,
    /// How many entries are recorded.
    entries: u64,
}

impl Model for Performance {
    ghost use Rattle.osc_model.specs.History as history;
    ghost use Rattle.osc_core.specs.Playing.{performance_of, IsPlaying};

    ghost Value = { history.Performance };

    ghost view = { λ p. performance_of p.recorder };

    ghost invariant = { λ p. IsPlaying p.server p.recorder p.entries };
}

impl Performance {
    pub(crate) fn open(alloc: Global, caps: Caps) -> Result<Performance, AllocError>
        ensures { IfOk result (λ performance. performance ≡ record { caps = caps; history = [] }) }
    {
        // Limits are in their ranges, as each of them tells.
        let _ = caps.units();
        Ok(Performance {
            server: Server::open(alloc, caps)?,
            recorder: Recorder::open(alloc, caps)?,
            entries: 0,
        })
    }

    pub(crate) fn enrol(&mut self, caller: u32) -> Enrolled
        requires { caller < (state_of self.old).callers }
        ensures answer { enrolled_of result ≡ (stepped_in self.old enrol).answer }
        ensures performance { self.new ≡ onward self.old caller enrol }
    {
        a_performance_is_played();
        if let Some(room) = shortage(&self.recorder, ENROL_SIZE) {
            return Enrolled::RecordFull(room);
        }
        let enrolled = self.server.enrol();
        self.recorder
            .put(caller, Event::Enrol, enrol_answer(enrolled));
        self.entries += 1;
        enrolled
    }

    pub(crate) fn submit(&mut self, caller: u32, packet: &Packet<'_>) -> Submitted
        requires { caller < (state_of self.old).callers }
        ensures answer { submitted_of result ≡ (stepped_in self.old (submit packet.now)).answer }
        ensures performance { self.new ≡ onward self.old caller (submit packet.now) }
    {
        a_performance_is_played();
        let bytes = packet.bytes();
        if let Some(room) = shortage(&self.recorder, submit_size(bytes)) {
            return Submitted::RecordFull(room);
        }
        let submitted = self.server.submit(packet);
        self.recorder
            .put(caller, Event::Submit(bytes), submit_answer(submitted));
        self.entries += 1;
        submitted
    }

    /// Adds a method at the address, or hands the address back.
    pub(crate) fn add(
        &mut self,
        caller: u32,
        address: Address,
    ) -> Result<u32, (AddRefusal, Address)>
        requires { caller < (state_of self.old).callers }
        ensures added { IfOk result (λ id. (stepped_in self.old (add address)).answer ≡ added id) }
        ensures refused { IfErr result
            (λ refused. (stepped_in self.old (add address)).answer ≡ refusal_of refused.0) }
        ensures performance { self.new ≡ onward self.old caller (add address) }
        ensures new { IfOk result
            (λ id. All (λ method. method.id < id) (state_of self.old).methods) }
        ensures ids { IfOk result
            (λ id. map (λ method. method.id) (state_of self.new).methods
            ≡ map (λ method. method.id) (state_of self.old).methods ++ id ∷ []) }
        ensures room { OnOk result (length (state_of self.old).methods < self.old.caps.methods) }
        ensures handed_back { IfErr result (λ refused. refused.1 ≡ address) }
        ensures legal { Legal self.old.caps self.old.history }
    {
        a_performance_is_played();
        if let Some(room) = shortage(&self.recorder, add_size(address.bytes())) {
            return Err((AddRefusal::RecordFull(room), address));
        }
        match self.server.add(address) {
            Ok(id) => {
                let address = self.server.address_of(id);
                self.recorder
                    .put(caller, Event::Add(address), Answer::Added(id));
                self.entries += 1;
                Ok(id)
            }
            Err((refusal, address)) => {
                let answer = Answer::from(refusal);
                self.recorder
                    .put(caller, Event::Add(address.bytes()), answer);
                self.entries += 1;
                Err((refusal_in_words(refusal), address))
            }
        }
    }

    /// Removes the method at the address, and tells its id.
    pub(crate) fn remove(&mut self, caller: u32, address: &Address) -> Removing<()>
        requires { caller < (state_of self.old).callers }
        ensures answer { removing_of result ≡ (stepped_in self.old (remove address.now)).answer }
        ensures performance { self.new ≡ onward self.old caller (remove address.now) }
        ensures held { OnRemoved result
            (λ id _. Contains (map (λ method. method.id) (state_of self.old).methods) id) }
        ensures others { OnRemoved result
            (λ id _. map (λ method. method.id) (state_of self.new).methods
            ≡ without id (map (λ method. method.id) (state_of self.old).methods)) }
        ensures legal { Legal self.old.caps self.old.history }
    {
        a_performance_is_played();
        let bytes = address.bytes();
        if let Some(room) = shortage(&self.recorder, remove_size(bytes)) {
            return Removing::RecordFull(room);
        }
        let removing = self.server.remove(address);
        self.recorder
            .put(caller, Event::Remove(bytes), remove_answer(&removing));
        self.entries += 1;
        removing
    }

    pub(crate) fn tick(&mut self, caller: u32, now: u64) -> Ticking
        requires { caller < (state_of self.old).callers }
        ensures answer { ticking_of result ≡ (stepped_in self.old (tick now)).answer }
        ensures performance { self.new ≡ onward self.old caller (tick now) }
    {
        a_performance_is_played();
        if let Some(room) = shortage(&self.recorder, TICK_SIZE) {
            return Ticking::RecordFull(room);
        }
        let ticking = self.server.tick(now);
        self.recorder
            .put(caller, Event::Tick(now), tick_answer(ticking));
        self.entries += 1;
        ticking
    }

    /// Takes the least unit that is due, and makes its calls.
    pub(crate) fn release<M: Method>(
        &mut self,
        caller: u32,
        boxes: &mut Vec<(u32, M)>,
        messages: &mut Vec<u8>,
    ) -> Releasing
        requires caller { caller < (state_of self.old).callers }
        requires room { MAX_STORED ≤ vec_capacity messages.old }
        requires ascending { IsTrue (is_ascending (map (λ one. one.0) boxes.old.items)) }
        ensures answer { TellsRelease result (stepped_in self.old release).answer }
        ensures performance { self.new ≡ onward self.old caller release }
        ensures boxes { told M.keep M.heard boxes.new.items
            ≡ all_hear (stepped_in self.old release).invocations
            (told M.keep M.heard boxes.old.items) }
        ensures ids { map (λ one. one.0) boxes.new.items ≡ map (λ one. one.0) boxes.old.items }
        ensures capacity { vec_capacity boxes.old ≤ vec_capacity boxes.new }
        ensures messages { OnReleased result (λ unit. (stepped_in self.old release).invocations
            ≡ invocations_of unit
            (calls_from (state_of self.old).methods 0 (messages_in messages.new.items))) }
        ensures framed { OnReleased result (λ unit. AreFramed messages.new.items) }
        ensures kept { OnWaiting result (messages.new ≡ messages.old) }
        ensures reserved { MAX_STORED ≤ vec_capacity messages.new }
    {
        a_performance_is_played();
        let releasing = self
            .server
            .release(caller, &mut self.recorder, boxes, messages);
        if let Releasing::Released { .. } = releasing {
            self.entries += 1;
        }
        releasing
    }

    /// Records the entry of an event that was refused, as the history has it.
    pub(crate) fn refuse(&mut self, caller: u32, event: Event<'_>, answer: Answer<'_>)
        requires caller { caller < (state_of self.old).callers }
        requires lawful { IsLawful (event_of event) }
        requires no_release { event_of event ≢ release }
        requires answer { answer_of answer ≡ (stepped_in self.old (event_of event)).answer }
        requires refusal { IsRefusal (answer_of answer) }
        ensures performance { self.new ≡ onward self.old caller (event_of event.entry) }
    {
        a_performance_is_played();
        self.recorder.put(caller, event, answer);
        self.entries += 1;
    }

    pub(crate) fn callers(&self) -> u32
        ensures value { result ≡ (state_of self.now).callers }
        ensures legal { Legal self.now.caps self.now.history }
    {
        self.server.callers()
    }

    pub(crate) fn due(&self) -> Option<u64>
        ensures { IsLeastDue (state_of self.now).queue result }
    {
        self.server.due()
    }

    pub(crate) fn clock(&self) -> u64
        ensures { result ≡ (state_of self.now).clock }
    {
        self.server.clock()
    }

    pub(crate) fn entries(&self) -> u64
        ensures { result ≡ length self.now.history }
    {
        self.entries
    }

    pub(crate) fn bytes(&self) -> &[u8]
        ensures text { result.now ≡ record_text self.now.caps self.now.history }
        ensures legal { Legal self.now.caps self.now.history }
    {
        self.recorder.bytes()
    }

    pub(crate) fn close(self) -> Vec<u8>
        ensures text { result.items ≡ record_text self.caps self.history }
        ensures legal { Legal self.caps self.history }
    {
        self.recorder.close()
    }
}
