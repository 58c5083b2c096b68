//! How the entries of a history are played again.
ghost use Rattle.std.specs.Prelude.{◌≡◌, ◌<◌};
ghost use Rattle.osc_model.specs.History.{IsLawful, state_of, stepped_in, onward};
ghost use Rattle.osc_record.specs.Shown.{event_of, answer_of};
ghost use Rattle.osc_record.specs.Left.{placed_of};
ghost use Rattle.osc_core.specs.Redoing.{HandsIn, Redoes, with_entry};
ghost use Rattle.osc_core.specs.Telling.{told};

use crate::answers::{Adding, Removing};
use crate::sequential::Core;
use osc_method::Method;
use osc_packet::Packet;
use osc_pattern::Address;
use osc_record::{Entry, Event};

impl<M: Method> Core<M> {
    /// Plays an entry of a history again, on the server after the entries before it. With a method
    /// that was added its address and a box are handed in, with one that was removed its address,
    /// and nothing else. A box that is handed in is reset and kept, the boxes of a release are
    /// invoked, and a removed one comes out. It can't be refused, and takes no memory.
    pub fn redo(
        &mut self,
        entry: &Entry<'_>,
        address: Option<Address>,
        method: Option<M>,
    ) -> Option<M>
        requires caller { entry.now.caller < (state_of self.old.performance).callers }
        requires lawful { IsLawful (event_of entry.now.event) }
        requires answer { answer_of entry.now.answer
            ≡ (stepped_in self.old.performance (event_of entry.now.event)).answer }
        requires handed { HandsIn (event_of entry.now.event) (answer_of entry.now.answer) address
            method }
        ensures onward { self.new.performance
            ≡ onward self.old.performance entry.now.caller (event_of entry.now.event) }
        ensures entry { self.new.performance
            ≡ with_entry self.old.performance (placed_of entry.now).entry }
        ensures boxes { Redoes M.keep M.heard (event_of entry.now.event)
            (answer_of entry.now.answer)
            (stepped_in self.old.performance (event_of entry.now.event)).invocations method
            (told M.keep M.heard self.old.boxes.items) (told M.keep M.heard self.new.boxes.items)
            result }
    {
        let caller = entry.caller;
        match entry.event {
            Event::Enrol => {
                let _ = self.enrol(caller);
                None
            }
            Event::Submit(packet) => {
                let _ = self.submit(caller, &Packet::known(packet));
                None
            }
            Event::Add(_) => {
                let Some(method) = method else {
                    self.refuse(caller, entry.event, entry.answer);
                    return None;
                };
                let Some(address) = address else {
                    unreachable!()
                };
                match self.add(caller, address, method) {
                    Adding::Added(_) => None,
                    Adding::Refused { .. } => unreachable!(),
                }
            }
            Event::Remove(_) => {
                let Some(address) = address else {
                    self.refuse(caller, entry.event, entry.answer);
                    return None;
                };
                match self.remove(caller, &address) {
                    Removing::Removed { method, .. } => Some(method),
                    Removing::RecordFull(_) | Removing::NotThere => unreachable!(),
                }
            }
            Event::Tick(now) => {
                let _ = self.tick(caller, now);
                None
            }
            Event::Release => {
                let _ = self.release(caller);
                None
            }
        }
    }
}
