// Plays lines on a server, event by event.
ghost use Rattle.osc_atoms.specs.declared.limits.TheConstants.{MAX_PACKET};
ghost use Rattle.std.specs.Prelude.{◌≡◌, ◌++◌, ◌<◌, ◌≤◌, [], length, IfOk, OnOk};
ghost use Rattle.std.specs.Vec.Iter.{into_iter_items};
ghost use Rattle.osc_packet.specs.Reading.{packet_fault};
ghost use Rattle.osc_model.specs.History.{state_of};
ghost use Rattle.osc_core.specs.Answers.{handed_back, handed_out};
ghost use Rattle.osc_script.specs.declared.act.Act.TheVariants.{Add, Remove, Send, Tick, Pump};
ghost use Rattle.osc_script.specs.Adds.{adds_of, count_adds};
ghost use Rattle.osc_player.specs.Plain.{act_faults, fault_at};
ghost use Rattle.osc_player.specs.Tallied.{TalliesAct, TalliesLines};

use osc_atoms::{Bytes, Room};
use osc_core::{Adding, Core, Releasing, Removing};
use osc_method::Method;
use osc_packet::{MAX_PACKET, Packet};
use osc_pattern::Address;
use osc_print::{Text, fault_line};
use osc_script::{Act, Line};
use std::alloc::AllocError;
use std::vec::IntoIter;

/// A server that plays lines as caller 0, with the boxes that it doesn't have, and the lines of the faults so far.
#[derive(Drop)]
pub(crate) struct Player<M: Method> {
    pub(crate) core: Core<M>,
    /// The boxes that no add has taken yet.
    pub(crate) bank: IntoIter<M>,
    pub(crate) removed: Vec<(u32, M)>,
    /// The boxes of the adds that were refused.
    pub(crate) left: Vec<M>,
    pub(crate) faults: Text,
}

impl<M: Method> Player<M> {
    /// Plays the lines, up to the first event for whose entry there is no room, which is answered.
    pub(crate) fn play_lines(&mut self, lines: Vec<Line>) -> Result<Option<Room>, AllocError>
        requires handed { count_adds lines.items ≤ length (into_iter_items self.old.bank) }
        requires caller { 0 < (state_of self.old.core.performance).callers }
        ensures { IfOk result
            (λ stop. TalliesLines M.keep M.heard lines.items stop self.old self.new) }
    {
        for line in lines {
            let stop = self.play_act(line.number, line.act)?;
            if stop.is_some() {
                return Ok(stop);
            }
        }
        Ok(None)
    }

    /// Plays what a line says. The number is the line's. The room is told where there is none for an entry.
    fn play_act(&mut self, number: u32, act: Act) -> Result<Option<Room>, AllocError>
        requires handed { adds_of act ≤ length (into_iter_items self.old.bank) }
        requires caller { 0 < (state_of self.old.core.performance).callers }
        ensures { IfOk result
            (λ stop. TalliesAct M.keep M.heard act (act_faults number act) stop self.old self.new) }
    {
        match act {
            Act::Add(address) => self.play_add(address),
            Act::Remove(address) => self.play_remove(&address),
            Act::Send(bytes) => self.play_send(number, &bytes),
            Act::Tick(moment) => Ok(self.play_tick(moment)),
            Act::Pump => Ok(self.play_pump()),
        }
    }

    fn play_add(&mut self, address: Address) -> Result<Option<Room>, AllocError>
        requires handed { 0 < length (into_iter_items self.old.bank) }
        requires caller { 0 < (state_of self.old.core.performance).callers }
        ensures { IfOk result
            (λ stop. TalliesAct M.keep M.heard (Add address) [] stop self.old self.new) }
    {
        let Some(method) = self.bank.next() else {
            unreachable!()
        };
        let adding = self.core.add(0, address, method);
        let stop = adding.stop();
        keep_refused(&mut self.left, adding)?;
        Ok(stop)
    }

    fn play_remove(&mut self, address: &Address) -> Result<Option<Room>, AllocError>
        requires caller { 0 < (state_of self.old.core.performance).callers }
        ensures { IfOk result
            (λ stop. TalliesAct M.keep M.heard (Remove address.now) [] stop self.old self.new) }
    {
        let removing = self.core.remove(0, address);
        let stop = removing.stop();
        keep_removed(&mut self.removed, removing)?;
        Ok(stop)
    }

    fn play_send(&mut self, number: u32, bytes: &Bytes) -> Result<Option<Room>, AllocError>
        requires caller { 0 < (state_of self.old.core.performance).callers }
        ensures { IfOk result
            (λ stop. TalliesAct M.keep M.heard (Send bytes.now)
            (fault_at number (packet_fault MAX_PACKET bytes.now)) stop self.old self.new) }
    {
        match Packet::check(bytes.as_slice(), MAX_PACKET) {
            Ok(packet) => Ok(self.core.submit(0, &packet).stop()),
            Err(fault) => {
                fault_line(&mut self.faults, number, fault)?;
                Ok(None)
            }
        }
    }

    fn play_tick(&mut self, moment: u64) -> Option<Room>
        requires caller { 0 < (state_of self.old.core.performance).callers }
        ensures { TalliesAct M.keep M.heard (Tick moment) [] result self.old self.new }
    {
        self.core.tick(0, moment).stop()
    }

    /// Releases until nothing is due.
    fn play_pump(&mut self) -> Option<Room>
        requires caller { 0 < (state_of self.old.core.performance).callers }
        ensures { TalliesAct M.keep M.heard Pump [] result self.old self.new }
    {
        osc_model::laws::a_box_hears_its_calls();
        osc_model::laws::invocations_are_of_registered_methods();
        loop {
            match self.core.release(0) {
                Releasing::Released { .. } => {}
                Releasing::NothingDue { .. } => return None,
                Releasing::RecordFull(room) => return Some(room),
            }
        }
    }
}

/// Keeps the box of an add that was refused.
fn keep_refused<M: Method>(left: &mut Vec<M>, adding: Adding<M>) -> Result<(), AllocError>
    ensures { OnOk result (left.new.items ≡ left.old.items ++ handed_back adding) }
{
    match adding {
        Adding::Added(_id) => Ok(()),
        Adding::Refused {
            why: _why,
            address: _address,
            method,
        } => {
            left.push(method)?;
            Ok(())
        }
    }
}

/// Keeps the box of a method that was removed.
fn keep_removed<M: Method>(
    removed: &mut Vec<(u32, M)>,
    removing: Removing<M>,
) -> Result<(), AllocError>
    ensures { OnOk result (removed.new.items ≡ removed.old.items ++ handed_out removing) }
{
    match removing {
        Removing::Removed { id, method } => {
            removed.push((id, method))?;
            Ok(())
        }
        _ => Ok(()),
    }
}
