//! The units that wait for their time tags.
ghost use Rattle.std.specs.Prelude.{◌≡◌, ◌≤◌, ◌∷◌, length, nat_lt, position};
ghost use Rattle.std.specs.Prelude.{OnOk, IfSome, IsNone, false};
ghost use Rattle.std.specs.List.{position_or_len};
ghost use Rattle.osc_console.specs.Agenda.{arrival_at, enter as entered, BeginsLater};
ghost use Rattle.osc_shown.specs.Lines.{AddsUnit};
ghost use Rattle.osc_shown.specs.declared.answered.Answered.{Answered};
ghost use Rattle.osc_shown.specs.Tails.{waits};

use crate::View;
use crate::answer::answer_of;
use crate::awaited::Awaited;
use crate::datagram::add_units;
use osc_live::Submission;
use osc_model::Late;
use osc_packet::{MAX_PACKET, Packet, Units};
use osc_shown::{Answered, Arrival, refusal_line, unit_lines};
use std::alloc::{AllocError, Global};
use std::net::SocketAddrV4;

/// The units of a link's datagrams that wait for their time tags, by tag, and in the order in which
/// they came: as the server calls them.
pub struct Agenda {
    alloc: Global,
    waiters: Vec<Awaited>,
}

impl Drop for Agenda {
    fn drop(self) {
        let Agenda {
            alloc: _,
            waiters: _,
        } = self;
    }
}

impl Agenda {
    ghost use Rattle.std.specs.Prelude.{◌≡◌, ◌↔◌, [], IsTrue, OnOk};
    ghost use Rattle.osc_atoms.specs.declared.limits.TheConstants.{MAX_PACKET};
    ghost use Rattle.osc_packet.specs.Reading.{packet_fault, units_read};
    ghost use Rattle.osc_console.specs.Agenda.{after_datagram, enter_all, expect_all};
    ghost use Rattle.osc_console.specs.Agenda.{AddsCalled, first_tag};
    ghost use Rattle.osc_console.specs.Datagrams.{AddsDatagram, AddsUnits};

    /// Nothing waits. Takes no memory yet.
    pub fn new(alloc: Global) -> Agenda
        ensures { result.waiters.items ≡ [] }
    {
        Agenda {
            alloc,
            waiters: Vec::new(alloc),
        }
    }

    /// Adds the lines of a datagram, by what the server answered to it: those of its units, or one
    /// for its fault. Where nothing was answered to a packet, as where it wasn't handed in yet, it
    /// adds none. What waits then is noted. An `Err` means out of memory.
    pub fn datagram_lines(
        &mut self,
        text: &mut Vec<u8>,
        view: View<'_>,
        arrival: Arrival,
        datagram: &[u8],
        submission: Option<Submission>,
    ) -> Result<(), AllocError>
        ensures adds { OnOk result (AddsDatagram view.entry.look view.entry.late
            view.entry.routes.now arrival datagram.now submission text.old.items text.new.items) }
        ensures waiters { OnOk result (self.new.waiters.items
            ≡ after_datagram view.entry.late (packet_fault MAX_PACKET datagram.now) submission
            arrival.sender (units_read datagram.now) self.old.waiters.items) }
    {
        match Packet::check(datagram, MAX_PACKET) {
            Ok(packet) => match submission {
                Some(submission) => self.add_units(text, view, arrival, packet, submission),
                None => Ok(()),
            },
            Err(fault) => refusal_line(text, view.look, arrival, datagram, fault),
        }
    }

    /// Adds the lines of a packet's units, and notes those that wait.
    fn add_units(
        &mut self,
        text: &mut Vec<u8>,
        view: View<'_>,
        arrival: Arrival,
        packet: Packet<'_>,
        submission: Submission,
    ) -> Result<(), AllocError>
        ensures adds { OnOk result (AddsUnits view.entry.look view.entry.late view.entry.routes.now
            arrival submission (units_read packet.entry) text.old.items text.new.items) }
        ensures waiters { OnOk result (self.new.waiters.items ≡ enter_all view.entry.late submission
            arrival.sender (units_read packet.entry) self.old.waiters.items) }
    {
        add_units(text, view, arrival, packet.units(), submission)?;
        self.enter_all(view.late, submission, arrival.sender, packet.units())
    }

    /// Notes the units that wait, by what was answered to their packet.
    fn enter_all(
        &mut self,
        late: Late,
        submission: Submission,
        sender: Option<SocketAddrV4>,
        units: Units<'_>,
    ) -> Result<(), AllocError>
        ensures { OnOk result (self.new.waiters.items
            ≡ enter_all late submission sender units.entry self.old.waiters.items) }
    {
        for unit in units {
            if waits(answer_of(late, submission, unit.tag())) {
                enter(&mut self.waiters, Awaited::of(self.alloc, sender, &unit)?)?;
            }
        }
        Ok(())
    }

    /// Notes the units of a packet that waits already when the link begins: who has sent it isn't
    /// known. An `Err` means out of memory.
    pub fn expect(&mut self, packet: &Packet<'_>) -> Result<(), AllocError>
        ensures { OnOk result (self.new.waiters.items
            ≡ expect_all (units_read packet.now) self.old.waiters.items) }
    {
        for unit in packet.units() {
            enter(&mut self.waiters, Awaited::of(self.alloc, None, &unit)?)?;
        }
        Ok(())
    }

    /// Adds the lines of the units whose time tags aren't after this moment, as called then, and
    /// forgets these. An `Err` means out of memory.
    pub fn called_lines(
        &mut self,
        text: &mut Vec<u8>,
        view: View<'_>,
        moment: u64,
    ) -> Result<(), AllocError>
        ensures { OnOk result (AddsCalled view.entry.look view.entry.routes.now moment
            self.old.waiters.items self.new.waiters.items text.old.items text.new.items) }
    {
        while let Some(one) = take_called(&mut self.waiters, moment) {
            add_called(text, view, moment, &one)?;
        }
        Ok(())
    }

    /// Whether nothing waits.
    pub fn is_empty(&self) -> bool
        ensures { IsTrue result ↔ (self.now.waiters.items ≡ []) }
    {
        self.waiters.is_empty()
    }

    /// The time tag for which the first unit waits, if any waits.
    pub fn first(&self) -> Option<u64>
        ensures { result ≡ first_tag self.now.waiters.items }
    {
        match self.waiters.first() {
            Some(one) => Some(one.tag),
            None => None,
        }
    }
}

/// Whether a unit waits that was answered so.
fn waits(answer: Answered) -> bool
    ensures { result ≡ waits answer }
{
    matches!(answer, Answered::Waiting)
}

/// The first unit that is due later than this tag.
fn first_later(waiters: &[Awaited], tag: u64) -> Option<usize>
    ensures { result ≡ position (λ other. nat_lt tag other.unit.tag) waiters.now }
{
    waiters.iter().position(|other| tag < other.tag)
}

/// The place before the first unit that is due later.
#[tactic(auto, using(crate::proofs::Entering::places))]
fn place_of(waiters: &Vec<Awaited>, tag: u64) -> usize
    ensures place { result
        ≡ position_or_len (λ other. nat_lt tag other.unit.tag) waiters.now.items }
    ensures bound { result ≤ length waiters.now.items }
{
    match first_later(waiters, tag) {
        Some(place) => place,
        None => waiters.len(),
    }
}

/// A unit takes its place.
fn enter(waiters: &mut Vec<Awaited>, one: Awaited) -> Result<(), AllocError>
    ensures { OnOk result (waiters.new.items ≡ entered one waiters.old.items) }
{
    let place = place_of(waiters, one.tag);
    waiters.insert(place, one)?;
    Ok(())
}

/// The first unit, which then goes, if its time tag isn't after this moment.
fn take_called(waiters: &mut Vec<Awaited>, moment: u64) -> Option<Awaited>
    ensures some { IfSome result (λ one. (waiters.old.items ≡ one ∷ waiters.new.items)
        × (nat_lt moment one.unit.tag ≡ false)) }
    ensures none { IsNone result → (waiters.new.items ≡ waiters.old.items)
        × BeginsLater moment waiters.old.items }
{
    let first = waiters.first()?;
    if moment < first.tag {
        return None;
    }
    Some(waiters.remove(0))
}

/// Adds the lines of a unit that was called in a round of this moment.
fn add_called(
    text: &mut Vec<u8>,
    view: View<'_>,
    moment: u64,
    one: &Awaited,
) -> Result<(), AllocError>
    ensures { OnOk result (AddsUnit view.entry.look (arrival_at moment one.now) Answered.Due
        view.entry.routes.now one.now.unit text.old.items text.new.items) }
{
    let arrival = Arrival {
        moment: Some(moment),
        sender: one.sender,
    };
    unit_lines(
        text,
        view.look,
        arrival,
        Answered::Due,
        &one.unit(),
        view.routes,
    )
}
