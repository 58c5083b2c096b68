//! A unit that waits.
ghost use Rattle.std.specs.Prelude.{◌≡◌, IfOk};

use crate::kept_message::KeptMessage;
use osc_model::is_late;
use osc_packet::{Unit, UnitMessages};
use std::alloc::{AllocError, Global};
use std::marker::Model;

/// A unit that waits for its moment. A contract sees the moment from which it is due, its number,
/// and who handed it in with which effective tag and messages.
#[derive(Drop)]
pub struct Waiting {
    due: u64,
    number: u64,
    caller: u32,
    tag: u64,
    messages: Vec<KeptMessage>,
}

impl Model for Waiting {
    ghost use Rattle.osc_queue.specs.Timed.{Item};
    ghost use Rattle.osc_story.specs.Standings.{Handed};

    ghost Value = { Item Handed };

    ghost view = { λ w. (
      w.due,
      w.number,
      record {
        caller = w.caller;
        unit = record { tag = w.tag; messages = w.messages.items };
      },
    ) };
}

impl Waiting {
    ghost use Rattle.std.specs.Prelude.{◌≡◌, IfOk};
    ghost use Rattle.osc_queue.specs.Timed.{due_of, unit_of};
    ghost use Rattle.osc_queue.specs.Timed as timed;
    ghost use Rattle.osc_model.specs.Step as step;
    ghost use Rattle.osc_story.specs.Standings.{handed};

    /// A caller's unit, which is due at its tag or at the clock, whichever is greater.
    pub(crate) fn new(
        alloc: Global,
        unit: &Unit<'_>,
        caller: u32,
        clock: u64,
        number: u64,
    ) -> Result<Waiting, AllocError>
        ensures { IfOk result (λ waiting. waiting ≡ handed caller clock number unit.now) }
    {
        Ok(Waiting {
            due: unit.tag().max(clock),
            number,
            caller,
            tag: unit.tag(),
            messages: copied(alloc, unit.messages())?,
        })
    }

    /// The moment from which it is due.
    pub fn due(&self) -> u64
        ensures { result ≡ due_of self.now }
    {
        self.due
    }

    /// Its number, counted from 0 over all units.
    pub fn number(&self) -> u64
        ensures { result ≡ unit_of self.now }
    {
        self.number
    }

    /// Who handed it in.
    pub fn caller(&self) -> u32
        ensures { result ≡ self.now.2.caller }
    {
        self.caller
    }

    /// Its effective time tag.
    pub fn tag(&self) -> u64
        ensures { result ≡ self.now.2.unit.tag }
    {
        self.tag
    }

    /// Its messages, in order.
    pub fn messages(&self) -> &[KeptMessage]
        ensures { result.now ≡ self.now.2.unit.messages }
    {
        &self.messages
    }

    /// Whether it was late when it was handed in: its tag isn't 1, and was before the clock.
    pub fn is_late(&self) -> bool
        ensures { result ≡ step.is_late (due_of self.now) self.now.2.unit }
    {
        is_late(self.due, self.tag)
    }

    /// Whether it is taken before the other.
    pub(crate) fn is_before(&self, other: &Waiting) -> bool
        ensures { result ≡ timed.is_before self.now other.now }
    {
        self.due < other.due || (self.due == other.due && self.number < other.number)
    }
}

/// Copies of the messages.
fn copied(alloc: Global, messages: UnitMessages<'_>) -> Result<Vec<KeptMessage>, AllocError>
    ensures { IfOk result (λ copies. copies.items ≡ messages.entry) }
{
    let mut copies = Vec::new(alloc);
    for message in messages {
        copies.push(KeptMessage::copied(alloc, &message)?)?;
    }
    Ok(copies)
}
