// One visit: what was heard of a visitor, and what it is told.
ghost use Rattle.std.specs.Prelude.{◌≡◌, ◌+◌, ◌≤◌, ◌++◌, ℕ, [], None, length, take, drop};
ghost use Rattle.std.specs.Prelude.{option_map, IfOk, OnOk, OnErr};
ghost use Rattle.osc_hall.specs.declared.limits.TheConstants.{SHARE};
ghost use Rattle.osc_hall.specs.Visits.{HasAnswer, text_of};

use crate::limits::SHARE;
use osc_page::{Heard, MAX_HEAD, hear_head, reply};
use std::alloc::{AllocError, Global};

/// What was heard of a visitor, and what it is told: nothing before its request is whole.
pub(crate) struct Visit {
    pub(crate) heard: Vec<u8>,
    pub(crate) answer: Option<Vec<u8>>,
    /// How many bytes of the answer it has.
    pub(crate) told: usize,
    ghost within: { told ≤ length (text_of (option_map (λ text. text.items) answer)) },
}

impl Drop for Visit {
    fn drop(self) {
        let Visit {
            heard: _,
            answer: _,
            told: _,
        } = self;
    }
}

impl Visit {
    /// Takes no memory.
    pub(crate) fn open(alloc: Global) -> Visit
        ensures heard { result.heard.items ≡ [] }
        ensures answer { result.answer ≡ None }
        ensures told { result.told ≡ 0 }
    {
        Visit {
            heard: Vec::new(alloc),
            answer: None,
            told: 0,
        }
    }

    /// Hears a piece more of a visitor that has no answer yet. The answer is there once the request
    /// is whole, or is none, or is too large. An `Err` is out of memory.
    pub(crate) fn hear(
        &mut self,
        alloc: Global,
        piece: &[u8],
        page: &[u8],
        state: &[u8],
    ) -> Result<(), AllocError>
        requires listens { self.old.answer ≡ None }
        requires none_told { self.old.told ≡ 0 }
        ensures heard { OnOk result (self.new.heard.items ≡ self.old.heard.items ++ piece.now) }
        ensures answer { OnOk result (HasAnswer page.now state.now self.new.heard.items
            (option_map (λ text. text.items) self.new.answer)) }
        ensures told { self.new.told ≡ 0 }
        ensures err { OnErr result (self.new.answer ≡ None) }
    {
        self.heard.extend_from_slice(piece)?;
        self.answer = answer(alloc, &self.heard, page, state)?;
        Ok(())
    }

    /// What the visitor hasn't been told yet.
    pub(crate) fn rest(&self) -> &[u8]
        ensures { result.now ≡ drop self.now.told
            (text_of (option_map (λ text. text.items) self.now.answer)) }
    {
        match &self.answer {
            Some(text) => &text[self.told..],
            None => &[],
        }
    }

    /// What the visitor is told next: a share of what it hasn't been told yet.
    pub(crate) fn share(&self) -> &[u8]
        ensures { result.now ≡ take SHARE (drop self.now.told
            (text_of (option_map (λ text. text.items) self.now.answer))) }
    {
        front(self.rest(), SHARE)
    }

    /// The visitor took so many bytes more.
    pub(crate) fn took(&mut self, count: usize)
        requires within { self.old.told + count
            ≤ length (text_of (option_map (λ text. text.items) self.old.answer)) }
        ensures told { self.new.told ≡ self.old.told + count }
        ensures heard { self.new.heard ≡ self.old.heard }
        ensures answer { self.new.answer ≡ self.old.answer }
    {
        self.told += count;
    }
}

/// The answer to what was heard, if there is one yet.
fn answer(
    alloc: Global,
    heard: &[u8],
    page: &[u8],
    state: &[u8],
) -> Result<Option<Vec<u8>>, AllocError>
    ensures { IfOk result (λ answer. HasAnswer page.now state.now heard.now
        (option_map (λ text. text.items) answer)) }
{
    match hear_head(heard) {
        Heard::More if heard.len() < MAX_HEAD => Ok(None),
        said => Ok(Some(reply(alloc, page, state, said)?)),
    }
}

/// At most so many bytes, from the front.
fn front(bytes: &[u8], most: usize) -> &[u8]
    ensures { result.now ≡ take most bytes.now }
{
    if bytes.len() <= most {
        bytes
    } else {
        &bytes[..most]
    }
}
