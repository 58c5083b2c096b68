//! A door in memory: at each call one visitor comes, with what it says.
ghost use Rattle.std.specs.Prelude.{◌≡◌, ◌≤◌, ◌+◌, ◌++◌, [], length, take, drop, Some, IfOk, OnErr};

use crate::{Door, Knock, Said, Took, Visitor};
use std::alloc::{AllocError, Global};

/// What a visitor in memory says, and how many bytes it says or takes at a call.
pub struct Speech {
    pub says: Vec<u8>,
    pub step: usize,
}

impl Drop for Speech {
    fn drop(self) {
        let Speech { says: _, step: _ } = self;
    }
}

/// Visitors in memory, the next one last. `None` is a call that finds nobody.
pub struct MemoryDoor {
    alloc: Global,
    visitors: Vec<Option<Speech>>,
}

impl Drop for MemoryDoor {
    fn drop(self) {
        let MemoryDoor {
            alloc: _,
            visitors: _,
        } = self;
    }
}

impl MemoryDoor {
    /// A door to which these come, the last one first.
    pub fn open(alloc: Global, visitors: Vec<Option<Speech>>) -> MemoryDoor
        ensures { result.visitors ≡ visitors }
    {
        MemoryDoor { alloc, visitors }
    }
}

impl Door for MemoryDoor {
    type Visitor = MemoryVisitor;

    fn next(&mut self) -> Knock<MemoryVisitor> {
        match self.visitors.pop() {
            Some(Some(speech)) => Knock::Came(MemoryVisitor::open(self.alloc, speech)),
            Some(None) | None => Knock::Nobody,
        }
    }
}

/// A visitor in memory, which keeps what it is told.
pub struct MemoryVisitor {
    speech: Speech,
    at: usize,
    told: Vec<u8>,
    ghost within: { at ≤ length speech.says.items },
}

impl Drop for MemoryVisitor {
    fn drop(self) {
        let MemoryVisitor {
            speech: _,
            at: _,
            told: _,
        } = self;
    }
}

impl MemoryVisitor {
    /// One that has said and taken nothing yet. Takes no memory.
    pub fn open(alloc: Global, speech: Speech) -> MemoryVisitor
        ensures left { ⟦<MemoryVisitor as Visitor>⟧.left result ≡ Some speech.says.items }
        ensures taken { ⟦<MemoryVisitor as Visitor>⟧.taken result ≡ Some [] }
    {
        MemoryVisitor {
            speech,
            at: 0,
            told: Vec::new(alloc),
        }
    }

    /// What it has been told.
    pub fn told(&self) -> &[u8]
        ensures { Some result.now ≡ ⟦<MemoryVisitor as Visitor>⟧.taken self.now }
    {
        self.told.as_slice()
    }

    /// What it still has to say.
    fn left(&self) -> &[u8]
        ensures { result.now ≡ drop self.now.at self.now.speech.says.items }
    {
        &self.speech.says[self.at..]
    }

    fn take(&mut self, piece: &[u8]) -> Result<usize, AllocError>
        ensures count { IfOk result (λ count. count ≤ length piece.now) }
        ensures told { IfOk result
            (λ count. self.new.told.items ≡ self.old.told.items ++ take count piece.now) }
        ensures err { OnErr result (self.new.told.items ≡ self.old.told.items) }
        ensures speech { self.new.speech ≡ self.old.speech }
        ensures at { self.new.at ≡ self.old.at }
    {
        let count = piece.len().min(self.speech.step);
        self.told.extend_from_slice(&piece[..count])?;
        Ok(count)
    }
}

/// Copies at most so many bytes to the front of the slice, and says how many.
fn put_front(bytes: &[u8], most: usize, into: &mut [u8]) -> usize
    ensures room { result ≤ length into.new }
    ensures count { result ≤ length bytes.now }
    ensures bytes { take result into.new ≡ take result bytes.now }
{
    let count = bytes.len().min(most).min(into.len());
    copy_front(&bytes[..count], into);
    count
}

fn copy_front(bytes: &[u8], into: &mut [u8])
    requires { length bytes.now ≤ length into.old }
    ensures bytes { take (length bytes.now) into.new ≡ bytes.now }
    ensures length { length into.new ≡ length into.old }
{
    into[..bytes.len()].copy_from_slice(bytes);
}

impl Visitor for MemoryVisitor {
    ghost left = { λ v. Some (drop v.at v.speech.says.items) };

    ghost taken = { λ v. Some v.told.items };

    #[tactic(auto, using(crate::proofs::SaidFronts::said))]
    fn read(&mut self, into: &mut [u8]) -> Said {
        let count = put_front(self.left(), self.speech.step, into);
        self.at += count;
        if count == 0 {
            return Said::Quiet;
        }
        Said::Bytes(count)
    }

    fn write(&mut self, piece: &[u8]) -> Took {
        match self.take(piece) {
            Ok(count) => Took::Bytes(count),
            Err(_) => Took::Gone,
        }
    }
}
