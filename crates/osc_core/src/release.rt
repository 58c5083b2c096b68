// The last release of a unit: its messages, and where its hits stand in the recording.
ghost use Rattle.osc_packet.specs.declared.limits.TheConstants.{MAX_STORED};
ghost use Rattle.std.specs.Prelude.{◌≡◌, ◌+◌, ◌*◌, ◌≤◌, length, drop, IfOk, vec_capacity};
ghost use Rattle.osc_core.specs.Frames.{messages_in, AreFramed};
ghost use Rattle.osc_core.specs.Invoked.{starts_of, FindEach};

use crate::called::{Calls, rest_from, split_message};
use osc_packet::MAX_STORED;
use std::alloc::{AllocError, Global};

/// The last release.
#[derive(Drop)]
pub(crate) struct LastRelease {
    pub(crate) unit: u64,
    /// How many calls it made.
    pub(crate) calls: u32,
    /// Where their hits stand in the recording.
    pub(crate) place: usize,
    /// The messages of the unit, each after its length in 4 bytes.
    pub(crate) bytes: Vec<u8>,
    /// Where each of them begins; empty where there is one alone, which begins at 0.
    pub(crate) starts: Vec<u32>,
}

impl LastRelease {
    ghost use Rattle.osc_core.specs.Invoked.{FindEach, calls_left, calls_in};

    /// Of none. The `Err` means that there is no memory for messages.
    pub(crate) fn open(alloc: Global) -> Result<LastRelease, AllocError>
        ensures calls { IfOk result (λ last. last.calls ≡ 0) }
        ensures place { IfOk result (λ last. last.place ≡ 0) }
        ensures bytes { IfOk result (λ last. MAX_STORED ≤ vec_capacity last.bytes) }
        ensures starts { IfOk result (λ last. MAX_STORED ≤ 4 * vec_capacity last.starts) }
    {
        Ok(LastRelease {
            unit: 0,
            calls: 0,
            place: 0,
            bytes: Vec::with_capacity(alloc, MAX_STORED as usize)?,
            starts: Vec::with_capacity(alloc, MAX_STORED as usize / 4)?,
        })
    }

    /// The release of a unit whose messages are there, with so many calls, ends a recording of so
    /// many bytes.
    pub(crate) fn note(&mut self, unit: u64, calls: u32, recorded: usize)
        requires framed { AreFramed self.old.bytes.items }
        requires room { MAX_STORED ≤ 4 * vec_capacity self.old.starts }
        requires within { 8 * calls ≤ recorded }
        ensures unit { self.new.unit ≡ unit }
        ensures calls { self.new.calls ≡ calls }
        ensures place { self.new.place + 8 * calls ≡ recorded }
        ensures bytes { self.new.bytes ≡ self.old.bytes }
        ensures starts { FindEach self.new.starts.items (messages_in self.old.bytes.items) }
        ensures room { vec_capacity self.old.starts ≤ vec_capacity self.new.starts }
    {
        self.unit = unit;
        self.calls = calls;
        self.place = recorded - 8 * calls as usize;
        keep_starts(&self.bytes, &mut self.starts);
    }

    /// Its calls from one on, whose hits stand in the recording.
    pub(crate) fn calls_from<'a>(&'a self, first: u32, recording: &'a [u8]) -> Calls<'a>
        requires { self.now.place + 8 * self.now.calls ≤ length recording.now }
        ensures { calls_left result ≡ drop first (calls_in self.now recording.now) }
    {
        let hits = recording
            .split_at(self.place)
            .1
            .split_at(8 * self.calls as usize)
            .0;
        Calls {
            unit: self.unit,
            hits: rest_from(hits, 8 * first as usize),
            bytes: self.bytes.as_slice(),
            starts: self.starts.as_slice(),
        }
    }
}

/// Keeps where each of the messages begins, unless there is one alone.
#[inline(always)]
fn keep_starts(bytes: &[u8], starts: &mut Vec<u32>)
    requires framed { AreFramed bytes.now }
    requires room { MAX_STORED ≤ 4 * vec_capacity starts.old }
    ensures starts { FindEach starts.new.items (messages_in bytes.now) }
    ensures capacity { vec_capacity starts.old ≤ vec_capacity starts.new }
{
    if split_message(bytes).1.is_empty() {
        starts.clear();
    } else {
        find_starts(bytes, starts);
    }
}

/// Tells where each of the messages begins.
#[inline(never)]
fn find_starts(bytes: &[u8], starts: &mut Vec<u32>)
    requires framed { AreFramed bytes.now }
    requires room { MAX_STORED ≤ 4 * vec_capacity starts.old }
    ensures starts { starts.new.items ≡ starts_of 0 (messages_in bytes.now) }
    ensures capacity { vec_capacity starts.old ≤ vec_capacity starts.new }
{
    starts.clear();
    let mut rest = bytes;
    while !rest.is_empty() {
        starts.push_reserved((bytes.len() - rest.len()) as u32);
        rest = split_message(rest).1;
    }
}
