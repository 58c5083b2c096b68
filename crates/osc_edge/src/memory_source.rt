//! A source in memory that gives small pieces, and fails at the calls in a list.
ghost use Rattle.std.specs.Prelude.{◌≡◌, ◌≤◌, ℕ, min, length, take, drop, Some, vec_len};

use crate::calls::Calls;
use crate::{Source, Taken};

/// The most bytes that a call in memory moves.
pub(crate) const PIECE: usize = 4096;

/// Bytes in memory, of which a call gives at most 4,096. Calls whose numbers, from 1, stand in a list fail.
#[derive(Drop)]
pub struct MemorySource {
    bytes: Vec<u8>,
    at: usize,
    calls: Calls,
    faults: u64,
    ghost within: { at ≤ vec_len bytes },
}

impl MemorySource {
    ghost use Rattle.osc_edge.specs.Memory.{source_calls};

    /// Takes no memory.
    pub fn open(bytes: Vec<u8>, fails: Vec<u32>) -> Self
        ensures left { ⟦<MemorySource as Source>⟧.left result ≡ Some bytes.items }
        ensures faults { ⟦<MemorySource as Source>⟧.faults result ≡ 0 }
        ensures calls { source_calls result ≡ record { made = 0; fails = fails.items } }
    {
        MemorySource {
            bytes,
            at: 0,
            calls: Calls::open(fails),
            faults: 0,
        }
    }
}

impl Source for MemorySource {
    ghost use Rattle.osc_edge.specs.Calls.{one_more};
    ghost use Rattle.osc_edge.specs.Memory.{source_calls, source_bytes, taken_of};
    ghost use Rattle.osc_edge.specs.Source.{IsTakenWithin, TakesFront, HasReadCause};

    ghost left = { λ s. Some (drop s.at s.bytes.items) };

    ghost faults = { λ s. s.faults };

    /// Fails at the calls in the list, and gives the next bytes at every other.
    fn read(&mut self, into: &mut [u8]) -> Taken
        ensures within { IsTakenWithin result into.new }
        ensures bytes { TakesFront (Some (source_bytes self.old))
            (Some (source_bytes self.new)) result into.new }
        ensures cause { HasReadCause self.old.faults self.new.faults result }
        ensures answer { result
            ≡ taken_of (source_calls self.old) (source_bytes self.old) into.old }
        ensures calls { source_calls self.new ≡ one_more (source_calls self.old) }
    {
        if self.calls.next_fails() {
            self.faults = self.faults.saturating_add(1);
            return Taken::Failed;
        }
        let count = move_front(&self.bytes[self.at..], into, PIECE);
        self.at += count;
        Taken::Bytes(count)
    }
}

/// Copies the front of `from` to the front of `into`, at most `most` bytes, and says how many.
pub(crate) fn move_front(from: &[u8], into: &mut [u8], most: usize) -> usize
    ensures count { result ≡ min most (min (length from.now) (length into.old)) }
    ensures bytes { take result into.new ≡ take result from.now }
{
    let count = from.len().min(into.len()).min(most);
    into[..count].copy_from_slice(&from[..count]);
    count
}
