//! A sink in memory that takes small pieces, and fails at the calls in a list.
ghost use Rattle.std.specs.Prelude.{◌≡◌, ℕ, min, length, take, ◌++◌, Some, []};

use crate::calls::Calls;
use crate::memory_source::PIECE;
use crate::{Put, Sink};
use std::alloc::Global;

/// Bytes in memory, of which a call takes at most 4,096. Calls whose numbers, from 1, stand in a list fail.
#[derive(Drop)]
pub struct MemorySink {
    bytes: Vec<u8>,
    calls: Calls,
    faults: u64,
}

impl MemorySink {
    ghost use Rattle.osc_edge.specs.Memory.{sink_calls, memory_bytes};

    /// Takes no memory.
    pub fn open(alloc: Global, fails: Vec<u32>) -> Self
        ensures held { memory_bytes result ≡ [] }
        ensures faults { ⟦<MemorySink as Sink>⟧.faults result ≡ 0 }
        ensures calls { sink_calls result ≡ record { made = 0; fails = fails.items } }
    {
        MemorySink {
            bytes: Vec::new(alloc),
            calls: Calls::open(fails),
            faults: 0,
        }
    }

    /// The bytes held.
    pub fn bytes(&self) -> &[u8]
        ensures { result.now ≡ memory_bytes self.now }
    {
        &self.bytes
    }
}

impl Sink for MemorySink {
    ghost use Rattle.osc_edge.specs.Calls.{one_more};
    ghost use Rattle.osc_edge.specs.Memory.{sink_calls, memory_bytes, PutIs};
    ghost use Rattle.osc_edge.specs.Sink.{IsTookWithin, AddsToEnd, HasWriteCause};

    ghost held = { λ s. Some s.bytes.items };

    ghost faults = { λ s. s.faults };

    /// Fails at the calls in the list, and takes the front of the piece at every other, where there is memory.
    fn write(&mut self, piece: &[u8]) -> Put
        ensures within { IsTookWithin result piece.now }
        ensures bytes { AddsToEnd (Some (memory_bytes self.old))
            (Some (memory_bytes self.new)) result piece.now }
        ensures cause { HasWriteCause self.old.faults self.new.faults result }
        ensures answer { PutIs (sink_calls self.old) piece.now result }
        ensures calls { sink_calls self.new ≡ one_more (sink_calls self.old) }
    {
        if self.calls.next_fails() {
            self.faults = self.faults.saturating_add(1);
            return Put::Failed;
        }
        let count = piece.len().min(PIECE);
        match self.bytes.extend_from_slice(&piece[..count]) {
            Ok(()) => Put::Took(count),
            Err(_) => Put::NoMemory,
        }
    }
}
