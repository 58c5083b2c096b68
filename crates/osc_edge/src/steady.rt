//! A source and a sink in memory that never fail.
ghost use Rattle.std.specs.Prelude.{◌≡◌, ◌≤◌, ℕ, drop, min, length, Some, vec_len, []};

use crate::memory_source::move_front;
use crate::{Put, Sink, Source, Taken};
use std::alloc::Global;

/// Bytes in memory, of which a call gives as many as there is room for.
#[derive(Drop)]
pub struct SteadySource {
    bytes: Vec<u8>,
    at: usize,
    ghost within: { at ≤ vec_len bytes },
}

impl SteadySource {
    /// Takes no memory.
    pub fn open(bytes: Vec<u8>) -> Self
        ensures { ⟦<SteadySource as Source>⟧.left result ≡ Some bytes.items }
    {
        SteadySource { bytes, at: 0 }
    }
}

impl Source for SteadySource {
    ghost use Rattle.osc_edge.specs.Memory.{steady_left};
    ghost use Rattle.osc_edge.specs.Source.{IsTakenWithin, TakesFront};

    ghost left = { λ s. Some (drop s.at s.bytes.items) };

    ghost faults = { λ _. 0 };

    fn read(&mut self, into: &mut [u8]) -> Taken
        ensures within { IsTakenWithin result into.new }
        ensures bytes { TakesFront (Some (steady_left self.old))
            (Some (steady_left self.new)) result into.new }
        ensures answer { result
            ≡ Taken.Bytes (min (length (steady_left self.old)) (length into.old)) }
    {
        let most = into.len();
        let count = move_front(&self.bytes[self.at..], into, most);
        self.at += count;
        Taken::Bytes(count)
    }
}

/// Bytes in memory, with every piece taken whole where there is memory.
#[derive(Drop)]
pub struct SteadySink {
    bytes: Vec<u8>,
}

impl SteadySink {
    ghost use Rattle.osc_edge.specs.Memory.{steady_bytes};

    /// Takes no memory.
    pub fn open(alloc: Global) -> Self
        ensures { steady_bytes result ≡ [] }
    {
        SteadySink {
            bytes: Vec::new(alloc),
        }
    }

    /// The bytes held.
    pub fn bytes(&self) -> &[u8]
        ensures { result.now ≡ steady_bytes self.now }
    {
        &self.bytes
    }
}

impl Sink for SteadySink {
    ghost use Rattle.osc_edge.specs.Memory.{steady_bytes, IsWholeOrNoMemory};
    ghost use Rattle.osc_edge.specs.Sink.{IsTookWithin, AddsToEnd};

    ghost held = { λ s. Some s.bytes.items };

    ghost faults = { λ _. 0 };

    fn write(&mut self, piece: &[u8]) -> Put
        ensures within { IsTookWithin result piece.now }
        ensures bytes { AddsToEnd (Some (steady_bytes self.old))
            (Some (steady_bytes self.new)) result piece.now }
        ensures answer { IsWholeOrNoMemory piece.now result }
    {
        match self.bytes.extend_from_slice(piece) {
            Ok(()) => Put::Took(piece.len()),
            Err(_) => Put::NoMemory,
        }
    }
}
