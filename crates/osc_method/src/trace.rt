//! A method that keeps the last bytes of what it was told.
ghost use Rattle.std.specs.Prelude.{◌≡◌, ◌≤◌, ◌<◌, ◌^◌, ◌++◌, Some, [], IfOk};
ghost use Rattle.osc_atoms.specs.Atoms.{word, tag};

use crate::{Call, Method};
use circular_buffer::HeapCircularBuffer;
use std::alloc::{AllocError, Global};

/// A method that tells the last bytes of what it was told, at most as many as it was made for.
pub struct Trace {
    bytes: HeapCircularBuffer<u8>,
    ghost few: { bytes.capacity < 2 ^ 32 },
}

impl Drop for Trace {
    fn drop(self) {
        let Trace { bytes: _ } = self;
    }
}

impl Trace {
    /// Keeps at most `keep` bytes, for which it reserves the memory.
    pub fn open(alloc: Global, keep: u32) -> Result<Trace, AllocError>
        requires some { 0 < keep }
        requires few { keep ≤ 1048576 }
        ensures keep { IfOk result
            (λ trace. ⟦<Trace as Method>⟧.keep trace ≡ record { most = keep; name = []; outlets = [] }) }
        ensures heard { IfOk result (λ trace. ⟦<Trace as Method>⟧.heard trace ≡ Some []) }
    {
        Ok(Trace {
            bytes: HeapCircularBuffer::with_capacity(alloc, keep as usize)?,
        })
    }
}

/// What is told of a call before its message: the unit's number, the message's index, and its size.
fn head_of(unit: u64, index: u32, size: u32) -> [u8; 16]
    ensures { result ≡ tag unit ++ (word index ++ word size) }
{
    let [a, b, c, d, e, f, g, h] = unit.to_be_bytes();
    let [i, j, k, l] = index.to_be_bytes();
    let [m, n, o, p] = size.to_be_bytes();
    [a, b, c, d, e, f, g, h, i, j, k, l, m, n, o, p]
}

impl Method for Trace {
    ghost keep = { λ t. record { most = t.bytes.capacity; name = []; outlets = [] } };

    ghost heard = { λ t. Some t.bytes.items };

    fn reset(&mut self) {
        self.bytes.clear();
    }

    fn invoke(&mut self, call: &Call<'_>) {
        let message = call.message.bytes();
        let head = head_of(call.unit, call.index, message.len() as u32);
        self.bytes.extend_from_slice(&head);
        self.bytes.extend_from_slice(message);
    }

    fn told(&self) -> Option<u32> {
        Some(self.bytes.len() as u32)
    }

    fn byte(&self, k: u32) -> u8 {
        self.bytes.get(k as usize).copied().unwrap_or(0)
    }
}
