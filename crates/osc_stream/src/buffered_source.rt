//! A source that is read through a buffer.
ghost use Rattle.std.specs.Prelude.{◌≡◌, ◌<◌, ◌≤◌, vec_len};

use osc_edge::{Source, Taken};
use std::alloc::{AllocError, Global};

/// How many bytes are read at once.
const BUFFER: usize = 16_384;

/// The bytes of another source. It reads as many at once as that one gives, up to 16,384, and
/// gives them in as many reads as are asked for; only then does it read again. So packets that came
/// together take one read of the source.
pub struct BufferedSource<S> {
    source: S,
    /// The bytes that were read last, of which those from `start` to `end` aren't given yet.
    space: Vec<u8>,
    start: usize,
    end: usize,
    ghost order: { start ≤ end },
    ghost within: { end ≤ vec_len space },
    ghost some: { 0 < vec_len space },
}

impl<S: Drop> Drop for BufferedSource<S> {
    fn drop(self) {
        let BufferedSource {
            source: _,
            space: _,
            start: _,
            end: _,
        } = self;
    }
}

impl<S: Source + Drop> BufferedSource<S> {
    ghost use Rattle.std.specs.Prelude.{IfOk};

    /// A source over another one, of which nothing is read yet. The `Err` means that there is no
    /// memory for the buffer.
    pub fn open(alloc: Global, source: S) -> Result<BufferedSource<S>, AllocError>
        ensures left { IfOk result
            (λ buffered. ⟦<BufferedSource<S> as Source>⟧.left buffered ≡ S.left source) }
        ensures faults { IfOk result
            (λ buffered. ⟦<BufferedSource<S> as Source>⟧.faults buffered ≡ S.faults source) }
    {
        Ok(BufferedSource {
            source,
            space: vec![in alloc; 0; BUFFER]?,
            start: 0,
            end: 0,
        })
    }
}

impl<S: Source> BufferedSource<S> {
    ghost use Rattle.std.specs.Prelude.{◌≡◌, length, min, take, drop};
    ghost use Rattle.osc_stream.specs.Buffers.{held, Refills, HasRefillCause};

    /// Reads the source where all bytes of the buffer are given. Answers whether it didn't fail.
    fn refill(&mut self) -> bool
        ensures refills { Refills result (held self.old.start self.old.end self.old.space.items)
            (held self.new.start self.new.end self.new.space.items)
            (S.left self.old.source) (S.left self.new.source) }
        ensures cause { HasRefillCause result (S.faults self.old.source)
            (S.faults self.new.source) }
    {
        if self.start < self.end {
            return true;
        }
        match self.source.read(&mut self.space) {
            Taken::Bytes(count) => {
                self.start = 0;
                self.end = count;
                true
            }
            Taken::Failed => {
                self.start = self.end;
                false
            }
        }
    }

    /// Moves bytes of the buffer to the front of the slice, and says how many.
    fn give(&mut self, into: &mut [u8]) -> usize
        ensures count { result
            ≡ min (length (held self.old.start self.old.end self.old.space.items))
            (length into.old) }
        ensures bytes { take result into.new
            ≡ take result (held self.old.start self.old.end self.old.space.items) }
        ensures held { held self.new.start self.new.end self.new.space.items
            ≡ drop result (held self.old.start self.old.end self.old.space.items) }
        ensures source { self.new.source ≡ self.old.source }
    {
        let bytes = &self.space[self.start..self.end];
        let count = bytes.len().min(into.len());
        into[..count].copy_from_slice(&bytes[..count]);
        self.start += count;
        count
    }
}

impl<S: Source> Source for BufferedSource<S> {
    ghost use Rattle.osc_edge.specs.Source.{IsTakenWithin, TakesFront, HasReadCause};
    ghost use Rattle.osc_stream.specs.Buffers.{held, buffered};

    ghost left = { λ s. buffered (held s.start s.end s.space.items) (S.left s.source) };

    ghost faults = { λ s. S.faults s.source };

    fn read(&mut self, into: &mut [u8]) -> Taken
        ensures within { IsTakenWithin result into.new }
        ensures bytes { TakesFront
            (buffered (held self.old.start self.old.end self.old.space.items)
            (S.left self.old.source))
            (buffered (held self.new.start self.new.end self.new.space.items)
            (S.left self.new.source)) result into.new }
        ensures cause { HasReadCause (S.faults self.old.source) (S.faults self.new.source) result }
    {
        if self.refill() {
            Taken::Bytes(self.give(into))
        } else {
            Taken::Failed
        }
    }
}
