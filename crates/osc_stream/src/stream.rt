//! A stream of packets, which takes its bytes in any pieces.
ghost use Rattle.osc_stream.specs.declared.limits.TheConstants.{MAX_FRAME};
ghost use Rattle.std.specs.Prelude.{◌≡◌, ◌≤◌, ◌<◌, ◌+◌, ◌^◌, length, IfOk, IsTrue, is_some};
ghost use Rattle.std.specs.Prelude.{Some, nat_lt};
ghost use Rattle.osc_stream.specs.Frames.{wanted};
ghost use Rattle.osc_stream.specs.Feeding.{at_start, taken, IsFed};

use crate::fed::Fed;
use crate::frame_bytes::fill;
use crate::front::{Front, wanted_after};
use crate::limits::{LIMIT, MAX_FRAME};
use std::alloc::{AllocError, Global};
use std::marker::Model;

/// A stream of packets. A contract sees the bytes that are held of the frame that isn't whole yet, the packet in hand,
/// and the place of the frame that is next. No call but `open` takes memory.
#[derive(Drop)]
pub struct Stream {
    /// The frame that isn't whole yet or, while a packet is in hand, its frame.
    bytes: Vec<u8>,
    place: u64,
    /// A packet is in hand.
    ready: bool,
}

impl Model for Stream {
    ghost use Rattle.std.specs.Prelude.{◌≤◌, vec_capacity, IsTrue};
    ghost use Rattle.osc_stream.specs.declared.limits.TheConstants.{MAX_FRAME};
    ghost use Rattle.osc_stream.specs.Feeding.{StreamView, view_of, is_kept};

    ghost Value = { StreamView };

    ghost view = { λ s. view_of s.ready s.bytes.items s.place };

    ghost invariant = { λ s. (MAX_FRAME ≤ vec_capacity s.bytes)
        × IsTrue (is_kept s.ready s.bytes.items) };
}

impl Stream {
    /// A stream of which nothing was taken. The `Err` means that there is no memory for a size and a packet.
    pub fn open(alloc: Global) -> Result<Stream, AllocError>
        ensures { IfOk result (λ stream. stream ≡ at_start) }
    {
        Ok(Stream {
            bytes: Vec::with_capacity(alloc, MAX_FRAME)?,
            place: 0,
            ready: false,
        })
    }

    /// Takes bytes from the front of `piece`, up to the end of a packet, and says how many. Where the size isn't one of
    /// a packet, just the word is held, and later calls take nothing and answer the same.
    #[tactic(auto, using(crate::proofs::Counted::taken_counted))]
    pub fn take(&mut self, piece: &[u8]) -> (usize, Fed)
        requires { taken self.old < 2 ^ 63 }
        ensures within { result.0 ≤ length piece.now }
        ensures fed { IsFed result.1 result.0 piece.now self.old self.new }
        ensures counted { taken self.new ≡ taken self.old + result.0 }
    {
        if self.ready {
            self.bytes.clear();
            self.ready = false;
        }
        let (count, front) = fill(&mut self.bytes, piece);
        let fed = match front {
            Front::Short => Fed::More,
            Front::Whole(size) => {
                self.place += 4 + u64::from(size);
                self.ready = true;
                Fed::Ready
            }
            Front::Bad(size) => Fed::Broken {
                at: self.place,
                size,
            },
        };
        (count, fed)
    }

    /// The packet of the last `Ready`.
    pub fn packet(&self) -> &[u8]
        requires { IsTrue (is_some self.now.packet) }
        ensures { self.now.packet ≡ Some result.now }
    {
        &self.bytes[4..]
    }

    /// The place of the frame that is next or in hand.
    pub fn place(&self) -> u64
        ensures { result ≡ self.now.place }
    {
        self.place
    }

    /// The bytes that are held of the frame that isn't whole yet.
    pub(crate) fn held(&self) -> &[u8]
        ensures { result.now ≡ self.now.held }
    {
        if self.ready { &[] } else { &self.bytes }
    }

    /// How many more bytes there have to be before more can be told.
    pub(crate) fn wanted(&self) -> usize
        ensures { result ≡ wanted self.now.held }
    {
        wanted_after(self.held())
    }

    /// Whether fewer than 2^63 bytes were taken.
    pub(crate) fn can_take(&self) -> bool
        ensures { result ≡ nat_lt (taken self.now) (2 ^ 63) }
    {
        self.place < LIMIT && (self.held().len() as u64) < LIMIT - self.place
    }
}
