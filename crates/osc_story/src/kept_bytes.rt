//! The bytes that are kept of a recording that comes in pieces.
ghost use Rattle.std.specs.Prelude.{◌≡◌, ◌≤◌, ◌++◌, length, take, drop};
ghost use Rattle.osc_story.specs.KeptBytes as spec;

use crate::follower::{Progress, TakeFault};
use crate::reader::Stop;
use osc_record::{HEADER_SIZE, MAX_RECORDING};
use std::alloc::{AllocError, Global};
use std::marker::Model;

/// The header of a recording, and the bytes that came after the last entry that was seen.
pub struct KeptBytes {
    bytes: Vec<u8>,
    /// How many bytes the entries have that were seen.
    passed: u32,
}

impl Drop for KeptBytes {
    fn drop(self) {
        let KeptBytes {
            bytes: _,
            passed: _,
        } = self;
    }
}

impl Model for KeptBytes {
    ghost use Rattle.std.specs.Prelude.{◌+◌, ◌≤◌, length};
    ghost use Rattle.osc_model.specs.Limits.{max_recording};
    ghost use Rattle.osc_story.specs.KeptBytes.{Kept};

    ghost Value = { Kept };

    ghost view = { λ k. record { bytes = k.bytes.items; passed = k.passed } };

    ghost invariant = { λ k. k.passed + length k.bytes.items ≤ max_recording };
}

impl KeptBytes {
    ghost use Rattle.std.specs.Prelude.{◌≡◌, ◌+◌, ◌≤◌, ◌++◌, length, OnOk, OnErr, IfErr};
    ghost use Rattle.osc_model.specs.Limits.{header_size, max_recording};
    ghost use Rattle.osc_story.specs.KeptBytes.{none_kept, IsTakeFault, kept_from};
    ghost use Rattle.osc_story.specs.KeptBytes.{place_of, progress_of};

    /// Nothing has come yet. Takes no memory.
    pub fn none(alloc: Global) -> KeptBytes
        ensures { result ≡ none_kept }
    {
        KeptBytes {
            bytes: Vec::new(alloc),
            passed: 0,
        }
    }

    /// Begins again: nothing has come.
    pub fn clear(&mut self)
        ensures { self.new ≡ none_kept }
    {
        self.bytes.clear();
        self.passed = 0;
    }

    /// The header, and the bytes that came after the last entry that was seen.
    pub fn bytes(&self) -> &[u8]
        ensures { result.now ≡ self.now.bytes }
    {
        self.bytes.as_slice()
    }

    /// How many bytes have come.
    pub fn came(&self) -> u32
        ensures value { result ≡ self.now.passed + length self.now.bytes }
        ensures small { result ≤ max_recording }
    {
        self.passed + self.bytes.len() as u32
    }

    /// Takes the next piece.
    pub fn take(&mut self, piece: &[u8]) -> Result<(), TakeFault>
        ensures ok { OnOk result
            (self.new ≡ record self.old { bytes = self.old.bytes ++ piece.now }) }
        ensures why { IfErr result (λ fault.
            IsTakeFault fault (self.old.passed + length self.old.bytes) piece.now) }
        ensures err { OnErr result (self.new ≡ self.old) }
    {
        if piece.len() > (MAX_RECORDING - self.passed) as usize - self.bytes.len() {
            return Err(TakeFault::TooLong);
        }
        match self.append(piece) {
            Ok(()) => Ok(()),
            Err(_) => Err(TakeFault::NoMemory),
        }
    }

    /// There is room for the piece within the largest recording.
    fn append(&mut self, piece: &[u8]) -> Result<(), AllocError>
        requires { self.old.passed + (length self.old.bytes + length piece.now) ≤ max_recording }
        ensures ok { OnOk result
            (self.new ≡ record self.old { bytes = self.old.bytes ++ piece.now }) }
        ensures err { OnErr result (self.new ≡ self.old) }
    {
        self.bytes.extend_from_slice(piece)
    }

    /// Keeps the header and the bytes after the entries that were seen.
    pub fn keep_after(&mut self, stop: Stop) -> Progress
        requires after { header_size ≤ place_of (length self.old.bytes) stop }
        requires within { place_of (length self.old.bytes) stop ≤ length self.old.bytes }
        ensures kept { self.new ≡ kept_from self.old (place_of (length self.old.bytes) stop) }
        ensures said { result ≡ progress_of (header_size + self.new.passed) stop }
    {
        let place = place_of(self.bytes.len() as u32, stop);
        cut(&mut self.bytes, HEADER_SIZE as usize, place as usize);
        self.passed += place - HEADER_SIZE;
        progress_of(HEADER_SIZE + self.passed, stop)
    }
}

/// The place up to which was seen, of so many bytes.
fn place_of(all: u32, stop: Stop) -> u32
    ensures { result ≡ spec.place_of all stop }
{
    match stop {
        Stop::End => all,
        Stop::NotWhole { at } => at,
        Stop::Disagrees { at, .. } => at,
        Stop::NoMemory { at } => at,
    }
}

/// What is said of a stop at a place.
fn progress_of(at: u32, stop: Stop) -> Progress
    ensures { result ≡ spec.progress_of at stop }
{
    match stop {
        Stop::End => Progress::CaughtUp,
        Stop::NotWhole { .. } => Progress::CaughtUp,
        Stop::Disagrees { why, .. } => Progress::Disagrees { at, why },
        Stop::NoMemory { .. } => Progress::NoMemory,
    }
}

/// Cuts the bytes between two places out.
fn cut(bytes: &mut Vec<u8>, from: usize, to: usize)
    requires order { from ≤ to }
    requires within { to ≤ length bytes.old.items }
    ensures { bytes.new.items ≡ take from bytes.old.items ++ drop to bytes.old.items }
{
    bytes.drain(from..to);
}
