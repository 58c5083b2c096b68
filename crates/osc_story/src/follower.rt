//! A recording that comes in pieces.
ghost use Rattle.std.specs.Prelude.{◌≡◌};

use crate::disagreement::Disagreement;
use crate::kept_bytes::KeptBytes;
use crate::look::{Look, look_at};
use crate::story::Story;
use osc_record::{HEADER_SIZE, laws as records};
use std::alloc::Global;
use std::marker::Model;

/// How far a recording was followed.
#[derive(Clone, Copy, Debug, PartialEq, Eq)]
pub enum Progress {
    /// The header isn't whole yet.
    NoHeader,
    /// The first bytes are no header.
    Malformed,
    /// More bytes have come than the header allows.
    TooLong,
    /// All whole entries are seen.
    CaughtUp,
    /// The next entry, at this place, is one that no server gives there.
    Disagrees { at: u32, why: Disagreement },
    /// There is no memory for what the next entry brings. It can be seen later.
    NoMemory,
}

/// Why a piece isn't taken.
#[derive(Clone, Copy, Debug, PartialEq, Eq)]
pub enum TakeFault {
    NoMemory,
    /// With it, more bytes would have come than the largest recording has.
    TooLong,
}

/// Follows a recording that comes in pieces, cut anywhere. It keeps the header, what stands, and
/// the bytes of an entry that isn't whole yet.
#[derive(Drop)]
pub struct Follower {
    alloc: Global,
    kept: KeptBytes,
    story: Option<Story>,
}

impl Model for Follower {
    ghost use Rattle.osc_story.specs.Following.{Following};

    ghost Value = { Following };

    ghost view = { λ f. record {
      bytes = f.kept.bytes;
      passed = f.kept.passed;
      standing = f.story;
    } };
}

impl Follower {
    ghost use Rattle.std.specs.Prelude.{◌≡◌, ◌+◌, ◌++◌, List, ℕ, length, OnOk, OnErr, IfErr};
    ghost use Rattle.std.specs.Option.{option_map};
    ghost use Rattle.osc_story.specs.KeptBytes.{IsTakeFault};
    ghost use Rattle.osc_story.specs.Following.{HasCome, Progresses, unbegun};

    /// Nothing has come yet. Takes no memory.
    pub fn open(alloc: Global) -> Follower
        ensures { result ≡ unbegun }
    {
        Follower {
            alloc,
            kept: KeptBytes::none(alloc),
            story: None,
        }
    }

    /// What stands after the entries that were seen, once the header is whole.
    pub fn story(&self) -> Option<&Story>
        ensures { option_map (λ story. story.now) result ≡ self.now.standing }
    {
        self.story.as_ref()
    }

    /// Takes the next piece, and sees nothing of it yet.
    pub fn take(&mut self, piece: &[u8]) -> Result<(), TakeFault>
        ensures came { (came : List ℕ) → HasCome came self.old
            → OnOk result (HasCome (came ++ piece.now) self.new) }
        ensures why { IfErr result (λ fault.
            IsTakeFault fault (self.old.passed + length self.old.bytes) piece.now) }
        ensures err { OnErr result (self.new ≡ self.old) }
    {
        self.kept.take(piece)
    }

    /// Sees all entries that are whole, or up to one that can't be seen.
    pub fn follow(&mut self) -> Progress
        ensures { (came : List ℕ) → HasCome came self.old
            → Progresses result came self.old self.new }
    {
        records::sizes();
        records::headers_differ();
        if self.kept.bytes().len() < HEADER_SIZE as usize {
            return Progress::NoHeader;
        }
        let came = self.kept.came();
        match look_at(self.alloc, &mut self.story, self.kept.bytes(), came) {
            Look::Malformed => Progress::Malformed,
            Look::TooLong => Progress::TooLong,
            Look::Saw(stop) => self.kept.keep_after(stop),
        }
    }
}
