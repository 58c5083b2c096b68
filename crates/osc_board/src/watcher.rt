//! What is seen of a recording that comes in pieces.
ghost use Rattle.std.specs.Prelude.{◌≡◌};

use crate::look::{Look, look_at};
use crate::past::Past;
use crate::sight::Sight;
use osc_page::Board;
use osc_record::{HEADER_SIZE, laws as records};
use osc_story::{KeptBytes, Progress, TakeFault};
use std::alloc::{AllocError, Global};
use std::marker::Model;

/// Follows a recording that comes in pieces, cut anywhere, for a page. It keeps the header, what is
/// seen, and the bytes of an entry that isn't whole yet.
pub struct Watcher {
    alloc: Global,
    kept: KeptBytes,
    sight: Option<Sight>,
    past: Past,
}

impl Drop for Watcher {
    fn drop(self) {
        let Watcher {
            alloc: _,
            kept: _,
            sight: _,
            past: _,
        } = self;
    }
}

impl Model for Watcher {
    ghost use Rattle.osc_board.specs.Watching.{Watching};

    ghost Value = { Watching };

    ghost view = { λ f. record {
      bytes = f.kept.bytes;
      passed = f.kept.passed;
      sight = f.sight;
      past = f.past;
    } };
}

impl Watcher {
    ghost use Rattle.std.specs.Prelude.{◌≡◌, ◌+◌, ◌++◌, List, ℕ, length, OnOk, OnErr, IfOk, IfErr};
    ghost use Rattle.std.specs.Option.{option_map};
    ghost use Rattle.osc_story.specs.KeptBytes.{IsTakeFault};
    ghost use Rattle.osc_board.specs.Boards.{board_after};
    ghost use Rattle.osc_board.specs.Watching.{HasCome, Progresses, unbegun, gone_on};

    /// Nothing has come yet. Takes no memory.
    pub fn open(alloc: Global) -> Watcher
        ensures { result ≡ unbegun }
    {
        Watcher {
            alloc,
            kept: KeptBytes::none(alloc),
            sight: None,
            past: Past::none(alloc),
        }
    }

    /// What is shown of the entries that were seen, once the header is whole.
    pub fn board(&self) -> Result<Option<Board>, AllocError>
        ensures { IfOk result
            (λ board. board ≡ option_map (board_after self.now.past) self.now.sight) }
    {
        match &self.sight {
            Some(sight) => Ok(Some(sight.board(&self.past)?)),
            None => Ok(None),
        }
    }

    /// Goes on with the recording after this one, which begins with what carries its server on: the
    /// next piece is its first. Methods keep their last calls, by their addresses. An `Err` means
    /// out of memory.
    pub fn go_on(&mut self) -> Result<(), AllocError>
        ensures ok { OnOk result (self.new ≡ gone_on self.old) }
        ensures err { OnErr result (self.new ≡ self.old) }
    {
        if let Some(sight) = &self.sight {
            self.past = sight.past(&self.past)?;
        }
        self.sight = None;
        self.kept.clear();
        Ok(())
    }

    /// Takes the next piece, and sees nothing of it yet.
    pub fn take(&mut self, piece: &[u8]) -> Result<(), TakeFault>
        ensures came { (came : List ℕ) → HasCome came self.old
            → OnOk result (HasCome (came ++ piece.now) self.new) }
        ensures why { IfErr result (λ fault.
            IsTakeFault fault (self.old.passed + length self.old.bytes) piece.now) }
        ensures err { OnErr result (self.new ≡ self.old) }
        ensures past { self.new.past ≡ self.old.past }
    {
        self.kept.take(piece)
    }

    /// Sees all entries that are whole, or up to one that can't be seen.
    pub fn follow(&mut self) -> Progress
        ensures progress { (came : List ℕ) → HasCome came self.old
            → Progresses result came self.old self.new }
        ensures past { self.new.past ≡ self.old.past }
    {
        records::sizes();
        records::headers_differ();
        if self.kept.bytes().len() < HEADER_SIZE as usize {
            return Progress::NoHeader;
        }
        let came = self.kept.came();
        match look_at(self.alloc, &mut self.sight, self.kept.bytes(), came) {
            Look::Malformed => Progress::Malformed,
            Look::TooLong => Progress::TooLong,
            Look::Saw(stop) => self.kept.keep_after(stop),
        }
    }
}
