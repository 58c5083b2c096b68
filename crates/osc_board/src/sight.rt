//! What is seen of a show by the entries of its recording.

use crate::board::{counts_of, rows_of, waits_of};
use crate::last::{Last, note_all};
use crate::note::notes_of;
use crate::past::Past;
use osc_model::Late;
use osc_page::{Board, Row};
use osc_record::{Answer, Entry};
use osc_story::{SeeFault, Story};
use std::alloc::{AllocError, Global};
use std::marker::Model;

/// What stands after the entries that were seen, and the last call of each method that was called.
pub struct Sight {
    alloc: Global,
    story: Story,
    lasts: Vec<Last>,
}

impl Drop for Sight {
    fn drop(self) {
        let Sight {
            alloc: _,
            story: _,
            lasts: _,
        } = self;
    }
}

impl Model for Sight {
    ghost use Rattle.osc_board.specs.Sights as spec;

    ghost Value = { spec.Sight };

    ghost view = { λ s. record { standing = s.story; lasts = s.lasts.items } };
}

impl Sight {
    ghost use Rattle.std.specs.Prelude.{◌≡◌, OnOk, OnErr, IfOk, IfErr};
    ghost use Rattle.osc_record.specs.Left.{placed_of};
    ghost use Rattle.osc_story.specs.Seen.{IsFaultOf};
    ghost use Rattle.osc_board.specs.Boards.{board_after, past_after, rows_after};
    ghost use Rattle.osc_board.specs.Sights.{opened, Follows};

    /// Nothing is seen yet. Takes no memory.
    pub fn open(alloc: Global, late: Late) -> Sight
        ensures { result ≡ opened late }
    {
        Sight {
            alloc,
            story: Story::open(alloc, late),
            lasts: Vec::new(alloc),
        }
    }

    /// What stands after the entries that were seen.
    pub fn story(&self) -> &Story
        ensures { result.now ≡ self.now.standing }
    {
        &self.story
    }

    /// Sees the next entry. Whatever keeps it from that, nothing changes; out of memory, it can be
    /// seen later.
    pub fn see(&mut self, entry: &Entry<'_>) -> Result<(), SeeFault>
        ensures ok { OnOk result (Follows self.old (placed_of entry.now).entry self.new) }
        ensures why { IfErr result
            (λ fault. IsFaultOf fault self.old.standing (placed_of entry.now).entry) }
        ensures err { OnErr result (self.new ≡ self.old) }
    {
        let at = self.story.clock();
        let Ok(notes) = notes_of(self.alloc, self.story.calls(entry.answer)) else {
            return Err(SeeFault::NoMemory);
        };
        let Ok(()) = self.lasts.reserve(notes.len()) else {
            return Err(SeeFault::NoMemory);
        };
        self.story.see(entry)?;
        note_all(&mut self.lasts, at, notes);
        Ok(())
    }

    /// What is shown, after the recordings before.
    pub fn board(&self, past: &Past) -> Result<Board, AllocError>
        ensures { IfOk result (λ board. board ≡ board_after past.now self.now) }
    {
        let methods = self.rows(past)?;
        let waits = waits_of(self.alloc, self.story.waiting())?;
        let totals = past.totals.with(self.story.totals());
        let counts = counts_of(totals, self.story.waiting());
        Ok(Board::new(self.story.clock(), counts, methods, waits))
    }

    /// What has been shown then.
    pub(crate) fn past(&self, past: &Past) -> Result<Past, AllocError>
        ensures { IfOk result (λ now. now ≡ past_after past.now self.now) }
    {
        Ok(Past {
            rows: self.rows(past)?,
            totals: past.totals.with(self.story.totals()),
        })
    }

    fn rows(&self, past: &Past) -> Result<Vec<Row>, AllocError>
        ensures { IfOk result (λ rows. rows.items ≡ rows_after past.now.rows self.now) }
    {
        rows_of(self.alloc, self.story.methods(), &self.lasts, &past.rows)
    }
}
