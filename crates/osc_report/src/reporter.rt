//! Shows a recording, stretch by stretch.
ghost use Rattle.std.specs.Prelude.{◌≡◌};
ghost use Rattle.osc_report.specs.Reports as spec;

use crate::ending::end_lines;
use crate::entry::entry_lines;
use crate::front::Front;
use crate::news::{News, RunNews};
use crate::page::page_of;
use crate::run::{rows_page, run_page};
use crate::step::moved_line;
use crate::stretch::{Shown, read_stretch, shown_moment};
use crate::{Options, Span};
use osc_model::Late;
use osc_record::{Entry, Unread};
use osc_runs::Runs;
use osc_story::{Disagreement, SeeFault, Story};
use std::alloc::{AllocError, Global};
use std::marker::Model;

/// Why entries aren't shown.
#[derive(Clone, Copy, Debug, PartialEq, Eq)]
pub enum ShowFault {
    NoMemory,
    /// The entry at this place is one that no server gives there. Those before it are shown.
    Disagrees { at: u32, why: Disagreement },
}

/// Shows the entries of a recording, one stretch after another: up to and with the next tick or
/// release, which gives all of them their moment.
pub struct Reporter {
    alloc: Global,
    options: Options,
    story: Story,
    span: Span,
    run: Runs,
}

impl Drop for Reporter {
    fn drop(self) {
        let Reporter {
            alloc: _,
            options: _,
            story: _,
            span: _,
            run: _,
        } = self;
    }
}

impl Model for Reporter {
    ghost use Rattle.osc_report.specs.Reports.{Reporting};

    ghost Value = { Reporting };

    ghost view = { λ r. record {
      options = r.options;
      standing = r.story;
      progress = record { span = r.span; run = r.run };
    } };
}

impl Reporter {
    ghost use Rattle.std.specs.Prelude.{◌≡◌, OnOk, OnErr, IfOk, IfErr, Err, None};
    ghost use Rattle.osc_record.specs.Left.{placed_of};
    ghost use Rattle.osc_story.specs.Seen.{IsFaultOf};
    ghost use Rattle.osc_report.specs.Kept.{IsNews, IsRunNews, Tells};
    ghost use Rattle.osc_report.specs.Reports.{begun, ShowsEntry, ShowsEntries, ShowsStretch};
    ghost use Rattle.osc_story.specs.Standings.{disagreement};
    ghost use Rattle.osc_report.specs.Reports.{IsFirst, FailsIn, FailsFor, AddsEnd};
    ghost use Rattle.osc_story.specs.declared.disagreement.Disagreement.{Disagreement};
    ghost use Rattle.osc_story.specs.declared.disagreement.SeeFault.TheVariants as see;
    ghost use Rattle.osc_report.specs.Stretches.{placed, told};

    /// Nothing is shown yet. Takes no memory.
    pub fn open(alloc: Global, options: Options, late: Late) -> Reporter
        ensures { result ≡ begun options late }
    {
        Reporter {
            alloc,
            options,
            story: Story::open(alloc, late),
            span: Span::none(),
            run: Runs::open(alloc),
        }
    }

    /// What stands after the entries that were shown.
    pub fn story(&self) -> &Story
        ensures { result.now ≡ self.now.standing }
    {
        &self.story
    }

    /// When the first line was that has a time, and the last that was shown.
    pub fn span(&self) -> Span
        ensures { result ≡ self.now.progress.span }
    {
        self.span
    }

    /// Adds the lines of the next entries of a recording, up to and with the next tick or release,
    /// or all that are left. After an `Err` nothing more is to be shown.
    pub fn show(&mut self, text: &mut Vec<u8>, unread: &mut Unread<'_>) -> Result<Shown, ShowFault>
        ensures ok { IfOk result (λ shown. ShowsStretch self.old unread.old shown text.old.items
            text.new.items self.new unread.new) }
        ensures why { IfErr result (λ fault. FailsFor self.old unread.old fault text.old.items
            text.new.items self.new) }
    {
        let Ok((stretch, shown)) = read_stretch(self.alloc, self.story.clock(), unread) else {
            return Err(ShowFault::NoMemory);
        };
        match self.show_entries(text, stretch.clock, &stretch.entries) {
            Ok(()) => Ok(shown),
            Err(fault) => Err(fault),
        }
    }

    /// Adds what is told of lines that were gathered, and then the lines after those of all entries:
    /// of each message that still waits, and of how much was told. An `Err` means out of memory.
    pub fn end(&self, text: &mut Vec<u8>) -> Result<(), AllocError>
        ensures ok { OnOk result (AddsEnd self.now text.old.items text.new.items) }
        ensures err { OnErr result (text.new.items ≡ text.old.items) }
    {
        let (mut told, span) = rows_page(self.alloc, &self.options, self.span, self.run.rows())?;
        let lines = end_lines(self.alloc, &self.options, &self.story, span)?;
        told.extend_from_slice(&lines)?;
        text.extend_from_slice(&told)
    }

    /// Shows entries, all at one moment.
    fn show_entries(
        &mut self,
        text: &mut Vec<u8>,
        moment: u64,
        entries: &[Entry<'_>],
    ) -> Result<(), ShowFault>
        ensures ok { OnOk result (ShowsEntries self.old moment (told (placed entries.now))
            text.old.items text.new.items self.new) }
        ensures why { IfErr result (λ fault. FailsIn self.old moment (placed entries.now) fault
            text.old.items text.new.items self.new) }
    {
        for entry in entries {
            if let Err(fault) = self.show_entry(text, moment, entry) {
                return Err(fault_at(entry.at, fault));
            }
        }
        Ok(())
    }

    /// Shows an entry. Where it disagrees, nothing changes.
    fn show_entry(
        &mut self,
        text: &mut Vec<u8>,
        moment: u64,
        entry: &Entry<'_>,
    ) -> Result<(), SeeFault>
        ensures ok { OnOk result (ShowsEntry self.old moment (placed_of entry.now).entry
            text.old.items text.new.items self.new) }
        ensures why { IfErr result
            (λ fault. IsFaultOf fault self.old.standing (placed_of entry.now).entry) }
        ensures stays { (why : Disagreement) → result ≡ Err (see.Disagrees why)
            → (self.new ≡ self.old) × (text.new.items ≡ text.old.items) }
    {
        let Ok(news) = self.news_of(moment, entry) else {
            return Err(SeeFault::NoMemory);
        };
        self.story.see(entry)?;
        match self.tell(text, moment, &news) {
            Ok(()) => Ok(()),
            Err(_) => Err(SeeFault::NoMemory),
        }
    }

    /// What is shown of an entry, if it agrees.
    fn news_of(&self, moment: u64, entry: &Entry<'_>) -> Result<News, AllocError>
        ensures { IfOk result (λ news. disagreement self.now.standing (placed_of entry.now).entry
            ≡ None → IsNews self.now.options self.now.standing self.now.progress.span.first moment
            (placed_of entry.now).entry news) }
    {
        let first = self.first_for(moment, entry)?;
        let front = self.options.front_at(first, moment);
        let lines = entry_lines(self.alloc, &self.options, front, &self.story, entry)?;
        let run = self.run_news_of(front, entry)?;
        Ok(News { first, lines, run })
    }

    /// What of an entry matters to runs, where lines are told as such.
    fn run_news_of(&self, front: Front, entry: &Entry<'_>) -> Result<Option<RunNews>, AllocError>
        ensures { IfOk result (λ run. disagreement self.now.standing (placed_of entry.now).entry
            ≡ None → IsRunNews self.now.options.runs self.now.options front self.now.standing
            (placed_of entry.now).entry run) }
    {
        if !self.options.runs {
            return Ok(None);
        }
        let options = self.options.unfiltered();
        let all = entry_lines(self.alloc, &options, front, &self.story, entry)?;
        let moved = moved_line(self.alloc, front, &self.story, entry.answer)?;
        Ok(Some(RunNews { all, front, moved }))
    }

    /// Adds what is told at an entry.
    fn tell(&mut self, text: &mut Vec<u8>, moment: u64, news: &News) -> Result<(), AllocError>
        ensures { OnOk result (Tells self.old moment news.now text.old.items text.new.items
            self.new) }
    {
        let span = Span {
            first: news.first,
            last: self.span.last,
        };
        let at = shown_moment(moment);
        let (page, after) = match &news.run {
            None => page_of(self.alloc, &self.options, span, at, &news.lines)?,
            Some(run) => run_page(
                self.alloc,
                &self.options,
                span,
                &mut self.run,
                &news.lines,
                run,
            )?,
        };
        self.span = after;
        text.extend_from_slice(&page)
    }

    /// The moment of the first line that has a time, with those of an entry, if it agrees.
    fn first_for(&self, moment: u64, entry: &Entry<'_>) -> Result<Option<u64>, AllocError>
        ensures { IfOk result (λ first. disagreement self.now.standing (placed_of entry.now).entry
            ≡ None → IsFirst self.now.options self.now.standing self.now.progress.span.first moment
            (placed_of entry.now).entry first) }
    {
        if self.span.first.is_some() {
            return Ok(self.span.first);
        }
        let options = self.options.unfiltered();
        let front = self.options.front_at(None, moment);
        let lines = entry_lines(self.alloc, &options, front, &self.story, entry)?;
        Ok(first_of(&lines, moment))
    }
}

/// The moment of lines, if there are any and something has ticked.
fn first_of(lines: &[u8], moment: u64) -> Option<u64>
    ensures { result ≡ spec.first_of lines.now moment }
{
    if lines.is_empty() {
        return None;
    }
    shown_moment(moment)
}

/// A fault at the place of its entry.
fn fault_at(at: u32, fault: SeeFault) -> ShowFault
    ensures { result ≡ spec.fault_at at fault }
{
    match fault {
        SeeFault::NoMemory => ShowFault::NoMemory,
        SeeFault::Disagrees(why) => ShowFault::Disagrees { at, why },
    }
}
