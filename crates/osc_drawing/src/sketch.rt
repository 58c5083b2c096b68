//! What all entries of a recording make.
ghost use Rattle.std.specs.Prelude.{◌≡◌};
ghost use Rattle.osc_record.specs.Shown.{event_of, answer_of};
ghost use Rattle.osc_drawing.specs.Pictures.{edge_of};
ghost use Rattle.osc_drawing.specs.Sketches as spec;

use crate::gathering::Gathering;
use crate::mark::{Mark, Stamp};
use crate::view::millis_of;
use osc_model::Late;
use osc_picture::Frame;
use osc_record::{Answer, Entry, Event};
use osc_story::{Disagreement, SeeFault, Story, Totals};
use std::alloc::{AllocError, Global};
use std::marker::Model;

/// Why there is no picture of a recording.
#[derive(Clone, Copy, Debug, PartialEq, Eq)]
pub enum DrawFault {
    NoMemory,
    /// The entry at this place is one that no server gives there.
    Disagrees { at: u32, why: Disagreement },
}

/// What stands after the entries that were read, and what is drawn of them.
pub struct Sketch {
    story: Story,
    gathering: Gathering,
    first: Option<u64>,
    /// How much the recordings before told.
    before: Totals,
}

impl Drop for Sketch {
    fn drop(self) {
        let Sketch {
            story: _,
            gathering: _,
            first: _,
            before: _,
        } = self;
    }
}

impl Model for Sketch {
    ghost use Rattle.osc_drawing.specs.Sketches.{Sketched};

    ghost Value = { Sketched };

    ghost view = { λ s. record {
      standing = s.story;
      gathered = s.gathering;
      first = s.first;
      before = s.before;
    } };
}

impl Sketch {
    ghost use Rattle.std.specs.Prelude.{◌≡◌, None, OnOk, IfOk, IfErr};
    ghost use Rattle.osc_story.specs.Seen.{IsFaultOf};
    ghost use Rattle.osc_story.specs.Standings.{opened};
    ghost use Rattle.osc_drawing.specs.Sketches as spec;
    ghost use Rattle.osc_drawing.specs.Pictures as picture;

    fn open(alloc: Global, late: Late) -> Sketch
        ensures { result ≡ spec.begun late }
    {
        Sketch {
            story: Story::open(alloc, late),
            gathering: Gathering::new(alloc),
            first: None,
            before: Totals::none(),
        }
    }

    /// The sketch of all entries of a recording.
    pub fn of(alloc: Global, late: Late, entries: &[Entry<'_>]) -> Result<Sketch, DrawFault>
        ensures agree { IfOk result (λ _. spec.first_fault (opened late) entries.now ≡ None) }
        ensures ok { IfOk result (λ sketch. sketch ≡ spec.sketch_of late (spec.told entries.now)) }
        ensures why { IfErr result
            (λ fault. spec.IsFault fault (spec.first_fault (opened late) entries.now)) }
    {
        let mut sketch = Sketch::open(alloc, late);
        sketch.take_all(entries)?;
        match sketch.finish() {
            Ok(()) => Ok(sketch),
            Err(_) => Err(DrawFault::NoMemory),
        }
    }

    /// Goes on with all entries of the recording after these: one that begins with what carries their
    /// server on. What waits, and which methods are there, is marked at the end of each. After an
    /// `Err` it isn't to be drawn.
    pub fn go_on(&mut self, late: Late, entries: &[Entry<'_>]) -> Result<(), DrawFault>
        ensures agree { OnOk result (spec.first_fault (opened late) entries.now ≡ None) }
        ensures ok { OnOk result (self.new ≡ spec.gone_on self.old late (spec.told entries.now)) }
        ensures why { IfErr result
            (λ fault. spec.IsFault fault (spec.first_fault (opened late) entries.now)) }
    {
        self.reopen(late);
        self.take_all(entries)?;
        match self.finish() {
            Ok(()) => Ok(()),
            Err(_) => Err(DrawFault::NoMemory),
        }
    }

    /// Nothing stands, as on a new server.
    fn reopen(&mut self, late: Late)
        ensures { self.new ≡ spec.reopened self.old late }
    {
        self.before = self.totals();
        self.gathering.reopen();
        self.story = Story::open(self.gathering.alloc(), late);
    }

    /// How much was told, by all recordings.
    pub fn totals(&self) -> Totals
        ensures { result ≡ spec.totals_of self.now }
    {
        self.before.with(self.story.totals())
    }

    /// Takes entries. After an `Err` nothing more is to be taken.
    fn take_all(&mut self, entries: &[Entry<'_>]) -> Result<(), DrawFault>
        ensures agree { OnOk result (spec.first_fault self.old.standing entries.now ≡ None) }
        ensures ok { OnOk result (self.new
            ≡ spec.with_all self.old (spec.told entries.now)) }
        ensures why { IfErr result
            (λ fault. spec.IsFault fault (spec.first_fault self.old.standing entries.now)) }
    {
        let mut moment = moment_ahead(self.story.clock(), entries);
        let mut place = 0;
        while place < entries.len() {
            let entry = &entries[place];
            if let Err(fault) = self.take(moment, entry) {
                return Err(fault_at(entry.at, fault));
            }
            place += 1;
            moment = next_moment(self.story.clock(), moment, entry.event, &entries[place..]);
        }
        Ok(())
    }

    /// Takes the next entry, at a moment. After an `Err` nothing more is to be taken.
    fn take(&mut self, moment: u64, entry: &Entry<'_>) -> Result<(), SeeFault>
        ensures ok { OnOk result
            (spec.Takes self.old moment (spec.entry_of entry.now) self.new) }
        ensures why { IfErr result
            (λ fault. IsFaultOf fault self.old.standing (spec.entry_of entry.now)) }
    {
        let gathered = self
            .gathering
            .gather(&self.story, moment, entry.event, entry.answer);
        if gathered.is_err() {
            return Err(SeeFault::NoMemory);
        }
        self.story.see(entry)?;
        self.first = first_moment(self.first, moment);
        Ok(())
    }

    /// What stands after the entries.
    pub fn story(&self) -> &Story
        ensures { result.now ≡ self.now.standing }
    {
        &self.story
    }

    /// The first moment after a tick, where there is one.
    pub fn first(&self) -> Option<u64>
        ensures { result ≡ self.now.first }
    {
        self.first
    }

    /// When the recording begins, in milliseconds since the start of 1900.
    pub(crate) fn begin(&self) -> u64
        ensures { result ≡ picture.begin_of self.now }
    {
        millis_of(self.first.unwrap_or(self.story.clock()))
    }

    fn end(&self) -> u64
        ensures { result ≡ picture.end_of self.now }
    {
        millis_of(self.story.clock())
    }

    /// Whether calls stand in their order, since the clock doesn't move by 2 milliseconds.
    pub fn is_in_order(&self) -> bool
        ensures { result ≡ picture.is_in_order self.now }
    {
        self.end().saturating_sub(self.begin()) < 2
    }

    /// From when to when the whole picture goes, for a clock on the wall that is so many
    /// milliseconds ahead.
    pub fn frame(&self, ahead: u64) -> Frame
        ensures { result ≡ picture.frame_of self.now ahead }
    {
        if self.is_in_order() {
            return Frame {
                first: 0,
                last: self.gathering.count().saturating_sub(1).max(1),
                ahead: 0,
                by_order: true,
                thinned: false,
            };
        }
        Frame {
            first: self.begin(),
            last: self.end(),
            ahead,
            by_order: false,
            thinned: false,
        }
    }

    /// The same from one moment to another, where they are given. Calls that stand in their order
    /// all stay.
    pub fn part(&self, ahead: u64, from: Option<u64>, to: Option<u64>) -> Frame
        ensures { result ≡ picture.part_of (picture.frame_of self.now ahead) from to }
    {
        let whole = self.frame(ahead);
        if whole.by_order {
            return whole;
        }
        let first = edge_of(from, whole.first);
        let last = edge_of(to, whole.last).max(first.saturating_add(1));
        Frame {
            first,
            last,
            ..whole
        }
    }

    /// What is after all entries.
    pub(crate) fn end_stamp(&self) -> Stamp
        ensures { result ≡ spec.end_stamp self.now }
    {
        Stamp {
            moment: self.story.clock(),
            order: self.gathering.count().saturating_sub(1).max(1),
        }
    }

    /// All marks.
    pub(crate) fn marks(&self) -> &[Mark]
        ensures { result.now ≡ self.now.gathered.marks }
    {
        self.gathering.marks()
    }

    /// With the marks after those of all entries. After an `Err` it isn't to be drawn.
    fn finish(&mut self) -> Result<(), AllocError>
        ensures { OnOk result (self.new ≡ spec.finished self.old) }
    {
        let end = self.end_stamp();
        self.gathering.finish(&self.story, end)
    }
}

/// A moment in milliseconds, or an edge where there is none.
fn edge_of(moment: Option<u64>, edge: u64) -> u64
    ensures { result ≡ edge_of moment edge }
{
    match moment {
        Some(moment) => millis_of(moment),
        None => edge,
    }
}

/// A fault at the place of its entry.
fn fault_at(at: u32, fault: SeeFault) -> DrawFault
    ensures { result ≡ spec.fault_at at fault }
{
    match fault {
        SeeFault::NoMemory => DrawFault::NoMemory,
        SeeFault::Disagrees(why) => DrawFault::Disagrees { at, why },
    }
}

fn first_moment(first: Option<u64>, moment: u64) -> Option<u64>
    ensures { result ≡ spec.first_moment first moment }
{
    match first {
        Some(first) => Some(first),
        None if moment == 1 => None,
        None => Some(moment),
    }
}

fn is_moment(event: Event<'_>) -> bool
    ensures { result ≡ spec.is_moment (event_of event.entry) }
{
    match event {
        Event::Tick(_) | Event::Release => true,
        _ => false,
    }
}

fn clock_at(clock: u64, event: Event<'_>, answer: Answer<'_>) -> u64
    ensures { result ≡ spec.clock_at clock (event_of event.entry) (answer_of answer.entry) }
{
    match (event, answer) {
        (Event::Tick(now), Answer::Ticked) => now,
        _ => clock,
    }
}

/// The clock after the next tick or release, where there is one.
fn moment_ahead(clock: u64, entries: &[Entry<'_>]) -> u64
    ensures { result ≡ spec.moment_ahead clock (spec.told entries.now) }
{
    for entry in entries {
        if is_moment(entry.event) {
            return clock_at(clock, entry.event, entry.answer);
        }
    }
    clock
}

/// The moment of the entries after one.
fn next_moment(clock: u64, moment: u64, event: Event<'_>, entries: &[Entry<'_>]) -> u64
    ensures { result ≡ spec.next_moment clock moment (event_of event.entry)
        (spec.told entries.now) }
{
    if is_moment(event) {
        return moment_ahead(clock, entries);
    }
    moment
}
