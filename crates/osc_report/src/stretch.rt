//! The entries up to the next tick or release.
ghost use Rattle.std.specs.Prelude.{◌≡◌, IfOk};
ghost use Rattle.osc_record.specs.Shown.{event_of, answer_of};
ghost use Rattle.osc_report.specs.Moments as spec;
ghost use Rattle.osc_report.specs.Stretches.{HasRead, ReadsNext, placed, told, clock_after};
ghost use Rattle.osc_report.specs.Stretches.{clock_at};

use osc_record::{Answer, Entry, Event, Unread};
use std::alloc::{AllocError, Global};

/// How the entries that are shown end.
#[derive(Clone, Copy, Debug, PartialEq, Eq)]
pub enum Shown {
    /// With a tick or a release.
    Stretch,
    /// Nothing is left.
    All,
    /// What is left begins with no whole entry.
    NotWhole { at: u32 },
}

/// A moment, unless nothing has ticked.
pub(crate) fn shown_moment(moment: u64) -> Option<u64>
    ensures { result ≡ spec.shown_moment moment }
{
    if moment == 1 { None } else { Some(moment) }
}

/// Entries, and where the clock stands after them.
#[derive(Drop)]
pub(crate) struct Stretch<'a> {
    pub(crate) entries: Vec<Entry<'a>>,
    pub(crate) clock: u64,
}

/// Reads the entries up to and with the next tick or release, or all that are left.
pub(crate) fn read_stretch<'a>(
    alloc: Global,
    clock: u64,
    unread: &mut Unread<'a>,
) -> Result<(Stretch<'a>, Shown), AllocError>
    ensures { IfOk result (λ read. HasRead unread.old (told (placed read.0.entries.items)) read.1
        unread.new × (read.0.clock ≡ clock_after clock (told (placed read.0.entries.items)))) }
{
    let mut stretch = Stretch {
        entries: Vec::new(alloc),
        clock,
    };
    loop {
        match read_next(&mut stretch, unread)? {
            Some(shown) => return Ok((stretch, shown)),
            None => {}
        }
    }
}

/// Reads one more entry. Answers how the entries end, if they do.
fn read_next<'a>(
    stretch: &mut Stretch<'a>,
    unread: &mut Unread<'a>,
) -> Result<Option<Shown>, AllocError>
    ensures { IfOk result (λ shown. ReadsNext shown unread.old unread.new
        (placed stretch.old.entries.items) (placed stretch.new.entries.items)
        stretch.old.clock stretch.new.clock) }
{
    match unread.next_entry() {
        Ok(Some(entry)) => {
            stretch.entries.push(entry)?;
            stretch.clock = clock_at(stretch.clock, entry.event, entry.answer);
            if ends_stretch(entry.event) {
                return Ok(Some(Shown::Stretch));
            }
            Ok(None)
        }
        Ok(None) => Ok(Some(Shown::All)),
        Err(malformed) => Ok(Some(Shown::NotWhole { at: malformed.at })),
    }
}

fn ends_stretch(event: Event<'_>) -> bool
    ensures { result ≡ spec.ends_stretch (event_of event.entry) }
{
    match event {
        Event::Tick(_) | Event::Release => true,
        _ => false,
    }
}

fn clock_at(clock: u64, event: Event<'_>, answer: Answer<'_>) -> u64
    ensures { result ≡ clock_at clock (event_of event.entry) (answer_of answer.entry) }
{
    match (event, answer) {
        (Event::Tick(now), Answer::Ticked) => now,
        _ => clock,
    }
}
