//! The lines that a link shows.
ghost use Rattle.std.specs.Prelude.{◌≡◌, ◌++◌, [], IsOk, OnOk, None, option_and_then, unwrap_or};
ghost use Rattle.osc_ends.specs.Sinks.{change, GainsAll};
ghost use Rattle.osc_console.specs.Showing.{unshown_text, IsDayOrNone};

use crate::{Agenda, Calendar, View};
use osc_edge::Sink;
use osc_ends::status::DONE;
use osc_ends::write_text;
use osc_live::Submission;
use osc_shown::{Arrival, Look, day_line};
use std::alloc::{AllocError, Global};

/// A datagram that came, and what the server answered to it.
#[derive(Clone, Copy)]
pub struct Came<'a> {
    pub arrival: Arrival,
    pub datagram: &'a [u8],
    pub submission: Option<Submission>,
}

/// The lines that a link shows: those of its datagrams, and of their units that waited, when these are
/// called.
pub struct Lines<'a> {
    pub(crate) view: View<'a>,
    calendar: &'a Calendar,
    pub(crate) agenda: Agenda,
    /// What is to be shown, and what is written with it.
    text: Vec<u8>,
    page: Vec<u8>,
    /// How many datagrams were not shown since the last that was.
    pub(crate) unshown: u32,
    /// The minute since 1900 for which the day was looked at last, if it was. A day begins with a
    /// minute.
    minute: Option<u64>,
}

impl Drop for Lines<'_> {
    fn drop(self) {
        let Lines {
            view: _,
            calendar: _,
            agenda: _,
            text: _,
            page: _,
            unshown: _,
            minute: _,
        } = self;
    }
}

impl<'a> Lines<'a> {
    ghost use Rattle.std.specs.Prelude.{◌≡◌, ◌↔◌, [], IsTrue, OnOk, None};
    ghost use Rattle.osc_ends.specs.Sinks.{change};
    ghost use Rattle.osc_console.specs.Showing.{AddsCame, after_came, MakesLines, Shows};
    ghost use Rattle.osc_console.specs.Showing.{PutsTogether};
    ghost use Rattle.osc_console.specs.Agenda.{first_tag};

    /// Nothing was shown yet. Takes no memory.
    pub fn new(alloc: Global, view: View<'a>, calendar: &'a Calendar) -> Lines<'a>
        ensures view { result.view ≡ view.entry }
        ensures waiters { result.agenda.waiters.items ≡ [] }
        ensures unshown { result.unshown ≡ 0 }
    {
        Lines {
            view,
            calendar,
            agenda: Agenda::new(alloc),
            text: Vec::new(alloc),
            page: Vec::new(alloc),
            unshown: 0,
            minute: None,
        }
    }

    /// These units wait already, in place of those that it noted.
    pub fn expect(&mut self, agenda: Agenda)
        ensures view { self.new.view ≡ self.old.view }
        ensures unshown { self.new.unshown ≡ self.old.unshown }
        ensures waiters { self.new.agenda ≡ agenda }
    {
        self.agenda = agenda;
    }

    /// Writes the lines of what came, if anything did, and of the units that were called up to the
    /// ticker's round of this moment. What the sink doesn't take is lost, and what has no memory
    /// isn't shown; how many datagrams that were stands before the next lines.
    pub fn show<O: Sink>(&mut self, came: Option<Came<'_>>, round: u64, out: &mut O)
        ensures view { self.new.view ≡ self.old.view }
        ensures rests { came.entry ≡ None → self.old.agenda.waiters.items ≡ []
            → out.new ≡ out.old }
        ensures shows { self.new.unshown ≡ 0 → Shows self.old.view.look self.old.view.late
            self.old.view.routes.now came.entry round self.old.agenda.waiters.items
            self.new.agenda.waiters.items (change O.Sink out.old out.new) }
    {
        if self.has_nothing(came) {
            return;
        }
        let made = self.make(came, round);
        if made.is_ok() && self.text.is_empty() {
            return;
        }
        let moment = moment_of(came, round);
        let whole = match made {
            Ok(()) => self.put_together(moment),
            Err(error) => Err(error),
        };
        self.unshown = unshown_after(whole, out, &self.page, self.unshown);
    }

    /// Whether nothing came, and nothing waits.
    fn has_nothing(&self, came: Option<Came<'_>>) -> bool
        ensures { IsTrue result ↔ ((came.entry ≡ None) × (self.now.agenda.waiters.items ≡ [])) }
    {
        came.is_none() && self.agenda.is_empty()
    }

    /// Makes the lines of what came, and then of what was called.
    fn make(&mut self, came: Option<Came<'_>>, round: u64) -> Result<(), AllocError>
        ensures view { self.new.view ≡ self.old.view }
        ensures unshown { self.new.unshown ≡ self.old.unshown }
        ensures made { OnOk result (MakesLines self.old.view.look self.old.view.late
            self.old.view.routes.now came.entry round self.old.agenda.waiters.items
            self.new.agenda.waiters.items self.new.text.items) }
    {
        self.make_came(came)?;
        self.agenda.called_lines(&mut self.text, self.view, round)
    }

    /// Makes the lines of what came.
    fn make_came(&mut self, came: Option<Came<'_>>) -> Result<(), AllocError>
        ensures view { self.new.view ≡ self.old.view }
        ensures unshown { self.new.unshown ≡ self.old.unshown }
        ensures lines { OnOk result (AddsCame self.old.view.look self.old.view.late
            self.old.view.routes.now came.entry self.new.text.items) }
        ensures waiters { OnOk result (self.new.agenda.waiters.items ≡ after_came
            self.old.view.look self.old.view.late self.old.view.routes.now came.entry
            self.old.agenda.waiters.items) }
    {
        self.text.clear();
        match came {
            Some(came) => self.agenda.datagram_lines(
                &mut self.text,
                self.view,
                came.arrival,
                came.datagram,
                came.submission,
            ),
            None => Ok(()),
        }
    }

    /// Puts before the lines how many datagrams weren't shown, and the day, where it is another one.
    fn put_together(&mut self, moment: u64) -> Result<(), AllocError>
        ensures view { self.new.view ≡ self.old.view }
        ensures unshown { self.new.unshown ≡ self.old.unshown }
        ensures waiters { self.new.agenda.waiters.items ≡ self.old.agenda.waiters.items }
        ensures text { self.new.text.items ≡ self.old.text.items }
        ensures page { OnOk result (PutsTogether self.old.view.look moment self.old.unshown
            self.old.text.items self.new.page.items) }
    {
        self.page.clear();
        add_unshown(&mut self.page, self.unshown)?;
        let minute = (moment >> 32) / 60;
        if moment > 0 && self.minute != Some(minute) {
            add_day(&mut self.page, self.calendar, self.view.look, moment)?;
            self.minute = Some(minute);
        }
        self.page.extend_from_slice(&self.text)
    }

    /// The time tag for which the first unit waits, if any waits.
    pub fn first(&self) -> Option<u64>
        ensures { result ≡ first_tag self.now.agenda.waiters.items }
    {
        self.agenda.first()
    }
}

/// The moment of the first line: of the datagram, or of the round in which units were called.
fn moment_of(came: Option<Came<'_>>, round: u64) -> u64
    ensures { result ≡ unwrap_or (option_and_then (λ one. one.arrival.moment) came.entry) round }
{
    match came {
        Some(came) => came.arrival.moment.unwrap_or(round),
        None => round,
    }
}

/// Adds how many datagrams weren't shown, if there are any.
fn add_unshown(text: &mut Vec<u8>, unshown: u32) -> Result<(), AllocError>
    ensures { OnOk result (text.new.items ≡ text.old.items ++ unshown_text unshown) }
{
    if unshown == 0 {
        return Ok(());
    }
    text.extend_from_slice(b"-- ")?;
    let mut digits = itoa::Buffer::new();
    text.extend_from_slice(digits.format(unshown).as_bytes())?;
    text.extend_from_slice(b" datagrams were not shown\n")
}

/// Adds the line of the day, where it isn't the last that was shown.
fn add_day(
    text: &mut Vec<u8>,
    calendar: &Calendar,
    look: Look,
    moment: u64,
) -> Result<(), AllocError>
    ensures { OnOk result (IsDayOrNone look moment text.old.items text.new.items) }
{
    let alloc: Global = *text.allocator();
    let mut line = Vec::new(alloc);
    day_line(&mut line, look, moment)?;
    if calendar.turns_to(&line)? {
        return text.extend_from_slice(&line);
    }
    Ok(())
}

/// Writes the page, if it was made. Answers how many datagrams were not shown then, of which so many
/// were before.
fn unshown_after<O: Sink>(
    made: Result<(), AllocError>,
    out: &mut O,
    page: &[u8],
    unshown: u32,
) -> u32
    ensures { result ≡ 0 → IsOk made
        × GainsAll (change O.Sink out.old out.new) page.now }
{
    match made {
        Ok(()) if write_text(DONE, page, out) == DONE => 0,
        _ => unshown.saturating_add(1),
    }
}
