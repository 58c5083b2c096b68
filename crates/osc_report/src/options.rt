//! What is shown.
ghost use Rattle.std.specs.Prelude.{◌≡◌};
ghost use Rattle.osc_report.specs.Fronts as fronts;
ghost use Rattle.osc_report.specs.Windows as windows;

use crate::Selector;
use crate::front::Front;
use osc_shown::{Look, millis_of};

/// How lines look, and which of them are shown.
#[derive(Drop)]
pub struct Options {
    /// Where this says a moment from which on seconds are counted, it holds for all lines.
    pub look: Look,
    /// Lines count seconds from the moment of the first line that has a time, also where that is left
    /// out by its moment or address, and no line of a day stands before them.
    pub relative: bool,
    /// Lines have the number of the caller that has handed in what they show: of a unit that is
    /// called, or waits, the one that has handed it in.
    pub callers: bool,
    /// Ticks and new callers have lines, too.
    pub ticks: bool,
    /// From when on lines are shown, to the millisecond.
    pub from: Option<u64>,
    /// Up to when, that millisecond included.
    pub to: Option<u64>,
    /// Only lines with an address that this pattern matches are shown.
    pub only: Option<Selector>,
    /// Lines that say the same of an address again and again are told as one.
    pub runs: bool,
}

impl Options {
    ghost use Rattle.std.specs.Prelude.{◌≡◌, is_none};
    ghost use Rattle.osc_report.specs.Choices as spec;
    ghost use Rattle.osc_report.specs.Fronts as fronts;

    /// All lines that look so.
    pub fn all(look: Look, ticks: bool) -> Options
        ensures { result ≡ spec.all_lines look ticks }
    {
        Options {
            look,
            relative: false,
            callers: false,
            ticks,
            from: None,
            to: None,
            only: None,
            runs: false,
        }
    }

    /// The same whatever addresses lines have.
    pub(crate) fn unfiltered(&self) -> Options
        ensures { result ≡ spec.unfiltered self.now }
    {
        Options {
            look: self.look,
            relative: self.relative,
            callers: self.callers,
            ticks: self.ticks,
            from: self.from,
            to: self.to,
            only: None,
            runs: self.runs,
        }
    }

    /// Whether lines may be left out by their moments or addresses.
    pub(crate) fn is_part(&self) -> bool
        ensures { result ≡ spec.is_part self.now }
    {
        self.from.is_some() || self.to.is_some() || self.only.is_some()
    }

    /// Lines of a moment, by that of the first line that has a time.
    pub(crate) fn front_at(&self, first: Option<u64>, moment: u64) -> Front
        ensures { result ≡ fronts.front_at self.now first moment }
    {
        Front {
            look: Look {
                since: since_of(self.look.since, self.relative, first, moment),
                ..self.look
            },
            moment,
        }
    }

    /// The same lines, which a caller has handed in.
    pub(crate) fn front_by(&self, front: Front, caller: u32) -> Front
        ensures { result ≡ fronts.front_by self.now front caller }
    {
        if !self.callers {
            return front;
        }
        Front {
            look: Look {
                caller: Some(caller),
                ..front.look
            },
            ..front
        }
    }

    /// Whether lines count seconds in place of the time of day.
    pub(crate) fn is_relative(&self) -> bool
        ensures { result ≡ fronts.is_relative self.now }
    {
        self.relative || self.look.since.is_some()
    }

    /// Whether lines of a moment are shown.
    pub(crate) fn has(&self, moment: u64) -> bool
        ensures { result ≡ spec.is_within self.now moment }
    {
        is_from(self.from, moment) && is_to(self.to, moment)
    }

    /// Whether lines without an address are shown.
    pub(crate) fn has_unnamed(&self) -> bool
        ensures { result ≡ is_none self.now.only }
    {
        self.only.is_none()
    }

    /// Whether lines with an address are shown.
    pub(crate) fn has_named(&self, address: &[u8]) -> bool
        ensures { result ≡ spec.is_named self.now.only address.now }
    {
        match &self.only {
            Some(selector) => selector.selects(address),
            None => true,
        }
    }
}

/// From which moment on lines count seconds, if from one: the one that is given, or where times are
/// to be relative that of the first line, or else of this one.
fn since_of(since: Option<u64>, relative: bool, first: Option<u64>, moment: u64) -> Option<u64>
    ensures { result ≡ fronts.since_of since relative first moment }
{
    match since {
        Some(since) => Some(since),
        None if relative => Some(first.unwrap_or(moment)),
        None => None,
    }
}

fn is_from(from: Option<u64>, moment: u64) -> bool
    ensures { result ≡ windows.is_from from moment }
{
    match from {
        Some(from) => millis_of(from) <= millis_of(moment),
        None => true,
    }
}

fn is_to(to: Option<u64>, moment: u64) -> bool
    ensures { result ≡ windows.is_to to moment }
{
    match to {
        Some(to) => millis_of(moment) <= millis_of(to),
        None => true,
    }
}
