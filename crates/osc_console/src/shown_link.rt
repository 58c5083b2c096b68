//! A link whose datagrams are shown.
ghost use Rattle.std.specs.Prelude.{◌≡◌, ◌≤◌, vec_len, length, take};
ghost use Rattle.osc_console.specs.Links.{waiting, came_bytes};
ghost use Rattle.osc_edge.specs.declared.limits.TheConstants.{MAX_DATAGRAM};

use crate::agenda::Agenda;
use crate::lines::{Came, Lines};
use crate::waiting_clock::millis_between;
use crate::{Calendar, Pace, Rounds, Sender, Slot, View};
use osc_edge::{Clock, Datagram, Link, MAX_DATAGRAM, Moment, Sink};
use osc_model::Late;
use osc_shown::Arrival;
use std::alloc::{AllocError, Global};
use std::net::SocketAddrV4;
use std::sync::Wait;

/// What the bytes of a bundle begin with.
const BUNDLE: &[u8] = b"#bundle\0";

/// A datagram that isn't shown yet.
#[derive(Clone, Copy)]
struct Pending {
    size: usize,
    moment: Option<u64>,
    sender: Option<SocketAddrV4>,
}

/// What a link that is shown shares with others: the ticker's rounds, the slot in which its gate leaves
/// the answers, how long the link below waits, and the day that was shown last.
#[derive(Drop)]
pub struct Watch<'a, W> {
    pub threads: &'a W,
    pub rounds: &'a Rounds,
    pub slot: &'a Slot,
    pub pace: &'a Pace,
    pub calendar: &'a Calendar,
}

/// A link, each of whose datagrams is written to a sink as lines, with the server's answer to it,
/// when the next one is asked for: so after all that the server did with it. The units that waited
/// are written again once the ticker has played a round at their time tags or after. What the sink
/// doesn't take is lost, and what has no memory isn't shown; how many datagrams that were stands
/// before the next lines. Where late units are discarded the ticker plays a round before a bundle is
/// handed in, so that the bundle is judged by a clock that isn't late.
pub struct ShownLink<'a, L, C, O, W> {
    link: L,
    clock: C,
    out: O,
    watch: Watch<'a, W>,
    lines: Lines<'a>,
    space: Vec<u8>,
    pending: Option<Pending>,
    ghost room: { vec_len space ≡ MAX_DATAGRAM },
}

impl<L: Drop, C: Drop, O: Drop, W> Drop for ShownLink<'_, L, C, O, W> {
    fn drop(self) {
        let ShownLink {
            link: _,
            clock: _,
            out: _,
            watch: _,
            lines: _,
            space: _,
            pending: _,
        } = self;
    }
}

impl<'a, L: Link + Sender + Drop, C: Clock + Drop, O: Sink + Drop, W: Wait> ShownLink<
    'a,
    L,
    C,
    O,
    W,
> {
    ghost use Rattle.osc_edge.specs.declared.limits.TheConstants.{MAX_DATAGRAM};
    ghost use Rattle.std.specs.Prelude.{◌≡◌, ◌≤◌, [], length, Some, None, IfOk};
    ghost use Rattle.osc_ends.specs.Sinks.{change};
    ghost use Rattle.osc_console.specs.Links.{waiting, ShowsPending};

    /// Reserves the room of a datagram. An `Err` means out of memory.
    pub fn open(
        alloc: Global,
        link: L,
        clock: C,
        out: O,
        view: View<'a>,
        watch: Watch<'a, W>,
    ) -> Result<Self, AllocError>
        ensures link { IfOk result (λ shown. shown.link ≡ link) }
        ensures out { IfOk result (λ shown. shown.out ≡ out) }
        ensures view { IfOk result (λ shown. shown.lines.view ≡ view.entry) }
        ensures pending { IfOk result (λ shown. shown.pending ≡ None) }
        ensures waiters { IfOk result (λ shown. shown.lines.agenda.waiters.items ≡ []) }
        ensures unshown { IfOk result (λ shown. shown.lines.unshown ≡ 0) }
    {
        let space = vec![in alloc; 0; MAX_DATAGRAM]?;
        Ok(ShownLink {
            link,
            clock,
            out,
            lines: Lines::new(alloc, view, watch.calendar),
            watch,
            space,
            pending: None,
        })
    }

    /// These units wait already, in place of those that it noted.
    pub fn expect(&mut self, agenda: Agenda)
        ensures link { self.new.link ≡ self.old.link }
        ensures out { self.new.out ≡ self.old.out }
        ensures pending { self.new.pending ≡ self.old.pending }
        ensures space { self.new.space ≡ self.old.space }
        ensures view { self.new.lines.view ≡ self.old.lines.view }
        ensures unshown { self.new.lines.unshown ≡ self.old.lines.unshown }
        ensures waiters { self.new.lines.agenda ≡ agenda }
    {
        self.lines.expect(agenda);
    }

    /// Shows the last datagram, which no later call of the link shows, and the units that were called
    /// since.
    pub fn finish(&mut self)
        ensures link { self.new.link ≡ self.old.link }
        ensures pending { self.new.pending ≡ None }
        ensures rests { self.old.pending ≡ None → self.old.lines.agenda.waiters.items ≡ []
            → self.new.out ≡ self.old.out }
        ensures shows { self.new.lines.unshown ≡ 0 → ShowsPending self.old.lines.view
            (waiting self.old.pending self.old.space.items) self.old.lines.agenda.waiters.items
            self.new.lines.agenda.waiters.items (change O.Sink self.old.out self.new.out) }
    {
        let round = self.watch.rounds.handed();
        let came = came_of(self.pending.take(), &self.space, self.watch.slot);
        self.lines.show(came, round, &mut self.out);
    }

    /// The moment, where the clock tells it.
    fn moment(&mut self) -> Option<u64>
        ensures link { self.new.link ≡ self.old.link }
        ensures out { self.new.out ≡ self.old.out }
        ensures lines { self.new.lines ≡ self.old.lines }
        ensures pending { self.new.pending ≡ self.old.pending }
        ensures space { self.new.space ≡ self.old.space }
    {
        match self.clock.now() {
            Moment::At(moment) => Some(moment),
            Moment::Failed => None,
        }
    }

    /// Keeps a datagram, to be shown later, and catches up with the clock.
    fn keep(&mut self, datagram: &[u8])
        ensures link { self.new.link ≡ self.old.link }
        ensures out { self.new.out ≡ self.old.out }
        ensures lines { self.new.lines ≡ self.old.lines }
        ensures kept { length datagram.now ≤ MAX_DATAGRAM
            → waiting self.new.pending self.new.space.items ≡ Some datagram.now }
    {
        let moment = self.moment();
        let sender = self.link.sender();
        let size = copied(&mut self.space, datagram);
        self.pending = Some(Pending {
            size,
            moment,
            sender,
        });
        if self.lines.view.late == Late::Discard && datagram.starts_with(BUNDLE) {
            catch_up(&self.watch, moment);
        }
    }

    /// Has the link below wait no longer than until the first unit that waits is called.
    fn set_pace(&mut self)
        ensures link { self.new.link ≡ self.old.link }
        ensures out { self.new.out ≡ self.old.out }
        ensures lines { self.new.lines ≡ self.old.lines }
        ensures pending { self.new.pending ≡ self.old.pending }
        ensures space { self.new.space ≡ self.old.space }
    {
        let wait = match self.lines.first() {
            Some(tag) => match self.moment() {
                Some(now) => millis_between(now, tag).saturating_add(1),
                None => 1,
            },
            None => u64::MAX,
        };
        self.watch.pace.set(wait);
    }
}

/// The datagram that was kept, if one was, with what was answered to it.
fn came_of<'b>(pending: Option<Pending>, space: &'b [u8], slot: &Slot) -> Option<Came<'b>>
    ensures { came_bytes result ≡ waiting pending space.now }
{
    let pending = pending?;
    Some(Came {
        arrival: Arrival {
            moment: pending.moment,
            sender: pending.sender,
        },
        datagram: front(space, pending.size),
        submission: slot.take(),
    })
}

fn catch_up<W: Wait>(watch: &Watch<'_, W>, moment: Option<u64>) {
    if let Some(moment) = moment {
        watch.rounds.catch_up(watch.threads, moment);
    }
}

/// The first so many bytes, or all.
fn front(space: &[u8], size: usize) -> &[u8]
    ensures { result.now ≡ take size space.now }
{
    &space[..size.min(space.len())]
}

/// Copies the datagram to the front of the space, as far as it has room, and answers how many bytes.
fn copied(space: &mut [u8], datagram: &[u8]) -> usize
    ensures same { length space.new ≡ length space.old }
    ensures whole { length datagram.now ≤ length space.old → take result space.new ≡ datagram.now }
{
    let size = datagram.len().min(space.len());
    space[..size].copy_from_slice(&datagram[..size]);
    size
}

impl<'a, L: Link + Sender + Drop, C: Clock + Drop, O: Sink + Drop, W: Wait> Link
    for ShownLink<'a, L, C, O, W> {
    ghost use Rattle.osc_edge.specs.Link.{IsGotWithin, TakesTurn, HasLinkCause, HasQuietCause};
    ghost use Rattle.osc_edge.specs.declared.limits.TheConstants.{MAX_DATAGRAM};
    ghost use Rattle.std.specs.Prelude.{◌≡◌, [], None, length};
    ghost use Rattle.osc_ends.specs.Sinks.{change};
    ghost use Rattle.osc_console.specs.Links.{waiting, Keeps, ShowsPending};

    ghost left = { λ s. L.left s.link };

    ghost faults = { λ s. L.faults s.link };

    ghost quiets = { λ s. L.quiets s.link };

    /// Shows the datagram before, and what was called since, and then asks the link.
    fn next(&mut self, into: &mut [u8]) -> Datagram
        requires space { length into.old ≡ MAX_DATAGRAM }
        ensures within { IsGotWithin result into.new }
        ensures turns { TakesTurn (L.left self.old.link) (L.left self.new.link) result into.new }
        ensures cause { HasLinkCause (L.faults self.old.link) (L.faults self.new.link) result }
        ensures ready { HasQuietCause (L.quiets self.old.link) (L.quiets self.new.link) result }
        ensures rests { self.old.pending ≡ None → self.old.lines.agenda.waiters.items ≡ []
            → self.new.out ≡ self.old.out }
        ensures shows { self.new.lines.unshown ≡ 0 → ShowsPending self.old.lines.view
            (waiting self.old.pending self.old.space.items) self.old.lines.agenda.waiters.items
            self.new.lines.agenda.waiters.items (change O.Sink self.old.out self.new.out) }
        ensures keeps { Keeps result (waiting self.new.pending self.new.space.items) into.new }
    {
        self.finish();
        self.set_pace();
        let came = self.link.next(into);
        if let Datagram::Got(count) = came {
            self.keep(&into[..count]);
        }
        came
    }
}
