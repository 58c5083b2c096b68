// Serves links, and prints meanwhile what comes in.
ghost use Rattle.std.specs.Prelude.{◌≡◌, ◌≤◌, length, IfOk, IsSomeAnd};
ghost use Rattle.osc_links.specs.declared.limits.TheConstants.{MAX_LINKS};
ghost use Rattle.osc_chain.specs.Shows.{CanPlay};

use crate::bank::Bank;
use crate::carry::agenda_of;
use crate::input::watch_input;
use crate::losses::{LossReport, report_losses};
use crate::parts::size_of;
use crate::reel::Reel;
use crate::report::{ShowEnd, report_end, report_seam, report_start, report_unprinted};
use crate::view::{look_of, print_day};
use crate::words::Serving;
use osc_chain::play_show;
use osc_console::{
    Agenda, Calendar, Changeover, Chore, ConsoleGate, HeardLink, Pace, PacedLink, Peer, Printer,
    RingSink, Rounds, Sender, ShownLink, Shutdown, ShutdownLink, Slot, View, WaitingClock, Watch,
    print_while,
};
use osc_edge::{Link, StdSink, system_moment};
use osc_ends::limits_for;
use osc_ends::status::{DONE, EDGE_FAILED, RECORDING_FULL, SINK_FAILED};
use osc_links::LinksPart;
use osc_relay::UdpOutlet;
use osc_script::Line;
use osc_stage::{Ended, Stage, Staged, carried_on};
use osc_words::Transport;
use rtrb::{Consumer, RingBuffer};
use std::alloc::{AllocError, Global};
use std::sync::{Arc, Wait};
use std::thread::{Threads, join_mut};

/// How many callers a server of a stage may have: more than links.
pub(crate) const CALLERS: u32 = 32;

/// How many bytes of lines may wait to be printed.
const RING: usize = 262_144;

/// How many milliseconds a link waits for a datagram, and how many where the words count its waits.
const LONG_WAIT: u32 = 1_000;

const COUNTED_WAIT: u32 = 50;

/// What the threads of a show share.
#[derive(Drop)]
pub(crate) struct Shared {
    pub(crate) shutdown: Arc<Shutdown, Global>,
    pub(crate) rounds: Rounds,
    calendar: Calendar,
    printer: Printer,
    pub(crate) slots: Vec<Slot>,
    paces: Vec<Pace>,
    peers: Vec<Peer>,
    pub(crate) changeover: Changeover,
}

impl Shared {
    /// For so many links.
    fn open(alloc: Global, serving: &Serving, links: usize) -> Result<Shared, AllocError> {
        let mut slots = Vec::with_capacity(alloc, links)?;
        let mut paces = Vec::with_capacity(alloc, links)?;
        let mut peers = Vec::with_capacity(alloc, links)?;
        for _ in 0..links {
            slots.push(Slot::new())?;
            paces.push(pace_of(serving))?;
            peers.push(Peer::new())?;
        }
        Ok(Shared {
            shutdown: Arc::new(alloc, Shutdown::new())?,
            rounds: Rounds::new(),
            calendar: Calendar::new(alloc),
            printer: Printer::new(),
            slots,
            paces,
            peers,
            changeover: Changeover::at(size_of(serving)),
        })
    }
}

/// A link wakes up seldom, so that an idle show costs nothing, unless `--idle` counts its waits.
fn pace_of(serving: &Serving) -> Pace {
    if serving.links.bounds.idle < u32::MAX {
        Pace::steady(COUNTED_WAIT)
    } else {
        Pace::new(LONG_WAIT)
    }
}

/// What a show begins with: the methods, and the lines that carry an old show on.
#[derive(Drop)]
pub(crate) struct Begin {
    pub(crate) bank: Bank,
    pub(crate) carried: Vec<Line>,
}

/// Serves the links that the words say to serve.
pub(crate) fn play<W: Threads + Wait + Sync>(
    rt: &HostRuntime,
    threads: &W,
    serving: &Serving,
    ports: &[u16],
    begin: Begin,
) -> Result<u8, AllocError>
    requires { length ports.now ≡ serving.now.links.count }
{
    report_start(rt, serving, ports, &begin.bank);
    let shared = Shared::open(rt.alloc(), serving, ports.len())?;
    watch_input(rt, threads, Arc::try_clone(&shared.shutdown)?);
    match serving.links.transport {
        Transport::Udp => {
            let links = datagram_links(rt, &shared, ports)?;
            play_links(rt, threads, serving, &shared, links, begin)
        }
        Transport::Tcp => {
            let links = stream_links(rt, &shared, ports)?;
            play_links(rt, threads, serving, &shared, links, begin)
        }
    }
}

/// A link over UDP for each port.
fn datagram_links<'a>(
    rt: &HostRuntime,
    shared: &'a Shared,
    ports: &[u16],
) -> Result<Vec<ShutdownLink<'a, HeardLink<'a>>>, AllocError>
    ensures { IfOk result (λ links. length links.items ≤ length ports.now) }
{
    let mut links = Vec::with_capacity(rt.alloc(), ports.len())?;
    let mut desks = shared.paces.iter().zip(&shared.slots);
    for port in ports {
        let Some((pace, slot)) = desks.next() else {
            break;
        };
        let link = HeardLink::at(rt, *port, pace, &shared.changeover);
        links.push(ending_link(rt, shared, link, slot)?)?;
    }
    Ok(links)
}

/// The link, which ends when the show does.
fn ending_link<'a, L: Link + Drop>(
    rt: &HostRuntime,
    shared: &'a Shared,
    link: L,
    slot: &'a Slot,
) -> Result<ShutdownLink<'a, L>, AllocError> {
    ShutdownLink::open(rt.alloc(), link, &shared.shutdown, &shared.changeover, slot)
}

/// A link over TCP for each port.
fn stream_links<'a>(
    rt: &HostRuntime,
    shared: &'a Shared,
    ports: &[u16],
) -> Result<Vec<ShutdownLink<'a, PacedLink<'a>>>, AllocError>
    ensures { IfOk result (λ links. length links.items ≤ length ports.now) }
{
    let mut links = Vec::with_capacity(rt.alloc(), ports.len())?;
    let mut desks = shared.paces.iter().zip(&shared.peers).zip(&shared.slots);
    for port in ports {
        let Some(((pace, peer), slot)) = desks.next() else {
            break;
        };
        let link = PacedLink::open(rt, *port, pace, &shared.changeover, peer)?;
        links.push(ending_link(rt, shared, link, slot)?)?;
    }
    Ok(links)
}

/// Serves these links, and prints meanwhile.
fn play_links<W: Threads + Wait + Sync, L: Link + Sender + Send + Drop>(
    rt: &HostRuntime,
    threads: &W,
    serving: &Serving,
    shared: &Shared,
    links: Vec<L>,
    begin: Begin,
) -> Result<u8, AllocError>
    requires { length links.items ≤ MAX_LINKS }
{
    let alloc = rt.alloc();
    let look = look_of(rt, system_moment(rt), serving.flags.quiet);
    print_day(rt, look, &shared.calendar)?;
    let Begin { bank, carried } = begin;
    let Bank {
        relays,
        routes,
        destinations,
    } = bank;
    let view = View {
        look,
        late: serving.caps.late,
        routes: &routes,
    };
    let mut rings = Vec::with_capacity(alloc, links.len())?;
    let mut from = show_links(rt, threads, shared, view, links, &mut rings)?;
    expect_units(&mut from, agenda_of(alloc, &carried)?);
    let caps = limits_for(CALLERS, serving.caps);
    let stage = Stage {
        caps,
        opening: carried_on(alloc, relays, carried)?,
        links: LinksPart {
            from,
            bounds: serving.links.bounds,
        },
    };
    let file = String::from_str(alloc, &serving.names.file)?;
    let mut reel = Reel::new(rt, shared, caps, file);
    let mut printing = Printing {
        rings,
        report: LossReport::new(rt, &destinations),
    };
    let (ended, size) = play_printed(rt, threads, shared, stage, &mut reel, &mut printing)?;
    report_losses(rt, &destinations);
    let end = ShowEnd {
        ended,
        file: reel.name()?,
        size,
        refused: reel.refused(),
    };
    report_end(rt, serving, &end);
    Ok(status_of(ended))
}

/// What is printed while a show plays: what comes out of a ring for each link, and the losses.
#[derive(Drop)]
struct Printing<D> {
    rings: Vec<Consumer<u8, Global>>,
    report: D,
}

/// Plays the show, and prints meanwhile what comes out of the rings. Answers how it ended, and how many
/// bytes its last recording has.
fn play_printed<W: Threads + Wait + Sync, L: Link + Finish + Send + Drop, D: Chore + Send>(
    rt: &HostRuntime,
    threads: &W,
    shared: &Shared,
    stage: Stage<UdpOutlet, L>,
    reel: &mut Reel<'_>,
    printing: &mut Printing<D>,
) -> Result<(Ended, usize), AllocError>
    requires { CanPlay stage }
{
    let mut out = StdSink::open(rt);
    let Printing { rings, report } = printing;
    let mut given = Some(stage);
    let (is_whole, end) = join_mut(
        threads,
        &mut || print_while(threads, &shared.printer, rings, &mut out, report),
        &mut || -> Result<(Ended, usize), AllocError>
            requires { IsSomeAnd given (λ stage. CanPlay stage) }
        {
            let end = play_stages(rt, threads, shared, given.take().unwrap(), reel);
            shared.printer.end();
            end
        },
    );
    if !is_whole {
        report_unprinted(rt);
    }
    end
}

/// Plays the show, in one recording after another, and then shows what was left to be shown.
fn play_stages<'a, W: Threads + Wait + Sync, L: Link + Finish + Send + Drop>(
    rt: &HostRuntime,
    threads: &'a W,
    shared: &'a Shared,
    stage: Stage<UdpOutlet, L>,
    reel: &mut Reel<'_>,
) -> Result<(Ended, usize), AllocError>
    requires { CanPlay stage }
{
    let mut clock = WaitingClock::open(rt, threads, &shared.rounds, &shared.changeover);
    let gate = ConsoleGate::new(&shared.rounds, &shared.slots);
    let osc_chain::ShowEnd { staged, fault } = play_show(
        threads,
        rt.alloc(),
        stage,
        &mut clock,
        reel,
        &gate,
    )?;
    if let Some(fault) = fault {
        report_seam(rt, fault);
    }
    let Staged {
        ended,
        mut links,
        recording,
        ..
    } = staged;
    for link in &mut links {
        link.finish();
    }
    Ok((ended, recording.len()))
}

/// What may have something left to show.
trait Finish {
    /// Shows it.
    fn finish(&mut self);
}

type StageLink<'a, L, W> = ShownLink<'a, L, WaitingClock<'a, W>, RingSink<'a>, W>;

/// Has the lines of each link come out of a ring of its own.
fn show_links<'a, W: Wait, L: Link + Sender + Drop>(
    rt: &HostRuntime,
    threads: &'a W,
    shared: &'a Shared,
    view: View<'a>,
    links: Vec<L>,
    rings: &mut Vec<Consumer<u8, Global>>,
) -> Result<Vec<StageLink<'a, L, W>>, AllocError>
    ensures { IfOk result (λ shown. length shown.items ≤ length links.items) }
{
    let alloc = rt.alloc();
    let mut shown = Vec::with_capacity(alloc, links.len())?;
    let mut desks = shared.slots.iter().zip(&shared.paces);
    for link in links {
        let Some((slot, pace)) = desks.next() else {
            break;
        };
        let (producer, consumer) = RingBuffer::new(alloc, RING)?;
        let watch = Watch {
            threads,
            rounds: &shared.rounds,
            slot,
            pace,
            calendar: &shared.calendar,
        };
        let clock = WaitingClock::open(rt, threads, &shared.rounds, &shared.changeover);
        let sink = RingSink::new(producer, &shared.printer);
        shown.push(ShownLink::open(alloc, link, clock, sink, view, watch)?)?;
        rings.push(consumer)?;
    }
    Ok(shown)
}

/// Has the first link show the units that wait already, when they are called.
fn expect_units<'a, L: Link + Sender + Drop, W: Wait>(
    links: &mut [StageLink<'a, L, W>],
    agenda: Agenda,
) {
    if let Some(first) = links.first_mut() {
        first.expect(agenda);
    }
}

impl<'a, L: Link + Sender + Drop, W: Wait> Finish for StageLink<'a, L, W> {
    fn finish(&mut self) {
        ShownLink::finish(self);
    }
}

/// The exit status of an end (docs/FORMATS.md, "Exit statuses").
pub(crate) fn status_of(ended: Ended) -> u8 {
    match ended {
        Ended::Done => DONE,
        Ended::SinkFailed => SINK_FAILED,
        Ended::RecordFull(_) => RECORDING_FULL,
        Ended::LinkFailed(_) | Ended::ClockFailed => EDGE_FAILED,
    }
}
