// Plays a sheet of cues at its moments.
ghost use Rattle.std.specs.Prelude.{◌≤◌, All, IfOk, IsSomeAnd, length};
ghost use Rattle.osc_edge.specs.Link.{IsShortTurn};
ghost use Rattle.osc_model.specs.Limits.{max_recording};
ghost use Rattle.osc_lanes.specs.Performs.{part_of, IsWhole};
ghost use Rattle.oscstage.specs.Shows.{CanServe};

use crate::bank::{Bank, open_bank};
use crate::bundle::{Timed, bundles_of};
use crate::cues::SheetRead;
use crate::losses::report_losses;
use crate::parts::NEVER;
use crate::prompt::prompt_while;
use crate::report::{report_kept, report_latest, report_played, report_routes, report_there};
use crate::show::{CALLERS, status_of};
use crate::words::Playing;
use osc_atoms::Bytes;
use osc_console::{
    Agenda, Calendar, Changeover, ConsoleGate, Lines, Rounds, Shutdown, Slot, TimedLink, View,
    WaitingClock,
};
use osc_edge::{FileSink, Link, MAX_DATAGRAM, MemoryLink, Put, Sink, StdSink};
use osc_ends::status::{DONE, REFUSED, SINK_FAILED};
use osc_ends::{limits_for, write_text};
use osc_links::{Bounds, LinksPart};
use osc_model::Late;
use osc_packet::{MAX_PACKET, Packet};
use osc_record::{Answer, Event, MAX_RECORDING, Unread};
use osc_relay::{Relay, UdpOutlet};
use osc_report::{Options, Reporter, ShowFault, Shown};
use osc_show::is_there;
use osc_shown::{Look, Route};
use osc_stage::{Ended, Stage, adds_of, stage_top};
use osc_words::default_capacities;
use std::alloc::{AllocError, Global};
use std::sync::Wait;
use std::thread::{Threads, join_mut};

/// What is played: the relays, where each sends in words, and what is sent when.
#[derive(Drop)]
struct Program<'a> {
    relays: Vec<Relay<UdpOutlet>>,
    routes: &'a [Route],
    bundles: &'a [Timed],
    look: Look,
}

/// Sends each cue of the sheet at its moment, and records it in a file, if one is named.
pub(crate) fn play_sheet<W: Threads + Wait + Sync>(
    rt: &HostRuntime,
    threads: &W,
    look: Look,
    playing: &Playing,
    read: &SheetRead,
) -> Result<u8, AllocError> {
    let alloc = rt.alloc();
    if let Some(file) = &playing.file
        && !playing.force
        && is_there(rt, file)
    {
        report_there(rt, file);
        return Ok(SINK_FAILED);
    }
    let bundles = bundles_of(alloc, read)?;
    let bank = match open_bank(rt, &read.patch, &[])? {
        Ok(bank) => bank,
        Err(wrong) => {
            report_routes(rt, &playing.patch, &wrong);
            return Ok(REFUSED);
        }
    };
    let Bank {
        relays,
        routes,
        destinations,
    } = bank;
    let program = Program {
        relays,
        routes: &routes,
        bundles: &bundles,
        look,
    };
    let performed = match &playing.file {
        Some(file) => {
            let name = String::from_str(alloc, file)?;
            perform(rt, threads, program, &mut FileSink::at(rt, name))?
        }
        None => perform(rt, threads, program, &mut Unkept)?,
    };
    finish(rt, playing, (look, &bundles), &performed)?;
    report_losses(rt, &destinations);
    Ok(status_of(performed.ended))
}

/// A sink that keeps nothing.
#[derive(Drop)]
struct Unkept;

impl Sink for Unkept {
    ghost use Rattle.std.specs.Prelude.{None};

    ghost held = { λ _. None };

    ghost faults = { λ _. 0 };

    fn write(&mut self, piece: &[u8]) -> Put {
        Put::Took(piece.len())
    }
}

type SheetLink<'a, W> = TimedLink<'a, MemoryLink, W>;

/// What happened to the sheet.
#[derive(Drop)]
struct Performed {
    ended: Ended,
    recording: Vec<u8>,
}

/// What the threads of a performance share.
#[derive(Drop)]
struct Booth {
    rounds: Rounds,
    over: Shutdown,
    changeover: Changeover,
    calendar: Calendar,
}

impl Booth {
    fn open(alloc: Global) -> Booth {
        Booth {
            rounds: Rounds::new(),
            over: Shutdown::new(),
            changeover: Changeover::at(NEVER),
            calendar: Calendar::new(alloc),
        }
    }
}

/// Plays the program, and prints the cues as they are called.
fn perform<W: Threads + Wait + Sync, R: Sink + Send>(
    rt: &HostRuntime,
    threads: &W,
    program: Program<'_>,
    rec: &mut R,
) -> Result<Performed, AllocError> {
    let alloc = rt.alloc();
    let booth = Booth::open(alloc);
    let view = View {
        look: program.look,
        late: Late::Deliver,
        routes: program.routes,
    };
    let mut lines = Lines::new(alloc, view, &booth.calendar);
    lines.expect(agenda_of(alloc, program.bundles)?);
    let link = link_for(rt, threads, &booth.rounds, program.bundles)?;
    let mut given = Some(stage_for(alloc, program.relays, link)?);
    let mut out = StdSink::open(rt);
    let (_, performed) = join_mut(
        threads,
        &mut || prompt_while(threads, &booth.rounds, &booth.over, &mut lines, &mut out),
        &mut || -> Result<Performed, AllocError>
            requires serves { IsSomeAnd given (λ stage. CanServe
                (length stage.links.from.items) stage.caps.callers stage.links.bounds.count
                stage.links.bounds.idle) }
            requires whole { IsSomeAnd given (λ stage. IsWhole (part_of stage.opening)) }
        { play_stage(rt, threads, &booth, given.take().unwrap(), rec) },
    );
    performed
}

/// A stage with these relays and this link alone.
fn stage_for<L: Drop>(
    alloc: Global,
    relays: Vec<Relay<UdpOutlet>>,
    link: L,
) -> Result<Stage<UdpOutlet, L>, AllocError>
    ensures serves { IfOk result (λ stage. CanServe (length stage.links.from.items)
        stage.caps.callers stage.links.bounds.count stage.links.bounds.idle) }
    ensures whole { IfOk result (λ stage. IsWhole (part_of stage.opening)) }
{
    let mut from = Vec::with_capacity(alloc, 1)?;
    from.push(link)?;
    let bounds = Bounds {
        count: u32::MAX,
        idle: u32::MAX,
    };
    Ok(Stage {
        caps: limits_for(CALLERS, default_capacities()),
        opening: adds_of(alloc, relays)?,
        links: LinksPart { from, bounds },
    })
}

/// Plays the stage, and tells who prints when it is over.
fn play_stage<W: Threads + Wait + Sync, L: Link + Send + Drop, R: Sink>(
    rt: &HostRuntime,
    threads: &W,
    booth: &Booth,
    stage: Stage<UdpOutlet, L>,
    rec: &mut R,
) -> Result<Performed, AllocError>
    requires serves { CanServe (length stage.links.from.items) stage.caps.callers
        stage.links.bounds.count stage.links.bounds.idle }
    requires whole { IsWhole (part_of stage.opening) }
{
    let mut clock = WaitingClock::open(rt, threads, &booth.rounds, &booth.changeover);
    let slots: [Slot; 0] = [];
    let gate = ConsoleGate::new(&booth.rounds, &slots);
    let staged = stage_top(threads, rt.alloc(), stage, &mut clock, rec, &gate);
    booth.over.ask();
    booth.rounds.end();
    let staged = staged?;
    Ok(Performed {
        ended: staged.ended,
        recording: staged.recording,
    })
}

/// The units of the bundles, which are shown when they are called.
fn agenda_of(alloc: Global, bundles: &[Timed]) -> Result<Agenda, AllocError> {
    let mut agenda = Agenda::new(alloc);
    for bundle in bundles {
        if let Ok(packet) = Packet::check(bundle.packet.as_slice(), MAX_PACKET) {
            agenda.expect(&packet)?;
        }
    }
    Ok(agenda)
}

/// The link that gives the bundles, each ahead of its moment.
fn link_for<'a, W: Wait>(
    rt: &HostRuntime,
    threads: &'a W,
    rounds: &'a Rounds,
    bundles: &[Timed],
) -> Result<SheetLink<'a, W>, AllocError> {
    let alloc = rt.alloc();
    let mut turns: Vec<Option<Bytes>> = Vec::with_capacity(alloc, bundles.len())?;
    let mut moments = Vec::with_capacity(alloc, bundles.len())?;
    for bundle in bundles {
        let packet = bundle.packet.as_slice();
        if packet.len() <= MAX_DATAGRAM {
            turns.push(Some(Bytes::copied(alloc, packet)?))?;
            moments.push(bundle.tag)?;
        }
    }
    let link = MemoryLink::open(turns, Vec::new(alloc));
    Ok(TimedLink::new(rt, threads, rounds, link, moments))
}

/// Prints what still waits, and how much was sent; and reports how late the latest moment was, and
/// how it ended.
fn finish(
    rt: &HostRuntime,
    playing: &Playing,
    program: (Look, &[Timed]),
    performed: &Performed,
) -> Result<(), AllocError> {
    let (look, bundles) = program;
    let recording = performed.recording.as_slice();
    if recording.len() <= MAX_RECORDING as usize {
        print_end(rt, look, recording)?;
        if let Some(latest) = latest_of(recording, bundles) {
            report_latest(rt, latest);
        }
    }
    report_played(rt, performed.ended);
    if let Some(file) = &playing.file {
        report_kept(rt, file, recording.len(), performed.ended);
    }
    Ok(())
}

/// Prints the lines with which `oscstage show` ends.
fn print_end(rt: &HostRuntime, look: Look, recording: &[u8]) -> Result<(), AllocError>
    requires { length recording.now ≤ max_recording }
{
    let Ok(mut unread) = Unread::open(recording) else {
        return Ok(());
    };
    let options = Options::all(look, false);
    let mut reporter = Reporter::open(rt.alloc(), options, Late::Deliver);
    let mut text = Vec::new(rt.alloc());
    // Each stretch but the last has a byte.
    for _ in 0..=recording.len() {
        text.clear();
        match reporter.show(&mut text, &mut unread) {
            Ok(Shown::Stretch) => {}
            Ok(_) => break,
            Err(ShowFault::NoMemory) => return Err(AllocError),
            Err(ShowFault::Disagrees { .. }) => return Ok(()),
        }
    }
    text.clear();
    reporter.end(&mut text)?;
    write_text(DONE, &text, &mut StdSink::open(rt));
    Ok(())
}

/// How long after its moment the latest bundle was called, in a time tag's units, if one was. Each
/// is a unit, in their order.
fn latest_of(recording: &[u8], bundles: &[Timed]) -> Option<u64>
    requires { length recording.now ≤ max_recording }
{
    let Ok(mut unread) = Unread::open(recording) else {
        return None;
    };
    let mut clock = 0;
    let mut latest = None;
    // Each entry has a byte.
    for _ in 0..recording.len() {
        let Ok(Some(entry)) = unread.next_entry() else {
            break;
        };
        match (entry.event, entry.answer) {
            (Event::Tick(moment), Answer::Ticked) => clock = moment,
            (_, Answer::Released { unit, .. }) => {
                let tag = bundles.get(unit as usize).map(|bundle| bundle.tag);
                latest = latest.max(tag.map(|tag| clock.saturating_sub(tag)));
            }
            _ => {}
        }
    }
    latest
}
