// Links whose datagrams are shown.
use jiff_core::Offset;
use osc_atoms::Room;
use osc_console::{
    Agenda, Calendar, Changeover, Chore, ConsoleGate, MeteredSink, Pace, Printer, RingSink, Rounds,
    Sender, ShownLink, Shutdown, ShutdownLink, Slot, TimedLink, View, WaitingClock, Watch,
    print_while,
};
use osc_core::Submitted;
use osc_edge::{Clock, Datagram, Link, MAX_DATAGRAM, MemoryClock, MemorySink, Put, Sink};
use osc_life::Gate;
use osc_live::Submission;
use osc_model::Late;
use osc_packet::{MAX_PACKET, Packet};
use osc_pattern::Address;
use osc_shown::{Look, Route, WallClock};
use rtrb::{Consumer, RingBuffer};
use std::alloc::{AllocError, Global};
use std::net::{Ipv4Addr, SocketAddrV4};
use std::sync::Wait;
use std::test::*;

/// A controller's fader, at a half.
const FADER: &[u8] = b"/1/fader1\0\0\0,f\0\0\x3f\0\0\0";

/// How the fader's line begins a second after the clocks of time tags began, up to the mark, and
/// what follows that up to the tail.
const TIME: &[u8] = b"00:00:01.000 ";

const FADER_WORDS: &[u8] = b"  /1/fader1 0.5                   ";

/// A second after the beginning, as a time tag.
const MOMENT: u64 = 1 << 32;

/// The fader in a bundle for two seconds after the clocks of time tags began.
const TIMED_FADER: &[u8] = b"#bundle\0\0\0\0\x02\0\0\0\0\0\0\0\x14/1/fader1\0\0\0,f\0\0\x3f\0\0\0";

/// The line before the first of a day.
const DAY: &[u8] = b"-- Monday 1900-01-01, UTC\n";

/// A link that gives a datagram so many times, and then ends.
#[derive(Drop)]
struct Faders {
    datagram: &'static [u8],
    left: u32,
}

impl Faders {
    /// Gives the fader.
    fn new(left: u32) -> Faders {
        Faders {
            datagram: FADER,
            left,
        }
    }
}

impl Sender for Faders {
    fn sender(&self) -> Option<SocketAddrV4> {
        Some(SocketAddrV4::new(Ipv4Addr::new(10, 0, 0, 9), 51234))
    }
}

impl Link for Faders {
    ghost use Rattle.std.specs.Prelude.{None};

    ghost left = { λ _. None };

    ghost faults = { λ _. 0 };

    ghost quiets = { λ _. 0 };

    fn next(&mut self, into: &mut [u8]) -> Datagram {
        let size = self.datagram.len();
        if self.left == 0 || into.len() < size {
            return Datagram::End;
        }
        self.left -= 1;
        into[..size].copy_from_slice(self.datagram);
        Datagram::Got(size)
    }
}

/// A method at the fader's address that sends nothing.
fn routes(alloc: Global) -> Result<Vec<Route>, Fail> {
    let mut routes = Vec::new(alloc);
    let address = Address::read(alloc, b"/1/fader1").ok().ok_or("an address")?;
    routes.push(Route {
        address,
        to: Vec::new(alloc),
    })?;
    Ok(routes)
}

fn view(routes: &[Route], quiet: bool) -> View<'_> {
    View {
        look: Look {
            clock: WallClock::at(Offset::UTC),
            since: None,
            caller: None,
            whole: false,
            colours: false,
            quiet,
        },
        late: Late::Discard,
        routes,
    }
}

fn clock(alloc: Global) -> Result<MemoryClock, AllocError> {
    Ok(MemoryClock::open(Vec::from_array(alloc, [MOMENT])?, Vec::new(alloc)))
}

/// All that comes out of the ring.
fn printed(alloc: Global, ring: &mut Consumer<u8, Global>) -> Result<Vec<u8>, AllocError> {
    let mut bytes = vec![in alloc; 0; 65_536]?;
    let count = ring.pop_partial_slice(&mut bytes);
    bytes.truncate(count);
    Ok(bytes)
}

/// What the link gives next.
fn give<L: Link>(alloc: Global, link: &mut L) -> Result<Datagram, AllocError> {
    let mut space = vec![in alloc; 0; MAX_DATAGRAM]?;
    Ok(link.next(&mut space))
}

/// What is printed of a fader to which this was answered.
fn shown<W: Wait>(rt: &W, alloc: Global, answer: Submitted, quiet: bool) -> Result<Vec<u8>, Fail> {
    let routes = routes(alloc)?;
    let (rounds, printer) = (Rounds::new(), Printer::new());
    let (pace, calendar) = (Pace::new(50), Calendar::new(alloc));
    let slots = [Slot::new()];
    let gate = ConsoleGate::new(&rounds, &slots);
    let (producer, mut ring) = RingBuffer::new(alloc, 4_096)?;
    let watch = Watch {
        threads: rt,
        rounds: &rounds,
        slot: &slots[0],
        pace: &pace,
        calendar: &calendar,
    };
    let out = RingSink::new(producer, &printer);
    let link = Faders::new(1);
    let mut link = ShownLink::open(alloc, link, clock(alloc)?, out, view(&routes, quiet), watch)?;
    let _ = give(alloc, &mut link)?;
    gate.answered(0, 1, &Submission { answer, clock: 1 });
    link.finish();
    Ok(printed(alloc, &mut ring)?)
}

/// The fader's line with this mark and this tail, after that of its day.
fn line(alloc: Global, mark: u8, tail: &[u8]) -> Result<Vec<u8>, AllocError> {
    let mut line = Vec::from_slice(alloc, DAY)?;
    line.extend_from_slice(TIME)?;
    line.push(mark)?;
    line.extend_from_slice(FADER_WORDS)?;
    line.extend_from_slice(tail)?;
    Ok(line)
}

#[test]
fn a_datagram_is_shown_with_the_servers_answer(rt: HostRuntime) -> Result<(), Fail> {
    let alloc = rt.alloc();
    let queued = Submitted::Queued {
        first: 0,
        count: 1,
        late: 0,
    };
    let played = line(alloc, b' ', b"from 10.0.0.9:51234\n")?;
    assert_eq!(rt;
        shown(&rt, alloc, queued, false)?.as_slice(),
        played.as_slice()
    );
    assert!(rt; shown(&rt, alloc, queued, true)?.is_empty());
    let full = Submitted::UnitsFull(Room::new(1, 0));
    let refused = line(
        alloc,
        b'!',
        b"refused, the queue is full, from 10.0.0.9:51234\n",
    )?;
    assert_eq!(rt;
        shown(&rt, alloc, full, false)?.as_slice(),
        refused.as_slice()
    );
    assert_eq!(rt;
        shown(&rt, alloc, full, true)?.as_slice(),
        refused.as_slice()
    );
    Ok(())
}

/// Has the ticker play a round at the present.
fn play_round<W: Wait>(rt: &HostRuntime, threads: &W, rounds: &Rounds) {
    let changeover = Changeover::at(u64::MAX);
    let mut ticker = WaitingClock::open(rt, threads, rounds, &changeover);
    let _ = ticker.now();
    ticker.until(Some(0));
}

/// What is printed of a bundle that waits: before the ticker has played a round at its time tag,
/// and after that.
fn shown_twice<W: Wait>(rt: &HostRuntime, threads: &W) -> Result<(Vec<u8>, Vec<u8>), Fail> {
    let alloc = rt.alloc();
    let routes = routes(alloc)?;
    let (rounds, printer) = (Rounds::new(), Printer::new());
    let (pace, calendar) = (Pace::new(50), Calendar::new(alloc));
    let slots = [Slot::new()];
    let gate = ConsoleGate::new(&rounds, &slots);
    let (producer, mut ring) = RingBuffer::new(alloc, 4_096)?;
    let watch = Watch {
        threads,
        rounds: &rounds,
        slot: &slots[0],
        pace: &pace,
        calendar: &calendar,
    };
    let out = RingSink::new(producer, &printer);
    let link = Faders {
        datagram: TIMED_FADER,
        left: 1,
    };
    let mut link = ShownLink::open(alloc, link, clock(alloc)?, out, view(&routes, false), watch)?;
    let _ = give(alloc, &mut link)?;
    let answer = Submitted::Queued {
        first: 0,
        count: 1,
        late: 0,
    };
    gate.answered(0, 1, &Submission { answer, clock: 1 });
    link.finish();
    let waits = printed(alloc, &mut ring)?;
    play_round(rt, threads, &rounds);
    link.finish();
    Ok((waits, printed(alloc, &mut ring)?))
}

#[test]
fn a_bundle_that_waits_is_shown_again_when_it_is_called(rt: HostRuntime) -> Result<(), Fail> {
    let alloc = rt.alloc();
    let (waits, called) = shown_twice(&rt, &rt)?;
    let first = line(
        alloc,
        b'~',
        b"for 00:00:02.000, in 1.000 s, from 10.0.0.9:51234\n",
    )?;
    assert_eq!(rt; waits.as_slice(), first.as_slice());
    assert!(rt; called.starts_with(b"-- "));
    assert!(rt; called.ends_with(b"   /1/fader1 0.5                   from 10.0.0.9:51234\n"));
    Ok(())
}

/// What a link of 400 faders does over a ring that nobody reads and that has room for some forty
/// lines: how many it gave, and what comes out of the ring then, and at the next line.
fn give_unread<W: Wait>(rt: &W, alloc: Global) -> Result<(u32, Vec<u8>, Vec<u8>), Fail> {
    let routes = routes(alloc)?;
    let (rounds, printer) = (Rounds::new(), Printer::new());
    let (pace, calendar) = (Pace::new(50), Calendar::new(alloc));
    let slots = [Slot::new()];
    let gate = ConsoleGate::new(&rounds, &slots);
    let (producer, mut ring) = RingBuffer::new(alloc, 4_096)?;
    let watch = Watch {
        threads: rt,
        rounds: &rounds,
        slot: &slots[0],
        pace: &pace,
        calendar: &calendar,
    };
    let out = RingSink::new(producer, &printer);
    let link = Faders::new(400);
    let mut link = ShownLink::open(alloc, link, clock(alloc)?, out, view(&routes, false), watch)?;
    let answer = Submitted::RecordFull(Room::new(72, 0));
    let mut given = 0u32;
    for _ in 0..401u32 {
        if let Datagram::Got(_) = give(alloc, &mut link)? {
            given = given.saturating_add(1);
            gate.answered(0, given, &Submission { answer, clock: 1 });
        }
        if given == 399 {
            break;
        }
    }
    let before = printed(alloc, &mut ring)?;
    let _ = give(alloc, &mut link)?;
    link.finish();
    Ok((given, before, printed(alloc, &mut ring)?))
}

#[test]
fn nobody_who_reads_holds_no_link(rt: HostRuntime) -> Result<(), Fail> {
    let (given, before, after) = give_unread(&rt, rt.alloc())?;
    assert_eq!(rt; given, 399);
    assert!(rt; before.starts_with(b"-- Monday 1900-01-01, UTC\n00:00:01.000 !  /1/fader1 0.5"));
    assert!(rt; before.ends_with(b"from 10.0.0.9:51234\n"));
    assert!(rt; after.starts_with(b"-- 3"));
    Ok(())
}

#[test]
fn a_show_that_is_changed_over_or_ended_ends_its_links(rt: HostRuntime) -> Result<(), Fail> {
    let (shutdown, changeover, slot) = (Shutdown::new(), Changeover::at(8), Slot::new());
    let mut link = ShutdownLink::open(rt.alloc(), Faders::new(10), &shutdown, &changeover, &slot)?;
    assert_eq!(rt; give(rt.alloc(), &mut link)?, Datagram::Got(FADER.len()));
    let memory = MemorySink::open(rt.alloc(), Vec::new(rt.alloc()));
    let mut sink = MeteredSink::new(memory, &changeover);
    assert_eq!(rt; sink.write(b"12345678"), Put::Took(8));
    assert_eq!(rt; give(rt.alloc(), &mut link)?, Datagram::End);
    changeover.begin();
    assert_eq!(rt; give(rt.alloc(), &mut link)?, Datagram::Got(FADER.len()));
    shutdown.ask();
    assert!(rt; shutdown.is_asked());
    assert_eq!(rt; give(rt.alloc(), &mut link)?, Datagram::End);
    Ok(())
}

#[test]
fn a_datagram_without_room_comes_once_more(rt: HostRuntime) -> Result<(), Fail> {
    let (shutdown, changeover, rounds) = (Shutdown::new(), Changeover::at(8), Rounds::new());
    let slots = [Slot::new()];
    let gate = ConsoleGate::new(&rounds, &slots);
    let link = Faders::new(1);
    let mut link = ShutdownLink::open(rt.alloc(), link, &shutdown, &changeover, &slots[0])?;
    let mut space = vec![in rt.alloc(); 0; MAX_DATAGRAM]?;
    assert_eq!(rt; link.next(&mut space), Datagram::Got(FADER.len()));
    let answer = Submitted::RecordFull(Room::new(1, 0));
    gate.answered(0, 1, &Submission { answer, clock: 1 });
    space.fill(0);
    assert_eq!(rt; link.next(&mut space), Datagram::Got(FADER.len()));
    assert!(rt; space.starts_with(FADER));
    assert_eq!(rt; link.next(&mut space), Datagram::End);
    Ok(())
}

/// Counts how often it is run.
#[derive(Drop)]
struct Counter {
    runs: u32,
}

impl Chore for Counter {
    fn run(&mut self) {
        self.runs = self.runs.saturating_add(1);
    }
}

#[test]
fn what_is_left_is_printed_at_the_end(rt: HostRuntime) -> Result<(), Fail> {
    let alloc = rt.alloc();
    let printer = Printer::new();
    let (mut producer, ring) = RingBuffer::new(alloc, 64)?;
    assert!(rt; producer.push_entire_slice(b"the last line\n").is_ok());
    printer.end();
    let mut rings = Vec::new(alloc);
    rings.push(ring)?;
    let mut out = MemorySink::open(alloc, Vec::new(alloc));
    let mut chore = Counter { runs: 0 };
    assert!(rt; print_while(&rt, &printer, &mut rings, &mut out, &mut chore));
    assert_eq!(rt; out.bytes(), b"the last line\n".as_slice());
    assert_eq!(rt; chore.runs, 0);
    Ok(())
}

#[test]
fn a_line_that_is_not_taken_is_told(rt: HostRuntime) -> Result<(), Fail> {
    let alloc = rt.alloc();
    let printer = Printer::new();
    let (mut producer, ring) = RingBuffer::new(alloc, 64)?;
    assert!(rt; producer.push_entire_slice(b"the last line\n").is_ok());
    printer.end();
    let mut rings = Vec::new(alloc);
    rings.push(ring)?;
    let mut fails = Vec::new(alloc);
    fails.push(1)?;
    let mut out = MemorySink::open(alloc, fails);
    let mut chore = Counter { runs: 0 };
    assert!(rt; !print_while(&rt, &printer, &mut rings, &mut out, &mut chore));
    Ok(())
}

#[test]
fn a_datagram_whose_moment_is_over_comes_at_once(rt: HostRuntime) -> Result<(), Fail> {
    let alloc = rt.alloc();
    let rounds = Rounds::new();
    let mut moments = Vec::new(alloc);
    moments.push(MOMENT)?;
    let mut link = TimedLink::new(&rt, &rt, &rounds, Faders::new(1), moments);
    assert_eq!(rt; give(alloc, &mut link)?, Datagram::Got(FADER.len()));
    assert_eq!(rt; give(alloc, &mut link)?, Datagram::End);
    Ok(())
}

#[test]
fn what_waited_before_the_show_is_shown_when_it_is_called(rt: HostRuntime) -> Result<(), Fail> {
    let alloc = rt.alloc();
    let mut agenda = Agenda::new(alloc);
    agenda.expect(
        &Packet::check(TIMED_FADER, MAX_PACKET)
            .ok()
            .ok_or("a packet")?,
    )?;
    let routes = routes(alloc)?;
    let mut text = Vec::new(alloc);
    agenda.called_lines(&mut text, view(&routes, false), (2 << 32) - 1)?;
    assert!(rt; text.is_empty());
    agenda.called_lines(&mut text, view(&routes, false), 2 << 32)?;
    assert_eq!(rt;
        text.as_slice(),
        b"00:00:02.000    /1/fader1 0.5\n".as_slice()
    );
    Ok(())
}
