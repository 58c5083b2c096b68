// Lanes that are played at once, and links that are served, over sources, sinks, links and a clock in memory.
use osc_atoms::Bytes;
use osc_edge::{
    Clock, Datagram, Link, MAX_DATAGRAM, MemoryClock, MemoryLink, MemorySink, MemorySource, Moment,
};
use osc_lanes::{Gate, OpenGate};
use osc_method::{Method, Trace};
use osc_top::{live_top, ports};
use std::alloc::{AllocError, Global};
use std::sync::Wait;
use std::sync::atomic::{AtomicU64, Ordering};
use std::test::Fail;
use std::thread;
use std::thread::Threads;

/// A controller's fader, at a half.
pub(crate) const FADER: &[u8] = b"/1/fader1\0\0\0,f\0\0\x3f\0\0\0";

pub(crate) const ADD: &[u8] = b"add /1/fader1\n";

/// At which of its calls, counted from 1, the source fails, the sink of the text, that of the recording, each link and the
/// clock; 0 where it doesn't.
type Failing = [u32; 6];

const NONE: Failing = [0; 6];

/// What the program came to.
#[derive(Drop)]
struct Outcome {
    status: u8,
    written: Vec<u8>,
    recorded: Vec<u8>,
    /// How many boxes have an id, and how many are left.
    boxes: (usize, usize),
    /// What each link answers then, and the clock.
    next: Vec<Datagram>,
    moment: Moment,
}

/// The words of a line.
pub(crate) fn words(alloc: Global, line: &str) -> Result<Vec<String>, AllocError> {
    let mut words = Vec::new(alloc);
    for word in line.split_whitespace() {
        words.push(String::from_str(alloc, word)?)?;
    }
    Ok(words)
}

/// A link that has the fader's packet, and 30 bytes that are no packet.
fn first_link(alloc: Global, fails: u32) -> Result<MemoryLink, AllocError> {
    let mut turns = Vec::new(alloc);
    turns.push(Some(Bytes::copied(alloc, FADER)?))?;
    turns.push(Some(Bytes::copied(alloc, &[0; 30])?))?;
    Ok(MemoryLink::open(turns, Vec::from_array(alloc, [fails])?))
}

/// A link that isn't ready three times, and then has the fader's packet.
fn second_link(alloc: Global, fails: u32) -> Result<MemoryLink, AllocError> {
    let mut turns = Vec::new(alloc);
    turns.push(None)?;
    turns.push(None)?;
    turns.push(None)?;
    turns.push(Some(Bytes::copied(alloc, FADER)?))?;
    Ok(MemoryLink::open(turns, Vec::from_array(alloc, [fails])?))
}

/// What each of the links answers next.
fn answers(alloc: Global, links: Vec<MemoryLink>) -> Result<Vec<Datagram>, AllocError> {
    let mut answers = Vec::new(alloc);
    for mut link in links {
        let mut into = vec![in alloc; 0u8; MAX_DATAGRAM]?;
        answers.push(link.next(&mut into))?;
    }
    Ok(answers)
}

/// Does what the words say with the script, with a second link where they name two, and a clock that tells 5 and then
/// 7.
fn perform<R: Threads + Wait + Sync, G: Gate + Sync>(
    rt: &R,
    alloc: Global,
    line: &str,
    script: &[u8],
    boxes: usize,
    failing: Failing,
    gate: &G,
) -> Result<Outcome, Fail> {
    let [source, sink, recording, first, second, clock] = failing;
    let words = words(alloc, line)?;
    let mut links = Vec::with_capacity(alloc, 2)?;
    links.push_reserved(first_link(alloc, first)?);
    if ports(alloc, &words)?.len() == 2 {
        links.push_reserved(second_link(alloc, second)?);
    }
    let moments = Vec::from_array(alloc, [5, 7])?;
    let mut clock = MemoryClock::open(moments, Vec::from_array(alloc, [clock])?);
    let script = Vec::from_slice(alloc, script)?;
    let mut source = MemorySource::open(script, Vec::from_array(alloc, [source])?);
    let mut out = MemorySink::open(alloc, Vec::from_array(alloc, [sink])?);
    let mut rec = MemorySink::open(alloc, Vec::from_array(alloc, [recording])?);
    let mut bank: Vec<Box<dyn Method + Send>> = Vec::new(alloc);
    for _ in 0..boxes {
        bank.push(Box::new(alloc, Trace::open(alloc, 64)?)?)?;
    }
    let (ended, links) = live_top(
        rt,
        alloc,
        &words,
        &mut source,
        &mut out,
        &mut rec,
        links,
        &mut clock,
        bank,
        gate,
    );
    Ok(Outcome {
        status: ended.status,
        written: Vec::from_slice(alloc, out.bytes())?,
        recorded: Vec::from_slice(alloc, rec.bytes())?,
        boxes: (ended.heard.len(), ended.left.len()),
        next: answers(alloc, links)?,
        moment: clock.now(),
    })
}

/// Holds a lane before one of its lines until a step of another lane, or of the watcher, is over that began late enough:
/// at any time where `since` is 1, and once the held lane has left a line where it is 0.
#[derive(Drop)]
struct Hold {
    lane: u32,
    line: u32,
    since: AtomicU64,
    begun: AtomicU64,
    over: AtomicU64,
    late: AtomicU64,
}

impl Gate for Hold {
    fn enter(&self, lane: u32, line: u32) {
        if lane != self.lane {
            self.begun
                .store(self.since.load(Ordering::SeqCst), Ordering::SeqCst);
        } else if line == self.line {
            await_count(&self.over, 1, &self.late);
        }
    }

    fn leave(&self, lane: u32, _line: u32) {
        if lane == self.lane {
            self.since.store(1, Ordering::SeqCst);
        } else {
            self.over
                .store(self.begun.load(Ordering::SeqCst), Ordering::SeqCst);
        }
    }
}

/// Looks at the number until it is no less than the count; tells `late` where that takes too many turns.
pub(crate) fn await_count(number: &AtomicU64, count: u64, late: &AtomicU64) {
    for _ in 0..100_000_000u32 {
        if number.load(Ordering::SeqCst) >= count {
            return;
        }
        thread::yield_now();
    }
    late.store(1, Ordering::SeqCst);
}

const TWO_LANES: &[u8] = b"0 add /a\n1 send 2f610000\n0 pump\n1 send 2f620000\n";

const TWO_ADDS: &[u8] = b"0 add /b\n0 add /a\n";

/// Words, a script, the lane that is held, the line before which it is, and since when what it waits for may begin; how
/// many boxes have an id and how many are left, and the end of what is printed.
const MEETINGS: [(&str, &[u8], (u32, u32, u64), (usize, usize), &[u8]); 3] = [
    ("lanes f", TWO_LANES, (0, 1, 1), (1, 7), b"\n"),
    ("lanes f", TWO_LANES, (1, 2, 1), (1, 7), b"\n"),
    (
        "lanes --watch f",
        TWO_ADDS,
        (0, 2, 0),
        (2, 6),
        b"\nlist 2\nmethod 1 /a\nmethod 0 /b\n",
    ),
];

#[test]
fn lanes_and_a_watcher_are_at_work_at_once(rt: HostRuntime) -> Result<(), Fail> {
    for (line, script, (lane, at, since), boxes, end) in MEETINGS {
        let gate = Hold {
            lane,
            line: at,
            since: AtomicU64::new(since),
            begun: AtomicU64::new(0),
            over: AtomicU64::new(0),
            late: AtomicU64::new(0),
        };
        let outcome = perform(&rt, rt.alloc(), line, script, 8, NONE, &gate)?;
        assert_eq!(rt; gate.late.load(Ordering::SeqCst), 0, "{line}");
        assert_eq!(rt; (outcome.status, outcome.boxes), (0, boxes), "{line}");
        assert!(rt; outcome.written.ends_with(end), "{line}");
    }
    Ok(())
}

const USUAL: &[u8] = b"serve --count 2 --idle 3 f";

const TWO_LINKS: &[u8] = b"serve --links 2 --count 2 --idle 3 f";

/// What the link answers where it wasn't served: the fader's packet.
const UNSERVED: &[Datagram] = &[Datagram::Got(20)];

/// What the link answers where it was served to its end.
const SERVED: &[Datagram] = &[Datagram::End];

/// Words, a script, how many boxes there are and what fails.
type Given = (&'static [u8], &'static [u8], usize, Failing);

/// The status, the last line, how many boxes have an id and how many are left, and what the links and the clock answer
/// then.
type Left = (u8, &'static str, (usize, usize), &'static [Datagram], u64);

/// What is given, and what is left. In the first twelve nothing is served.
const ENDS: [(Given, Left); 24] = [
    (
        (b"serve --links 9 f", ADD, 8, NONE),
        (2, "usage", (0, 8), UNSERVED, 5),
    ),
    // The source is called once more after its last bytes, to find its end.
    (
        (USUAL, ADD, 8, [1, 0, 0, 0, 0, 0]),
        (4, "", (0, 8), UNSERVED, 5),
    ),
    (
        (USUAL, ADD, 8, [2, 0, 0, 0, 0, 0]),
        (4, "", (0, 8), UNSERVED, 5),
    ),
    (
        (USUAL, b"pump\n", 8, NONE),
        (1, "script 1 8", (0, 8), UNSERVED, 5),
    ),
    (
        (USUAL, ADD, 0, NONE),
        (8, "bank-short 1 0", (0, 0), UNSERVED, 5),
    ),
    (
        (b"lanes f", b"0 add /1/fader1\n", 8, NONE),
        (0, "add 1 /1/fader1 id 0", (1, 7), UNSERVED, 5),
    ),
    (
        (b"serve --recording 60 f", ADD, 8, NONE),
        (6, "recording-full 52 0", (0, 8), UNSERVED, 5),
    ),
    (
        (b"serve --recording 150 f", ADD, 8, NONE),
        (6, "recording-full 28 10", (1, 7), UNSERVED, 5),
    ),
    (
        (b"lanes f", TWO_LANES, 0, NONE),
        (8, "bank-short 1 0", (0, 0), UNSERVED, 5),
    ),
    (
        (b"lanes f", TWO_LANES, 8, [1, 0, 0, 0, 0, 0]),
        (4, "", (0, 8), UNSERVED, 5),
    ),
    // Of lanes each sink is written once, at the end, and that of the recording first.
    (
        (
            b"lanes f",
            b"0 tick 0000000000000005\n",
            8,
            [0, 0, 1, 0, 0, 0],
        ),
        (5, "", (0, 8), UNSERVED, 5),
    ),
    (
        (
            b"lanes f",
            b"0 tick 0000000000000005\n",
            8,
            [0, 1, 0, 0, 0, 0],
        ),
        (5, "", (0, 8), UNSERVED, 5),
    ),
    // The second link is idle, before its packet or not.
    (
        (TWO_LINKS, ADD, 8, NONE),
        (
            0,
            "fault link 0 datagram 2 2 30",
            (1, 7),
            &[Datagram::End, Datagram::Got(20)],
            7,
        ),
    ),
    (
        (b"serve --links 2 --idle 4 f", ADD, 8, NONE),
        (
            0,
            "fault link 0 datagram 2 2 30",
            (1, 7),
            &[Datagram::End, Datagram::End],
            7,
        ),
    ),
    // Nothing fits after the enrolments.
    (
        (b"serve --recording 168 f", ADD, 8, NONE),
        (6, "recording-full 72 0", (1, 7), &[Datagram::Got(30)], 7),
    ),
    (
        (
            b"serve --links 2 --recording 196 f",
            ADD,
            8,
            [0, 0, 0, 0, 1, 0],
        ),
        (
            7,
            "link-fault 1",
            (1, 7),
            &[Datagram::Got(30), Datagram::Quiet],
            7,
        ),
    ),
    // No edge is called so often but the link, by this test. How often the recording is written while it grows isn't
    // told.
    (
        (USUAL, ADD, 8, [3, 2, 100, 3, 0, 0]),
        (
            0,
            "fault link 0 datagram 2 2 30",
            (1, 7),
            &[Datagram::Failed],
            7,
        ),
    ),
    (
        (USUAL, ADD, 8, [0, 0, 0, 1, 0, 0]),
        (7, "link-fault 0", (1, 7), UNSERVED, 7),
    ),
    (
        (USUAL, ADD, 8, [0, 0, 0, 2, 0, 0]),
        (7, "link-fault 0", (1, 7), &[Datagram::Got(30)], 7),
    ),
    (
        (USUAL, ADD, 8, [0, 0, 0, 0, 0, 1]),
        (7, "clock-fault", (1, 7), SERVED, 5),
    ),
    (
        (USUAL, ADD, 8, [0, 0, 0, 1, 0, 1]),
        (7, "link-fault 0", (1, 7), UNSERVED, 5),
    ),
    (
        (USUAL, ADD, 8, [0, 1, 0, 1, 0, 0]),
        (5, "", (1, 7), UNSERVED, 7),
    ),
    (
        (USUAL, ADD, 8, [0, 0, 1, 1, 0, 0]),
        (5, "", (1, 7), UNSERVED, 7),
    ),
    (
        (b"serve --recording 168 f", ADD, 8, [0, 1, 0, 0, 0, 0]),
        (5, "", (1, 7), &[Datagram::Got(30)], 7),
    ),
];

#[test]
fn each_end_has_its_last_line(rt: HostRuntime) -> Result<(), Fail> {
    let alloc = rt.alloc();
    for ((line, script, boxes, failing), (status, last, shares, next, moment)) in ENDS {
        let line = str::from_utf8(line).unwrap_or("");
        let outcome = perform(&rt, alloc, line, script, boxes, failing, &OpenGate)?;
        assert_eq!(rt; outcome.status, status, "{line}");
        let text = String::from_utf8_lossy(alloc, &outcome.written)?;
        assert_eq!(rt; text.as_str().lines().last().unwrap_or(""), last, "{line}");
        assert_eq!(rt; outcome.boxes, shares, "{line}");
        assert_eq!(rt; outcome.next.as_slice(), next, "{line}");
        assert_eq!(rt; outcome.moment, Moment::At(moment), "{line}");
    }
    Ok(())
}
