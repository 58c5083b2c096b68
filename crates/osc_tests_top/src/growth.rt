// A recording that is written while its links are served.
use crate::live::{ADD, FADER, await_count, words};
use osc_atoms::Bytes;
use osc_edge::{MemoryClock, MemoryLink, MemorySink, MemorySource, Put, Sink, SteadySink};
use osc_lanes::Gate;
use osc_method::{Method, Trace};
use osc_top::live_top;
use std::alloc::{AllocError, Global};
use std::sync::atomic::{AtomicU64, Ordering};
use std::sync::{Arc, Wait};
use std::test::*;
use std::thread::Threads;
use std::time::{Duration, Instant};

/// How many datagrams a link has here at most.
const DATAGRAMS: u64 = 5;

/// How many bytes a box is told of the fader's call: its unit, index and length, and the message.
const CALL_SIZE: u32 = 36;

/// More calls than the sink of such a run gets: it has one for each entry at most.
const CALLS: u32 = 64;

/// How often something has been done.
type Count = Arc<AtomicU64, Global>;

/// Holds each datagram until as many were given as came before it.
#[derive(Drop)]
struct HoldEach {
    given: Count,
    late: AtomicU64,
}

impl Gate for HoldEach {
    fn enter(&self, _link: u32, datagram: u32) {
        await_count(
            &self.given,
            u64::from(datagram.saturating_sub(1)),
            &self.late,
        );
    }

    fn leave(&self, _link: u32, _datagram: u32) {}
}

/// A sink in memory that counts how often it is given the fader's packet, or fails.
#[derive(Drop)]
struct WatchedSink {
    bytes: MemorySink,
    given: Count,
}

impl Sink for WatchedSink {
    ghost use Rattle.std.specs.Prelude.{◌≡◌, None};
    ghost use Rattle.osc_edge.specs.Sink.{IsTookWithin, AddsToEnd, HasWriteCause};

    ghost held = { λ _. None };

    ghost faults = { λ s. ⟦<MemorySink as Sink>⟧.faults s.bytes };

    fn write(&mut self, piece: &[u8]) -> Put
        ensures within { IsTookWithin result piece.now }
        ensures bytes { AddsToEnd None None result piece.now }
        ensures cause { HasWriteCause (⟦<MemorySink as Sink>⟧.faults self.old.bytes)
            (⟦<MemorySink as Sink>⟧.faults self.new.bytes) result }
    {
        let put = self.bytes.write(piece);
        if put == Put::Failed {
            // It is given nothing more, so that nobody waits for it.
            self.given.fetch_add(DATAGRAMS, Ordering::SeqCst);
        } else {
            count_faders(piece, &self.given);
        }
        put
    }
}

/// Counts how often the fader's packet stands in the bytes.
fn count_faders(bytes: &[u8], count: &AtomicU64) {
    for at in 0..bytes.len() {
        if bytes[at..].starts_with(FADER) {
            count.fetch_add(1, Ordering::SeqCst);
        }
    }
}

/// What a run leaves whose link has the fader's packet again and again.
#[derive(Drop)]
struct Served {
    status: u8,
    is_printed: bool,
    is_recorded: bool,
    /// How many bytes the method's box was told.
    told: Option<u32>,
    /// Whether a packet was played before those before it were given to the recording's sink.
    gave_up: bool,
}

/// A link that has the fader's packet five times.
fn five_faders(alloc: Global) -> Result<MemoryLink, AllocError> {
    let mut turns = Vec::new(alloc);
    turns.push(Some(Bytes::copied(alloc, FADER)?))?;
    turns.push(Some(Bytes::copied(alloc, FADER)?))?;
    turns.push(Some(Bytes::copied(alloc, FADER)?))?;
    turns.push(Some(Bytes::copied(alloc, FADER)?))?;
    turns.push(Some(Bytes::copied(alloc, FADER)?))?;
    Ok(MemoryLink::open(turns, Vec::new(alloc)))
}

/// How many bytes the first box was told.
fn told(heard: &[(u32, Box<dyn Method + Send>)]) -> Option<u32> {
    let (_, method) = heard.first()?;
    method.told()
}

/// Serves the link, and holds each datagram back until the recording's sink was given those before it, or has failed. The
/// sink fails at this call.
fn serve_watched<R: Threads + Wait + Sync>(
    rt: &R,
    alloc: Global,
    fails: u32,
) -> Result<Served, Fail> {
    let given = Arc::new(alloc, AtomicU64::new(0))?;
    let gate = HoldEach {
        given: Arc::try_clone(&given)?,
        late: AtomicU64::new(0),
    };
    let mut rec = WatchedSink {
        bytes: MemorySink::open(alloc, Vec::from_array(alloc, [fails])?),
        given,
    };
    let mut links = Vec::with_capacity(alloc, 1)?;
    links.push_reserved(five_faders(alloc)?);
    let mut clock = MemoryClock::open(Vec::from_array(alloc, [5])?, Vec::new(alloc));
    let script = Vec::from_slice(alloc, ADD)?;
    let mut source = MemorySource::open(script, Vec::new(alloc));
    let mut out = SteadySink::open(alloc);
    let mut bank: Vec<Box<dyn Method + Send>> = Vec::new(alloc);
    bank.push(Box::new(alloc, Trace::open(alloc, 1024)?)?)?;
    let words = words(alloc, "serve f")?;
    let (ended, _links) = live_top(
        rt,
        alloc,
        &words,
        &mut source,
        &mut out,
        &mut rec,
        links,
        &mut clock,
        bank,
        &gate,
    );
    Ok(Served {
        status: ended.status,
        is_printed: !out.bytes().is_empty(),
        is_recorded: !rec.bytes.bytes().is_empty(),
        told: told(&ended.heard),
        gave_up: gate.late.load(Ordering::SeqCst) == 1,
    })
}

#[test]
fn each_datagram_is_recorded_before_the_next_is_played(rt: HostRuntime) -> Result<(), Fail> {
    let alloc = rt.alloc();
    // How many calls a run makes depends on when it looks: they fail one by one, until a run has no such call.
    for call in 1..CALLS {
        // A writer that isn't woken looks once a second, so that five datagrams would take four.
        let start = Instant::now(&rt).ok().ok_or("a clock")?;
        let served = serve_watched(&rt, alloc, call)?;
        let time = start.elapsed(&rt).ok().ok_or("a clock")?;
        assert!(rt; !served.gave_up && time < Duration::from_secs(3), "{call}");
        assert_eq!(rt; served.told, Some(5 * CALL_SIZE), "{call}");
        if served.status == 0 {
            // The entries of each datagram come in a call of their own.
            assert!(rt;
                call > 5 && served.is_printed && served.is_recorded,
                "{call}"
            );
            return Ok(());
        }
        // What failed gets no more, and the show goes on.
        assert_eq!(rt; served.status, 5, "{call}");
        assert!(rt;
            !served.is_printed && served.is_recorded == (call > 1),
            "{call}"
        );
    }
    Err("a run with so many calls")?
}
