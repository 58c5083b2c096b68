// What a gate is told of the submits of a link, and of what the ticker releases.
use crate::callers::enrolled;
use osc_atoms::{Bytes, Room};
use osc_core::Submitted;
use osc_edge::{MemoryClock, MemoryLink};
use osc_lanes::Gate;
use osc_links::{Bounds, ServeEnd, serve};
use osc_live::{Live, Submission};
use osc_method::Mute;
use osc_record::{Caps, Late};
use std::alloc::{AllocError, Global};
use std::sync::Wait;
use std::sync::atomic::{AtomicU64, Ordering};
use std::test::*;
use std::thread::Threads;

/// A message, due at once.
const NOW: &[u8] = b"/a\0\0,i\0\0\0\0\0\x07";

/// The message in a bundle for a moment in 2036.
const AHEAD: &[u8] = b"#bundle\0\xff\xff\0\0\0\0\0\0\0\0\0\x0c/a\0\0,i\0\0\0\0\0\x07";

/// A gate that compares what it is told with what it is to be told.
#[derive(Drop)]
struct Answers {
    /// Worker, step and answer of each submit, in order.
    wanted: Vec<(u32, u32, Submitted)>,
    answers: AtomicU64,
    others: AtomicU64,
    released: AtomicU64,
}

impl Answers {
    fn wanted(wanted: Vec<(u32, u32, Submitted)>) -> Answers {
        Answers {
            wanted,
            answers: AtomicU64::new(0),
            others: AtomicU64::new(0),
            released: AtomicU64::new(0),
        }
    }

    /// How many answers were reported, how many of them weren't as wanted, and how many units were released.
    fn told(&self) -> (u64, u64, u64) {
        (
            self.answers.load(Ordering::SeqCst),
            self.others.load(Ordering::SeqCst),
            self.released.load(Ordering::SeqCst),
        )
    }
}

impl Gate for Answers {
    fn enter(&self, _worker: u32, _step: u32) {}

    fn answered(&self, worker: u32, step: u32, submission: &Submission) {
        let at = self.answers.fetch_add(1, Ordering::SeqCst);
        let Submission { answer, clock } = *submission;
        // The ticker hands in the moment 5 before or after.
        let is_known = clock == 1 || clock == 5;
        if !is_known || self.wanted.get(at as usize) != Some(&(worker, step, answer)) {
            self.others.fetch_add(1, Ordering::SeqCst);
        }
    }

    fn leave(&self, _worker: u32, _step: u32) {}

    fn released(&self, units: u32) {
        self.released.fetch_add(u64::from(units), Ordering::SeqCst);
    }
}

/// A link that has the bundle three times, and four bytes that are no packet after the first.
fn link_ahead(alloc: Global) -> Result<MemoryLink, AllocError> {
    let mut turns = Vec::new(alloc);
    turns.push(Some(Bytes::copied(alloc, AHEAD)?))?;
    turns.push(Some(Bytes::copied(alloc, b"/abc")?))?;
    turns.push(Some(Bytes::copied(alloc, AHEAD)?))?;
    turns.push(Some(Bytes::copied(alloc, AHEAD)?))?;
    Ok(MemoryLink::open(turns, Vec::new(alloc)))
}

/// A link that has the message.
fn link_now(alloc: Global) -> Result<MemoryLink, AllocError> {
    let mut turns = Vec::new(alloc);
    turns.push(Some(Bytes::copied(alloc, NOW)?))?;
    Ok(MemoryLink::open(turns, Vec::new(alloc)))
}

/// Serves the link on a server where two units may wait.
fn serve_one<R: Threads + Wait + Sync>(
    rt: &R,
    alloc: Global,
    link: MemoryLink,
    gate: &Answers,
) -> Result<ServeEnd<MemoryLink>, Fail> {
    let caps = Caps::new(2, 8, 8, 8, 4, 4096, Late::Deliver)
        .ok()
        .ok_or("limits")?;
    let (live, first) = Live::<Mute>::open(alloc, caps)?;
    let (first, one) = enrolled(rt, &live, first)?;
    let (_, ticker) = enrolled(rt, &live, first)?;
    let mut callers = Vec::with_capacity(alloc, 2)?;
    callers.push_reserved(one);
    callers.push_reserved(ticker);
    let mut links = Vec::with_capacity(alloc, 1)?;
    links.push_reserved(link);
    let mut clock = MemoryClock::open(Vec::from_array(alloc, [5])?, Vec::new(alloc));
    let bounds = Bounds { count: 8, idle: 2 };
    let end = serve(rt, alloc, &live, callers, links, &mut clock, bounds, gate)?;
    Ok(end)
}

#[test]
fn a_gate_is_told_what_was_answered_and_released(rt: HostRuntime) -> Result<(), Fail> {
    let alloc = rt.alloc();
    let first = Submitted::Queued {
        first: 0,
        count: 1,
        late: 0,
    };
    let second = Submitted::Queued {
        first: 1,
        count: 1,
        late: 0,
    };
    let mut wanted = Vec::new(alloc);
    wanted.push((0, 1, first))?;
    wanted.push((0, 3, second))?;
    wanted.push((0, 4, Submitted::UnitsFull(Room::new(1, 0))))?;
    let gate = Answers::wanted(wanted);
    let end = serve_one(&rt, alloc, link_ahead(alloc)?, &gate)?;
    assert_eq!(rt; gate.told(), (3, 0, 0));
    assert_eq!(rt; end.faults.len(), 1);
    let mut wanted = Vec::new(alloc);
    wanted.push((0, 1, first))?;
    let gate = Answers::wanted(wanted);
    let end = serve_one(&rt, alloc, link_now(alloc)?, &gate)?;
    assert_eq!(rt; gate.told(), (1, 0, 1));
    assert!(rt; end.faults.is_empty());
    Ok(())
}
