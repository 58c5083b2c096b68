// Links that are served on one server, with a ticker next to them.
use crate::callers::enrolled;
use crate::hold::Hold;
use crate::parts::address;
use osc_atoms::Bytes;
use osc_edge::{MemoryClock, MemoryLink};
use osc_links::{Bounds, ServeEnd, serve};
use osc_live::Live;
use osc_method::Mute;
use osc_record::{Caps, Late};
use std::alloc::Global;
use std::sync::Wait;
use std::test::*;
use std::thread::Threads;

/// A controller's fader, at a half.
const FADER: &[u8] = b"/1/fader1\0\0\0,f\0\0\x3f\0\0\0";

/// Serves both links on a server that has a method at the fader's address, by a clock that stands still.
fn serve_both<R: Threads + Wait + Sync>(
    rt: &R,
    alloc: Global,
    first_link: MemoryLink,
    second_link: MemoryLink,
    gate: &Hold,
) -> Result<ServeEnd<MemoryLink>, Fail> {
    let caps = Caps::new(8, 8, 8, 8, 4, 4096, Late::Deliver)
        .ok()
        .ok_or("limits")?;
    let (live, first) = Live::open(alloc, caps)?;
    let (first, one) = enrolled(rt, &live, first)?;
    let (first, two) = enrolled(rt, &live, first)?;
    let (first, ticker) = enrolled(rt, &live, first)?;
    let (_, _) = live.add(rt, first, address(alloc, b"/1/fader1")?, Mute);
    let mut callers = Vec::with_capacity(alloc, 3)?;
    callers.push_reserved(one);
    callers.push_reserved(two);
    callers.push_reserved(ticker);
    let mut links = Vec::with_capacity(alloc, 2)?;
    links.push_reserved(first_link);
    links.push_reserved(second_link);
    let mut clock = MemoryClock::open(Vec::from_array(alloc, [5])?, Vec::new(alloc));
    let bounds = Bounds { count: 8, idle: 2 };
    let end = serve(rt, alloc, &live, callers, links, &mut clock, bounds, gate)?;
    Ok(end)
}

/// A link that has the fader's packet.
fn once(alloc: Global) -> Result<MemoryLink, Fail> {
    let mut turns = Vec::new(alloc);
    turns.push(Some(Bytes::copied(alloc, FADER)?))?;
    Ok(MemoryLink::open(turns, Vec::new(alloc)))
}

/// A link that has the fader's packet twice.
fn twice(alloc: Global) -> Result<MemoryLink, Fail> {
    let mut turns = Vec::new(alloc);
    turns.push(Some(Bytes::copied(alloc, FADER)?))?;
    turns.push(Some(Bytes::copied(alloc, FADER)?))?;
    Ok(MemoryLink::open(turns, Vec::new(alloc)))
}

/// Whether no step was held for too long, and all was served.
fn is_served(end: &ServeEnd<MemoryLink>, gate: &Hold) -> bool {
    let is_sound = end.faults.is_empty() && !end.clock_failed;
    !gate.gave_up() && is_sound && end.failed.is_none() && end.stop.is_none()
}

#[test]
fn links_are_served_at_once_and_next_to_the_ticker(rt: HostRuntime) -> Result<(), Fail> {
    let alloc = rt.alloc();
    // Each link in turn is held before its datagram until the other's was submitted.
    for held in 0..2u32 {
        let gate = Hold::before(held, 1);
        let end = serve_both(&rt, alloc, once(alloc)?, once(alloc)?, &gate)?;
        assert!(rt; is_served(&end, &gate));
    }
    // A link's second datagram is held until the ticker has released its first, while the other link has none.
    let gate = Hold::before(0, 2);
    let none = MemoryLink::open(Vec::new(alloc), Vec::new(alloc));
    let end = serve_both(&rt, alloc, twice(alloc)?, none, &gate)?;
    assert!(rt; is_served(&end, &gate));
    Ok(())
}
