// A server of two callers, from its opening to its close.
use crate::tokens::{close_both, close_twice, enrolled, open};
use osc_core::{Adding, Closed};
use osc_method::{Method, Mute, Trace};
use osc_packet::{MAX_PACKET, Packet};
use osc_pattern::Address;
use std::alloc::Global;
use std::sync::Wait;
use std::test::Fail;

/// The result of a server of two callers, on which one method is added, called and handed out.
#[derive(Drop)]
struct Round<M> {
    numbers: (u32, u32),
    header: [u8; 12],
    read: (usize, usize),
    fronts: (u64, u64),
    released: (u32, u64),
    closed: Closed<M>,
}

fn play_round<M: Method, W: Wait>(
    rt: &W,
    alloc: Global,
    method: M,
    packet: &Packet<'_>,
) -> Option<Round<M>> {
    let (live, caller) = open(alloc)?;
    let (caller, new) = enrolled(rt, &live, caller)?;
    let (new, enrolled) = live.front(new);
    let address = Address::read(alloc, b"/a").ok()?;
    let (caller, added) = live.add(rt, caller, address, method);
    let Adding::Added(_) = added else {
        return None;
    };
    let (caller, submitted) = live.try_submit(caller, packet);
    let Ok(_) = submitted else {
        return None;
    };
    let (new, pumped) = live.pump(rt, new);
    let (new, front) = live.front(new);
    let numbers = (caller.number(), new.number());
    let mut header = [0; 12];
    let (new, begun) = live.read(rt, new, 0, &mut header);
    let (new, past) = live.read(rt, new, 4096, &mut header);
    let closed = close_both(alloc, live, caller, new)?;
    Some(Round {
        numbers,
        header,
        read: (begun, past),
        fronts: (enrolled, front),
        released: (pumped.released, pumped.calls),
        closed,
    })
}

/// What the first box tells.
fn told<M: Method>(round: &Round<M>) -> Option<u32> {
    let (_, method) = round.closed.kept.first()?;
    method.told()
}

fn packet() -> Option<Packet<'static>> {
    Packet::check(b"/a\0\0", MAX_PACKET).ok()
}

#[test]
fn two_callers_share_one_history(rt: HostRuntime) -> Result<(), Fail> {
    let packet = packet().ok_or("a packet")?;
    let trace = Trace::open(rt.alloc(), 64)?;
    let round = play_round(&rt, rt.alloc(), trace, &packet).ok_or("memory")?;
    assert_eq!(rt; round.numbers, (0, 1));
    assert_eq!(rt; round.header, *b"\0\0\0\x38/osc/rec");
    assert_eq!(rt; round.read, (12, 0));
    assert_eq!(rt; round.fronts, (1, 4));
    assert_eq!(rt; round.released, (1, 1));
    assert_eq!(rt; told(&round), Some(20));
    Ok(())
}

/// Where the clock stands at a submit before the first tick, and at one after a tick of 5.
fn clocks<W: Wait>(rt: &W, alloc: Global, packet: &Packet<'_>) -> Option<(u64, u64)> {
    let (live, caller) = open::<Mute>(alloc)?;
    let (caller, new) = enrolled(rt, &live, caller)?;
    let (caller, before) = live.submit_clocked(rt, caller, packet);
    let (new, _) = live.tick(rt, new, 5);
    let (caller, after) = live.submit_clocked(rt, caller, packet);
    let _ = close_both(alloc, live, caller, new)?;
    Some((before.clock, after.clock))
}

#[test]
fn a_submit_tells_where_the_clock_stands(rt: HostRuntime) -> Result<(), Fail> {
    let packet = packet().ok_or("a packet")?;
    assert_eq!(rt; clocks(&rt, rt.alloc(), &packet), Some((1, 5)));
    Ok(())
}

/// A server is closed without a guest's token, and then with it.
fn close_after_a_guest<M: Method>(alloc: Global) -> Option<(u32, u32)> {
    let (live, caller) = open::<M>(alloc)?;
    let (caller, guest) = live.guest(caller);
    close_twice(alloc, live, caller, guest.ok()?)
}

#[test]
fn a_guest_has_to_be_handed_in_too(rt: HostRuntime) -> Result<(), Fail> {
    assert_eq!(rt; close_after_a_guest::<Mute>(rt.alloc()), Some((2, 1)));
    Ok(())
}
