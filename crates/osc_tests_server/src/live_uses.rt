// Each way of calling a live server: a try, a look, a meeting, a loop, and a method in another's place.
use crate::servers::{address, caps};
use osc_core::{Adding, Removing, Submitted};
use osc_live::{Live, PumpEnd, Pumped};
use osc_packet::{MAX_PACKET, Packet};
use osc_uses::{Fader, Soon, entries_since, pump_after, replace, run_clock, submit_soon};
use std::test::*;

/// `/a` with 7.
const SEVEN: &[u8] = b"/a\0\0,i\0\0\0\0\0\x07";

/// `/a` with 1, at the moment 3.
const AT_THREE: &[u8] = b"#bundle\0\0\0\0\0\0\0\0\x03\0\0\0\x0c/a\0\0,i\0\0\0\0\0\x01";

#[test]
fn a_packet_is_submitted_at_once_where_the_turn_is_free(rt: HostRuntime) -> Result<(), Fail> {
    let (live, caller) = Live::<Fader>::open(rt.alloc(), caps(1)?)?;
    let packet = Packet::check(SEVEN, MAX_PACKET).ok().ok_or("a packet")?;
    let (caller, soon) = submit_soon(&rt, &live, caller, &packet);
    let queued = Submitted::Queued {
        first: 0,
        count: 1,
        late: 0,
    };
    assert_eq!(rt; soon, Soon::AtOnce(queued));
    let (caller, all) = entries_since(&live, caller, 0);
    let (_, new) = entries_since(&live, caller, 1);
    assert_eq!(rt; (all, new), (1, 0));
    Ok(())
}

#[test]
fn moments_are_handed_in_one_after_another(rt: HostRuntime) -> Result<(), Fail> {
    let (live, caller) = Live::<Fader>::open(rt.alloc(), caps(1)?)?;
    let packet = Packet::check(AT_THREE, MAX_PACKET).ok().ok_or("a packet")?;
    let (caller, _) = submit_soon(&rt, &live, caller, &packet);
    let mut moments = Vec::new(rt.alloc());
    for moment in 2..5 {
        moments.push(moment)?;
    }
    // A submit, three ticks, and a release at the second of them.
    let caller = run_clock(&rt, &live, caller, moments);
    let (_, entries) = entries_since(&live, caller, 0);
    assert_eq!(rt; entries, 5);
    Ok(())
}

#[test]
fn what_another_submitted_is_released_after_it(rt: HostRuntime) -> Result<(), Fail> {
    let (live, first) = Live::<Fader>::open(rt.alloc(), caps(2)?)?;
    let (first, guest) = live.guest(first);
    let guest = guest.ok().ok_or("a guest")?;
    let (first, second) = live.enrol(&rt, first, guest);
    let second = second.ok().ok_or("a caller")?;
    let packet = Packet::check(SEVEN, MAX_PACKET).ok().ok_or("a packet")?;
    let (second, _) = submit_soon(&rt, &live, second, &packet);
    let (_, _, pumped) = pump_after(&rt, &live, first, second);
    let end = PumpEnd::NothingDue { next: None };
    let released = Pumped {
        released: 1,
        calls: 0,
        end,
    };
    assert_eq!(rt; pumped, released);
    Ok(())
}

#[test]
fn a_method_takes_anothers_place(rt: HostRuntime) -> Result<(), Fail> {
    let (live, caller) = Live::open(rt.alloc(), caps(1)?)?;
    let (caller, first) = replace(
        &rt,
        &live,
        caller,
        address(rt.alloc(), b"/a")?,
        Fader::new(),
    );
    assert!(rt; matches!(first.removed, Removing::NotThere));
    assert!(rt; matches!(first.added, Adding::Added(0)));
    let (_, second) = replace(
        &rt,
        &live,
        caller,
        address(rt.alloc(), b"/a")?,
        Fader::new(),
    );
    assert!(rt; matches!(second.removed, Removing::Removed { id: 0, .. }));
    assert!(rt; matches!(second.added, Adding::Added(1)));
    Ok(())
}
