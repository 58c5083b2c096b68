// Two lanes on one server, each held at its first line until the other has played its own.
ghost use Rattle.std.specs.Prelude.{◌≡◌, ◌≤◌, length, IfOk};
ghost use Rattle.osc_script.specs.Adds.{count_adds};

use crate::callers::enrolled;
use crate::hold::Hold;
use crate::parts::{address, empty, push_add, push_line};
use osc_atoms::{Bytes, Fault};
use osc_lanes::{Gate, LaneEnd, LanePart, LanePlan, play};
use osc_live::Live;
use osc_method::Mute;
use osc_record::{Caps, Late};
use osc_script::Act;
use std::alloc::Global;
use std::sync::Wait;
use std::test::*;
use std::thread::Threads;

/// Adds `/a`, sends it a message, releases it and removes the method.
fn calling(alloc: Global) -> Result<LanePart<Mute>, Fail>
    ensures { IfOk result (λ part. count_adds part.lines.items ≤ length part.boxes.items) }
{
    let mut part = empty(alloc);
    let message = Bytes::copied(alloc, b"/a\0\0,i\0\0\0\0\0\x07")?;
    push_add(&mut part, 1, address(alloc, b"/a")?, Mute)?;
    push_line(&mut part, 3, Act::Send(message))?;
    push_line(&mut part, 5, Act::Pump)?;
    push_line(&mut part, 7, Act::Remove(address(alloc, b"/a")?))?;
    Ok(part)
}

/// Sends what is no packet, sets the clock, and adds `/b` twice.
fn adding(alloc: Global) -> Result<LanePart<Mute>, Fail>
    ensures { IfOk result (λ part. count_adds part.lines.items ≤ length part.boxes.items) }
{
    let mut part = empty(alloc);
    let faulty = Bytes::copied(alloc, b"/abc")?;
    push_line(&mut part, 2, Act::Send(faulty))?;
    push_line(&mut part, 4, Act::Tick(5))?;
    push_add(&mut part, 6, address(alloc, b"/b")?, Mute)?;
    push_add(&mut part, 8, address(alloc, b"/b")?, Mute)?;
    Ok(part)
}

/// Plays both lanes on one server, whose caller 0 enrolled theirs.
fn play_both<R: Threads + Wait + Sync, G: Gate + Sync>(
    rt: &R,
    alloc: Global,
    gate: &G,
) -> Result<Vec<LaneEnd<Mute>>, Fail> {
    let caps = Caps::new(8, 8, 8, 8, 3, 4096, Late::Deliver)
        .ok()
        .ok_or("limits")?;
    let (live, first) = Live::open(alloc, caps)?;
    let (first, one) = enrolled(rt, &live, first)?;
    let (_, two) = enrolled(rt, &live, first)?;
    let calling = calling(alloc)?;
    let adding = adding(alloc)?;
    let mut plans = Vec::with_capacity(alloc, 2)?;
    plans.push_reserved(LanePlan {
        lane: 1,
        caller: one,
        lines: calling.lines,
        boxes: calling.boxes,
    });
    plans.push_reserved(LanePlan {
        lane: 2,
        caller: two,
        lines: adding.lines,
        boxes: adding.boxes,
    });
    let ends = play(rt, alloc, &live, plans, gate)?;
    Ok(ends)
}

#[test]
fn two_lanes_play_at_once(rt: HostRuntime) -> Result<(), Fail> {
    for held in 1..3u32 {
        // The first line of lane 1 is line 1, and that of lane 2 is line 2.
        let gate = Hold::before(held, held);
        let mut ends = play_both(&rt, rt.alloc(), &gate)?;
        let mut two = ends.pop().ok_or("an end")?;
        let one = ends.pop().ok_or("an end")?;
        assert!(rt; ends.is_empty());
        assert!(rt; !gate.gave_up());
        assert_eq!(rt; (one.lane, two.lane), (1, 2));
        assert!(rt; one.faults.is_empty() && one.back.is_empty());
        assert!(rt; two.removed.is_empty());
        assert_eq!(rt; (one.removed.len(), two.back.len()), (1, 1));
        let fault = two.faults.pop().ok_or("a fault")?;
        assert_eq!(rt; fault, (2, Fault { kind: 8, at: 0 }));
        assert!(rt; two.faults.is_empty());
        assert_eq!(rt; (one.stop, two.stop), (None, None));
    }
    Ok(())
}
