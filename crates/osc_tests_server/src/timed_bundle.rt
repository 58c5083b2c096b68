// Bundles that wait for their moments.
use crate::servers::with_fader;
use osc_core::{Releasing, Submitted, Ticking};
use osc_packet::{MAX_PACKET, Packet};
use osc_uses::{TimedRun, timed_run};
use std::alloc::Global;
use std::test::*;

/// `/a` with 1, and `/a` with 2, at the moment 2.
const TWICE: &[u8] =
    b"#bundle\0\0\0\0\0\0\0\0\x02\0\0\0\x0c/a\0\0,i\0\0\0\0\0\x01\0\0\0\x0c/a\0\0,i\0\0\0\0\0\x02";

/// `/a` with 1, immediately.
const ONCE: &[u8] = b"#bundle\0\0\0\0\0\0\0\0\x01\0\0\0\x0c/a\0\0,i\0\0\0\0\0\x01";

/// What comes of the bundle, and what the fader at `/a` keeps then.
fn run(alloc: Global, bundle: &[u8], moment: u64) -> Result<(TimedRun, Option<u32>), Fail> {
    let packet = Packet::check(bundle, MAX_PACKET).ok().ok_or("a packet")?;
    let mut core = with_fader(alloc, b"/a")?;
    let answers = timed_run(&mut core, &packet, moment);
    let kept = core.close().kept;
    let (_, fader) = kept.first().ok_or("a fader")?;
    Ok((answers, fader.level()))
}

fn answers(early: Releasing, ticked: Ticking, released: Releasing) -> TimedRun {
    TimedRun {
        submitted: Submitted::Queued {
            first: 0,
            count: 1,
            late: 0,
        },
        early,
        ticked,
        released,
    }
}

#[test]
fn a_bundle_waits_for_its_moment_and_is_performed_whole(rt: HostRuntime) -> Result<(), Fail> {
    let none = Releasing::NothingDue { next: None };
    let waits = Releasing::NothingDue { next: Some(2) };
    let once = Releasing::Released { unit: 0, calls: 1 };
    let twice = Releasing::Released { unit: 0, calls: 2 };
    let rows: [(&[u8], u64, TimedRun, Option<u32>); 4] = [
        (TWICE, 2, answers(waits, Ticking::Ticked, twice), Some(2)),
        (TWICE, 1, answers(waits, Ticking::Ticked, waits), None),
        (TWICE, 0, answers(waits, Ticking::ClockBack(1), waits), None),
        (ONCE, 2, answers(once, Ticking::Ticked, none), Some(1)),
    ];
    for (bundle, moment, wanted, level) in rows {
        assert_eq!(rt; run(rt.alloc(), bundle, moment)?, (wanted, level));
    }
    Ok(())
}
