// Three threads on one server, and its recording.
use crate::servers::{address, caps};
use osc_atoms::Fault;
use osc_core::{Adding, Removing, Submitted, Ticking};
use osc_live::EnrolRefusal;
use osc_record::Reader;
use osc_uses::{Fader, LiveRun, Placed, Unfinished, live_run};
use std::alloc::Global;
use std::sync::Wait;
use std::test::*;
use std::thread::Threads;

/// A run with a fader at `/a`, at the moment 5.
fn run<R: Threads + Wait + Sync>(
    rt: &R,
    alloc: Global,
    callers: u32,
    bytes: &[u8],
) -> Result<Result<LiveRun<Fader>, Unfinished<Fader>>, Fail> {
    let placed = Placed {
        address: address(alloc, b"/a")?,
        method: Fader::new(),
    };
    Ok(live_run(rt, alloc, caps(callers)?, placed, bytes, 5))
}

/// How many entries of each caller are recorded.
fn entries(bytes: &[u8]) -> Option<[u32; 3]> {
    if bytes.len() > 4096 {
        return None;
    }
    let mut counts = [0u32; 3];
    for entry in Reader::check(bytes).ok()?.entries() {
        let count = counts.get_mut(entry.caller as usize)?;
        *count = count.saturating_add(1);
    }
    Some(counts)
}

#[test]
fn three_threads_make_one_recording(rt: HostRuntime) -> Result<(), Fail> {
    let rows: [(&[u8], Result<Submitted, Fault>, u32); 2] = [
        (
            b"/a\0\0,i\0\0\0\0\0\x07",
            Ok(Submitted::Queued {
                first: 0,
                count: 1,
                late: 0,
            }),
            1,
        ),
        (b"/abc", Err(Fault { kind: 8, at: 0 }), 0),
    ];
    for (bytes, sent, submits) in rows {
        let run = run(&rt, rt.alloc(), 3, bytes)?.ok().ok_or("a run")?;
        assert!(rt; matches!(run.added, Adding::Added(0)));
        assert!(rt; matches!(run.removed, Removing::Removed { id: 0, .. }));
        assert_eq!(rt; (run.sent, run.ticked), (sent, Ticking::Ticked));
        assert!(rt; run.pumped.released <= submits);
        // Caller 0 enrols the others, and a tick comes before the releases.
        let counts = [4, submits, run.pumped.released.saturating_add(1)];
        assert_eq!(rt; entries(&run.closed.bytes), Some(counts));
        assert!(rt; run.closed.kept.is_empty());
    }
    Ok(())
}

#[test]
fn three_callers_have_to_be_admitted(rt: HostRuntime) -> Result<(), Fail> {
    match run(&rt, rt.alloc(), 2, b"/a\0\0")? {
        Err(Unfinished::NotEnrolled(refusal)) => {
            assert_eq!(rt; refusal, EnrolRefusal::CallersFull);
        }
        _ => return Err(Fail::new("another answer")),
    }
    Ok(())
}
