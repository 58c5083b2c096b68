// A show in several recordings, over links, a clock, outlets and sinks in memory.
use crate::stages::{Answered, AnsweredClock, FIRST, LATER, SECOND, sent, stage_of};
use osc_chain::{Reels, Seam, SeamFault, ShowEnd, carried_most, has_room, play_show, turn_over};
use osc_edge::{MemoryLink, MemorySink};
use osc_life::OpenGate;
use osc_links::Bounds;
use osc_record::{Caps, Late};
use osc_relay::MemoryOutlet;
use osc_stage::{Ended, Stage, stage_top};
use std::alloc::{AllocError, Global};
use std::sync::atomic::{AtomicU64, Ordering};
use std::sync::{Arc, Wait};
use std::test::Fail;
use std::thread::Threads;

/// Recordings in memory. A show goes on in a second one, in which its clock has gone on.
#[derive(Drop)]
struct TwoReels {
    alloc: Global,
    opened: u32,
    clock: Answered,
    refused: usize,
}

impl Reels for TwoReels {
    type Sink = MemorySink;

    fn open(&mut self) -> Result<MemorySink, AllocError> {
        self.opened = self.opened.saturating_add(1);
        Ok(MemorySink::open(self.alloc, Vec::new(self.alloc)))
    }

    fn goes_on(&mut self, ended: Ended, _size: usize, refused: usize) -> bool {
        self.clock.store(1, Ordering::SeqCst);
        self.refused = self.refused.saturating_add(refused);
        ended == Ended::Done && self.opened < 2
    }
}

/// Plays the two lights' show, with a recording of so many bytes at most.
fn play<R: Threads + Wait + Sync>(
    rt: &R,
    alloc: Global,
    recording: u32,
) -> Result<(ShowEnd<MemoryOutlet, MemoryLink>, u32), Fail> {
    let answered = Arc::new(alloc, AtomicU64::new(0))?;
    let mut reels = TwoReels {
        alloc,
        opened: 0,
        clock: Arc::try_clone(&answered)?,
        refused: 0,
    };
    let mut clock = AnsweredClock { answered };
    let addresses: [&[u8]; 2] = [b"/light/1", b"/light/2"];
    let stage = stage_of(alloc, addresses, LATER, Vec::new(alloc), recording)?;
    let end = play_show(rt, alloc, stage, &mut clock, &mut reels, &OpenGate)?;
    Ok((end, reels.opened))
}

#[test]
fn what_waits_at_a_seam_is_called_once_after_it(rt: HostRuntime) -> Result<(), Fail> {
    let (end, opened) = play(&rt, rt.alloc(), 4096)?;
    assert_eq!(rt; (opened, end.fault), (2, None));
    assert_eq!(rt; end.staged.ended, Ended::Done);
    assert_eq!(rt; sent(&end.staged.relays, 0), Some((0, FIRST)));
    assert_eq!(rt; sent(&end.staged.relays, 1), Some((1, SECOND)));
    assert!(rt; end.staged.left.is_empty() && end.staged.opening_faults.is_empty());
    Ok(())
}

#[test]
fn a_show_whose_limits_leave_no_room_ends(rt: HostRuntime) -> Result<(), Fail> {
    let (end, opened) = play(&rt, rt.alloc(), 3963)?;
    assert_eq!(rt; (opened, end.fault), (1, Some(SeamFault::NoRoom)));
    assert!(rt; sent(&end.staged.relays, 0).is_none());
    Ok(())
}

#[test]
fn what_is_carried_on_takes_so_much_room(rt: HostRuntime) -> Result<(), Fail> {
    let caps = |recording| Caps::new(8, 8, 8, 8, 4, recording, Late::Deliver).ok();
    let least = caps(3964).ok_or("limits")?;
    assert_eq!(rt; carried_most(least), 3964);
    assert!(rt; has_room(least));
    assert!(rt; !has_room(caps(3963).ok_or("limits")?));
    Ok(())
}

#[test]
fn a_stage_that_is_over_turns_over(rt: HostRuntime) -> Result<(), Fail> {
    let alloc = rt.alloc();
    let mut clock = AnsweredClock {
        answered: Arc::new(alloc, AtomicU64::new(0))?,
    };
    let addresses: [&[u8]; 2] = [b"/light/1", b"/light/2"];
    let stage = stage_of(alloc, addresses, LATER, Vec::new(alloc), 4096)?;
    let caps = stage.caps;
    let mut rec = MemorySink::open(alloc, Vec::new(alloc));
    let staged = stage_top(&rt, alloc, stage, &mut clock, &mut rec, &OpenGate)?;
    let bounds = Bounds { count: 8, idle: 2 };
    let Seam::GoesOn(Stage { opening, links, .. }) = turn_over(alloc, caps, bounds, staged)? else {
        return Err("it ends".into());
    };
    // Two adds, a tick to 5, and the bundle that waits.
    assert_eq!(rt; (opening.lines.len(), opening.boxes.len()), (4, 2));
    assert_eq!(rt; links.from.len(), 1);
    Ok(())
}
