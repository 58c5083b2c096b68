// A stage over links, a clock, outlets and a sink in memory.
ghost use Rattle.std.specs.Prelude.{◌≡◌, ◌≤◌, length, IfOk};
ghost use Rattle.osc_lanes.specs.Performs.{part_of, IsWhole};

use crate::relays::relay;
use osc_atoms::Bytes;
use osc_edge::{Clock, MemoryClock, MemoryLink, MemorySink, Moment};
use osc_life::{Gate, OpenGate};
use osc_links::{Bounds, LinksPart};
use osc_pattern::Address;
use osc_record::{Caps, Late};
use osc_relay::{MemoryOutlet, Relay};
use osc_script::{Act, Line};
use osc_stage::{Ended, Stage, Staged, adds_of, carried_on, stage_top};
use std::alloc::{AllocError, Global};
use std::sync::atomic::{AtomicU64, Ordering};
use std::sync::{Arc, Wait};
use std::test::Fail;
use std::thread::Threads;

/// The message `/light/*` with the argument 7, in a bundle for the moment 100.
pub(crate) const LATER: &[u8] =
    b"#bundle\0\0\0\0\0\0\0\0\x64\0\0\0\x14/light/*\0\0\0\0,i\0\0\0\0\0\x07";

/// What a light is to be sent of it.
pub(crate) const FIRST: &[u8] = b"/light/1\0\0\0\0,i\0\0\0\0\0\x07";

/// What the other is to be sent of it.
pub(crate) const SECOND: &[u8] = b"/light/2\0\0\0\0,i\0\0\0\0\0\x07";

/// 1 once a datagram was answered.
pub(crate) type Answered = Arc<AtomicU64, Global>;

/// A gate that tells when a datagram was answered.
#[derive(Drop)]
struct AnsweredGate {
    answered: Answered,
}

impl Gate for AnsweredGate {
    fn enter(&self, _link: u32, _datagram: u32) {}

    fn leave(&self, _link: u32, _datagram: u32) {
        self.answered.store(1, Ordering::SeqCst);
    }
}

/// A clock that stands at 5 until a datagram was answered, and then at 200.
#[derive(Drop)]
pub(crate) struct AnsweredClock {
    pub(crate) answered: Answered,
}

impl Clock for AnsweredClock {
    ghost use Rattle.std.specs.Prelude.{None};
    ghost use Rattle.osc_edge.specs.Clock.{GivesMoment, HasMoments, HasClockCause};

    ghost left = { λ _. None };

    ghost faults = { λ _. 0 };

    fn now(&mut self) -> Moment
        ensures moments { GivesMoment None None result }
        ensures some { HasMoments None }
        ensures cause { HasClockCause 0 0 result }
    {
        match self.answered.load(Ordering::SeqCst) {
            0 => Moment::At(5),
            _ => Moment::At(200),
        }
    }
}

/// A stage of a relay at each of two addresses, and of a link that has one datagram, and fails at
/// these calls.
pub(crate) fn stage_of(
    alloc: Global,
    addresses: [&[u8]; 2],
    datagram: &[u8],
    fails: Vec<u32>,
    recording: u32,
) -> Result<Stage<MemoryOutlet, MemoryLink>, Fail>
    requires short { length datagram.now ≤ 65508 }
    ensures callers { IfOk result (λ stage. stage.caps.callers ≡ 4) }
    ensures links { IfOk result (λ stage. length stage.links.from.items ≡ 1) }
    ensures count { IfOk result (λ stage. stage.links.bounds.count ≡ 8) }
    ensures idle { IfOk result (λ stage. stage.links.bounds.idle ≡ 2) }
    ensures whole { IfOk result (λ stage. IsWhole (part_of stage.opening)) }
{
    let caps = Caps::new(8, 8, 8, 8, 4, recording, Late::Deliver)
        .ok()
        .ok_or("limits")?;
    let mut relays = Vec::with_capacity(alloc, 2)?;
    for address in addresses {
        relays.push(relay(alloc, address, one_outlet(alloc)?)?)?;
    }
    let mut turns = Vec::with_capacity(alloc, 1)?;
    turns.push_reserved(Some(Bytes::copied(alloc, datagram)?));
    let mut from = Vec::with_capacity(alloc, 1)?;
    from.push_reserved(MemoryLink::open(turns, fails));
    let bounds = Bounds { count: 8, idle: 2 };
    Ok(Stage {
        caps,
        opening: adds_of(alloc, relays)?,
        links: LinksPart { from, bounds },
    })
}

fn one_outlet(alloc: Global) -> Result<Vec<MemoryOutlet>, AllocError> {
    let mut outlets = Vec::with_capacity(alloc, 1)?;
    outlets.push(MemoryOutlet::open(alloc, Vec::new(alloc)))?;
    Ok(outlets)
}

/// The id of a relay in the list, and the only datagram that it has sent.
pub(crate) fn sent(relays: &[(u32, Relay<MemoryOutlet>)], place: usize) -> Option<(u32, &[u8])> {
    let (id, relay) = relays.get(place)?;
    match relay.outlets().first()?.sent() {
        [datagram] => Some((*id, datagram.as_slice())),
        _ => None,
    }
}

#[test]
fn a_bundle_for_later_reaches_two_relays(rt: HostRuntime) -> Result<(), Fail> {
    let alloc = rt.alloc();
    let answered = Arc::new(alloc, AtomicU64::new(0))?;
    let gate = AnsweredGate {
        answered: Arc::try_clone(&answered)?,
    };
    let mut clock = AnsweredClock { answered };
    let mut rec = MemorySink::open(alloc, Vec::new(alloc));
    let stage = stage_of(
        alloc,
        [b"/light/1", b"/light/2"],
        LATER,
        Vec::new(alloc),
        4096,
    )?;
    let staged = stage_top(&rt, alloc, stage, &mut clock, &mut rec, &gate)?;
    assert_eq!(rt; staged.ended, Ended::Done);
    assert_eq!(rt; sent(&staged.relays, 0), Some((0, FIRST)));
    assert_eq!(rt; sent(&staged.relays, 1), Some((1, SECOND)));
    assert!(rt; staged.left.is_empty() && staged.faults.is_empty());
    assert_eq!(rt; rec.bytes(), staged.recording.as_slice());
    Ok(())
}

/// Plays the two lights' stage over a clock at 200 that fails at these calls, and a sink that fails
/// at those.
fn play<R: Threads + Wait + Sync>(
    rt: &R,
    alloc: Global,
    stage: Stage<MemoryOutlet, MemoryLink>,
    clock_fails: Vec<u32>,
    sink_fails: Vec<u32>,
) -> Result<(Staged<MemoryOutlet, MemoryLink>, usize), Fail>
    requires callers { stage.caps.callers ≡ 4 }
    requires links { length stage.links.from.items ≡ 1 }
    requires count { stage.links.bounds.count ≡ 8 }
    requires idle { stage.links.bounds.idle ≡ 2 }
    requires whole { IsWhole (part_of stage.opening) }
{
    let mut clock = MemoryClock::open(Vec::from_array(alloc, [200])?, clock_fails);
    let mut rec = MemorySink::open(alloc, sink_fails);
    let staged = stage_top(rt, alloc, stage, &mut clock, &mut rec, &OpenGate)?;
    let written = rec.bytes().len();
    Ok((staged, written))
}

/// Each the calls at which the link fails, the clock and the sink, and how the stage ends.
const FAILURES: [(&[u32], &[u32], &[u32], Ended); 5] = [
    (&[1], &[], &[], Ended::LinkFailed(0)),
    (&[], &[1], &[], Ended::ClockFailed),
    (&[], &[], &[1], Ended::SinkFailed),
    (&[1], &[1], &[], Ended::LinkFailed(0)),
    (&[1], &[1], &[1], Ended::SinkFailed),
];

#[test]
fn what_fails_is_told_and_what_was_recorded_is_written(rt: HostRuntime) -> Result<(), Fail> {
    let alloc = rt.alloc();
    for (link, clock, sink, ended) in FAILURES {
        let link = Vec::from_slice(alloc, link)?;
        let stage = stage_of(alloc, [b"/light/1", b"/light/2"], LATER, link, 4096)?;
        let clock = Vec::from_slice(alloc, clock)?;
        let sink = Vec::from_slice(alloc, sink)?;
        let (staged, written) = play(&rt, alloc, stage, clock, sink)?;
        assert_eq!(rt; staged.ended, ended);
        assert_eq!(rt; staged.relays.len(), 2);
        let whole = if ended == Ended::SinkFailed {
            0
        } else {
            staged.recording.len()
        };
        assert_eq!(rt; written, whole);
    }
    Ok(())
}

#[test]
fn a_relay_that_is_refused_comes_back(rt: HostRuntime) -> Result<(), Fail> {
    let alloc = rt.alloc();
    let stage = stage_of(
        alloc,
        [b"/light/1", b"/light/1"],
        b"/abc",
        Vec::new(alloc),
        4096,
    )?;
    let (staged, _) = play(&rt, alloc, stage, Vec::new(alloc), Vec::new(alloc))?;
    assert_eq!(rt; staged.ended, Ended::Done);
    assert_eq!(rt; (staged.relays.len(), staged.left.len()), (1, 1));
    let (link, datagram, _) = staged.faults.first().ok_or("a fault")?;
    assert_eq!(rt; (*link, *datagram), (0, 1));
    Ok(())
}

#[test]
fn a_recording_without_room_starts_no_link(rt: HostRuntime) -> Result<(), Fail> {
    let alloc = rt.alloc();
    // A header alone has 60 bytes.
    let stage = stage_of(
        alloc,
        [b"/light/1", b"/light/2"],
        LATER,
        Vec::new(alloc),
        60,
    )?;
    let (staged, written) = play(&rt, alloc, stage, Vec::new(alloc), Vec::new(alloc))?;
    assert!(rt; matches!(staged.ended, Ended::RecordFull(room) if room.free == 0));
    assert_eq!(rt; (staged.relays.len(), staged.left.len()), (0, 2));
    assert_eq!(rt; written, 60);
    Ok(())
}

/// What an old server left: a method, its clock, and the bundle that waits.
fn left_lines(alloc: Global) -> Result<Vec<Line>, Fail> {
    let address = Address::read(alloc, b"/old").ok().ok_or("an address")?;
    let add = Act::Add(address);
    let send = Act::Send(Bytes::copied(alloc, LATER)?);
    let mut lines = Vec::with_capacity(alloc, 3)?;
    for act in [add, Act::Tick(5), send] {
        lines.push(Line {
            number: 0,
            lane: 0,
            act,
        })?;
    }
    Ok(lines)
}

#[test]
fn what_waited_on_an_old_server_reaches_the_relays(rt: HostRuntime) -> Result<(), Fail> {
    let alloc = rt.alloc();
    let Stage {
        caps,
        opening,
        links,
    } = stage_of(
        alloc,
        [b"/light/1", b"/light/2"],
        b"/abc",
        Vec::new(alloc),
        4096,
    )?;
    let opening = carried_on(alloc, opening.boxes, left_lines(alloc)?)?;
    let stage = Stage {
        caps,
        opening,
        links,
    };
    let (staged, _) = play(&rt, alloc, stage, Vec::new(alloc), Vec::new(alloc))?;
    assert_eq!(rt; staged.ended, Ended::Done);
    assert_eq!(rt; sent(&staged.relays, 0), Some((0, FIRST)));
    assert_eq!(rt; sent(&staged.relays, 1), Some((1, SECOND)));
    assert!(rt; staged.removed.is_empty() && staged.opening_faults.is_empty());
    Ok(())
}
