// Two threads that call one server.
ghost use Rattle.std.specs.Prelude.{◌≡◌, [], None};
ghost use Rattle.osc_live.specs.Tokens.{IsOurs};

use crate::tokens::{enrolled, open};
use osc_core::{Adding, Releasing, Submitted};
use osc_live::{Busy, Caller, Live};
use osc_method::{Call, Method};
use osc_packet::{MAX_PACKET, Packet};
use osc_pattern::Address;
use std::alloc::Global;
use std::sync::atomic::{AtomicBool, Ordering};
use std::sync::{Arc, Wait};
use std::test::Fail;
use std::thread::{Threads, join};

/// How often a thread looks at a flag at most.
const LOOKS: u32 = 100_000_000;

/// Looks at the flag until it is set.
pub(crate) fn await_flag(flag: &AtomicBool) {
    for _ in 0..LOOKS {
        if flag.load(Ordering::SeqCst) {
            return;
        }
    }
}

pub(crate) type Flag = Arc<AtomicBool, Global>;

/// A method that tells that a call has begun, and then waits until it may end.
#[derive(Drop)]
struct Gate {
    begun: Flag,
    may_end: Flag,
}

impl Method for Gate {
    ghost keep = { λ _. record { most = 0; name = []; outlets = [] } };

    ghost heard = { λ _. None };

    fn reset(&mut self) {}

    fn invoke(&mut self, _call: &Call<'_>) {
        self.begun.store(true, Ordering::SeqCst);
        await_flag(&self.may_end);
    }

    fn told(&self) -> Option<u32> {
        None
    }

    fn byte(&self, _k: u32) -> u8 {
        0
    }
}

pub(crate) fn flag(alloc: Global) -> Option<Flag> {
    Arc::new(alloc, AtomicBool::new(false)).ok()
}

/// What caller 0 is answered while another call makes its calls.
#[derive(Drop, PartialEq)]
pub(crate) struct Meanwhile {
    pub(crate) submitted: Result<Submitted, Busy>,
    pub(crate) released: Result<Releasing, Busy>,
}

pub(crate) const MESSAGE: &[u8] = b"/a\0\0";

fn try_submit<M: Method>(
    live: &Live<M>,
    caller: Caller,
) -> (Caller, Option<Result<Submitted, Busy>>)
    requires ours { IsOurs live.now caller }
    ensures ours { IsOurs live.now result.0 }
    ensures number { result.0.number ≡ caller.number }
{
    let Ok(packet) = Packet::check(MESSAGE, MAX_PACKET) else {
        return (caller, None);
    };
    let (caller, submitted) = live.try_submit(caller, &packet);
    (caller, Some(submitted))
}

/// Tries both calls while the other call has begun and may not end, and then lets it end.
pub(crate) fn try_meanwhile<M: Method>(
    live: &Live<M>,
    caller: Caller,
    begun: &Flag,
    may_end: &Flag,
) -> (Caller, Option<Meanwhile>)
    requires ours { IsOurs live.now caller }
    ensures ours { IsOurs live.now result.0 }
    ensures number { result.0.number ≡ caller.number }
{
    await_flag(begun);
    let (caller, submitted) = try_submit(live, caller);
    let (caller, released) = live.try_release(caller);
    may_end.store(true, Ordering::SeqCst);
    let Some(submitted) = submitted else {
        return (caller, None);
    };
    let meanwhile = Meanwhile {
        submitted,
        released,
    };
    (caller, Some(meanwhile))
}

/// One thread releases, and the other tries its calls while the first makes a call.
fn at_once<M: Method + Send, R: Threads + Wait + Sync>(
    rt: &R,
    live: &Live<M>,
    new: Caller,
    caller: Caller,
    flags: (&Flag, &Flag),
) -> ((Caller, Releasing), (Caller, Option<Meanwhile>))
    requires new { IsOurs live.now new }
    requires ours { IsOurs live.now caller }
    ensures new { IsOurs live.now result.0.0 }
    ensures ours { IsOurs live.now result.1.0 }
    ensures number { result.1.0.number ≡ caller.number }
{
    let (begun, may_end) = flags;
    join(
        rt,
        || -> (Caller, Releasing)
            requires { IsOurs live.now new }
            ensures { IsOurs live.entry.now result.0 }
        { live.release(rt, new) },
        || -> (Caller, Option<Meanwhile>)
            requires { IsOurs live.now caller }
            ensures { IsOurs live.entry.now result.0 × (result.0.number ≡ caller.number) }
        { try_meanwhile(live, caller, begun, may_end) },
    )
}

/// What comes of a release while which caller 0 tries its calls.
#[derive(Drop, PartialEq)]
struct Held {
    enrolled: u64,
    meanwhile: Option<Meanwhile>,
    released: Releasing,
    then: Option<Result<Submitted, Busy>>,
    front: u64,
}

fn hold<R: Threads + Wait + Sync>(rt: &R, alloc: Global) -> Option<Held> {
    let packet = Packet::check(MESSAGE, MAX_PACKET).ok()?;
    let begun = flag(alloc)?;
    let may_end = flag(alloc)?;
    let gate = Gate {
        begun: Arc::try_clone(&begun).ok()?,
        may_end: Arc::try_clone(&may_end).ok()?,
    };
    let (live, caller) = open(alloc)?;
    let (caller, new) = enrolled(rt, &live, caller)?;
    let (new, enrolled) = live.front(new);
    let address = Address::read(alloc, b"/a").ok()?;
    let (caller, added) = live.add(rt, caller, address, gate);
    let Adding::Added(0) = added else {
        return None;
    };
    let (caller, _) = live.submit(rt, caller, &packet);
    let ((_, released), (caller, meanwhile)) = at_once(rt, &live, new, caller, (&begun, &may_end));
    let (caller, then) = try_submit(&live, caller);
    let (_, front) = live.front(caller);
    Some(Held {
        enrolled,
        meanwhile,
        released,
        then,
        front,
    })
}

#[test]
fn a_call_that_does_not_wait_finds_the_turn_taken(rt: HostRuntime) -> Result<(), Fail> {
    let held = Held {
        enrolled: 1,
        meanwhile: Some(Meanwhile {
            submitted: Err(Busy { found: 7 }),
            released: Err(Busy { found: 7 }),
        }),
        released: Releasing::Released { unit: 0, calls: 1 },
        then: Some(Ok(Submitted::Queued {
            first: 1,
            count: 1,
            late: 0,
        })),
        front: 5,
    };
    assert!(rt; hold(&rt, rt.alloc()) == Some(held));
    Ok(())
}
