// Calls that don't wait, while another caller's add is in its box's reset.
ghost use Rattle.std.specs.Prelude.{◌≡◌, [], None};
ghost use Rattle.osc_live.specs.Tokens.{IsOurs};

use crate::live_threads::{Flag, MESSAGE, Meanwhile, await_flag, flag, try_meanwhile};
use crate::tokens::{enrolled, open};
use osc_core::Adding;
use osc_live::{Busy, Caller, Live};
use osc_method::{Call, Method};
use osc_packet::{MAX_PACKET, Packet};
use osc_pattern::Address;
use std::alloc::Global;
use std::sync::atomic::Ordering;
use std::sync::{Arc, Wait};
use std::test::Fail;
use std::thread::{Threads, join};

/// A method that tells that its reset has begun, and then waits until it may end.
#[derive(Drop)]
pub(crate) struct Slow {
    pub(crate) begun: Flag,
    pub(crate) may_end: Flag,
}

impl Method for Slow {
    ghost keep = { λ _. record { most = 0; name = []; outlets = [] } };

    ghost heard = { λ _. None };

    fn reset(&mut self) {
        self.begun.store(true, Ordering::SeqCst);
        await_flag(&self.may_end);
    }

    fn invoke(&mut self, _call: &Call<'_>) {}

    fn told(&self) -> Option<u32> {
        None
    }

    fn byte(&self, _k: u32) -> u8 {
        0
    }
}

/// One thread adds, and the other tries its calls meanwhile.
fn at_once<R: Threads + Wait + Sync>(
    rt: &R,
    live: &Live<Slow>,
    new: Caller,
    caller: Caller,
    address: Address,
    method: Slow,
    flags: (&Flag, &Flag),
) -> (Option<u32>, Option<Meanwhile>)
    requires new { IsOurs live.now new }
    requires ours { IsOurs live.now caller }
{
    let (begun, may_end) = flags;
    join(
        rt,
        || -> Option<u32>
            requires { IsOurs live.now new }
        {
            let (_, added) = live.add(rt, new, address, method);
            match added {
                Adding::Added(id) => Some(id),
                Adding::Refused { .. } => None,
            }
        },
        || -> Option<Meanwhile>
            requires { IsOurs live.now caller }
        { try_meanwhile(live, caller, begun, may_end).1 },
    )
}

/// Submits a message, so that there is an entry more.
fn submit<R: Wait>(rt: &R, live: &Live<Slow>, caller: Caller) -> Caller
    requires ours { IsOurs live.now caller }
    ensures ours { IsOurs live.now result }
{
    let Ok(packet) = Packet::check(MESSAGE, MAX_PACKET) else {
        return caller;
    };
    let (caller, _) = live.submit(rt, caller, &packet);
    caller
}

/// The second caller adds after its enrolment and perhaps a submit, and caller 0 tries its calls meanwhile.
fn hold<R: Threads + Wait + Sync>(rt: &R, alloc: Global, submits: bool) -> Option<Meanwhile> {
    let begun = flag(alloc)?;
    let may_end = flag(alloc)?;
    let method = Slow {
        begun: Arc::try_clone(&begun).ok()?,
        may_end: Arc::try_clone(&may_end).ok()?,
    };
    let (live, caller) = open(alloc)?;
    let (caller, new) = enrolled(rt, &live, caller)?;
    let caller = if submits {
        submit(rt, &live, caller)
    } else {
        caller
    };
    let address = Address::read(alloc, b"/a").ok()?;
    let flags = (&begun, &may_end);
    let (added, meanwhile) = at_once(rt, &live, new, caller, address, method, flags);
    added?;
    meanwhile
}

#[test]
fn a_try_is_busy_while_a_box_is_reset(rt: HostRuntime) -> Result<(), Fail> {
    for (submits, found) in [(false, 3), (true, 5)] {
        let busy = Meanwhile {
            submitted: Err(Busy { found }),
            released: Err(Busy { found }),
        };
        assert!(rt; hold(&rt, rt.alloc(), submits) == Some(busy));
    }
    Ok(())
}
