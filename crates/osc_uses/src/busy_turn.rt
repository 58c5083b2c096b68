//! Calls that never wait: a try that finds the turn taken, and a look at how far the history has come.
ghost use Rattle.std.specs.Prelude.{◌≡◌, ℕ, ◌-◌};
ghost use Rattle.osc_turn.specs.Passes.{view};
ghost use Rattle.osc_live.specs.Tokens.{IsOurs};
ghost use Rattle.osc_live.specs.Calls.{Looks};
ghost use Rattle.osc_uses.specs.LiveCalls.{SubmitsSoon};

use osc_core::Submitted;
use osc_live::{Busy, Caller, Live};
use osc_method::Method;
use osc_packet::Packet;
use std::sync::Wait;

/// How a packet was submitted.
#[derive(Clone, Copy, Debug, PartialEq, Eq)]
pub enum Soon {
    /// The turn was free.
    AtOnce(Submitted),
    /// The turn was another's, by the word that is told, and the caller waited for it.
    AfterWaiting(Busy, Submitted),
}

/// Submits the packet at once where the turn is free, and waits for it only where it isn't.
pub fn submit_soon<M: Method, W: Wait>(
    rt: &W,
    live: &Live<M>,
    caller: Caller,
    packet: &Packet<'_>,
) -> (Caller, Soon)
    requires ours { IsOurs live.now caller }
    ensures ours { IsOurs live.now result.0 }
    ensures number { result.0.number ≡ caller.number }
    ensures submits { SubmitsSoon live.now.caps caller.number packet.now result.1
        (view caller.pass) (view result.0.pass) }
{
    let (caller, tried) = live.try_submit(caller, packet);
    match tried {
        Ok(submitted) => (caller, Soon::AtOnce(submitted)),
        Err(busy) => {
            let (caller, submitted) = live.submit(rt, caller, packet);
            (caller, Soon::AfterWaiting(busy, submitted))
        }
    }
}

/// How many entries the history has beyond those that are known already, by one look: a display asks so whether there
/// is anything new to read.
pub fn entries_since<M: Method>(live: &Live<M>, caller: Caller, known: u64) -> (Caller, u64)
    requires ours { IsOurs live.now caller }
    ensures ours { IsOurs live.now result.0 }
    ensures number { result.0.number ≡ caller.number }
    ensures since { (entries : ℕ) × (result.1 ≡ entries - known)
        × Looks entries (view caller.pass) (view result.0.pass) }
{
    let (caller, entries) = live.front(caller);
    (caller, entries.saturating_sub(known))
}
