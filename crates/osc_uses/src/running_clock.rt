//! A loop over calls: a clock that is handed in moment by moment, each with all that is due by then.
ghost use Rattle.std.specs.Prelude.{◌≡◌};
ghost use Rattle.osc_turn.specs.Passes.{view};
ghost use Rattle.osc_live.specs.Tokens.{IsOurs};
ghost use Rattle.osc_uses.specs.LiveCalls.{Runs};

use crate::live_server::tick_and_pump;
use osc_live::{Caller, Live};
use osc_method::Method;
use std::sync::Wait;

/// Hands in the moments, one after another, and releases at each what is due by then. The caller's token goes into each
/// call and comes out of it.
pub fn run_clock<M: Method, W: Wait>(
    rt: &W,
    live: &Live<M>,
    mut caller: Caller,
    moments: Vec<u64>,
) -> Caller
    requires ours { IsOurs live.now caller }
    ensures ours { IsOurs live.now result }
    ensures number { result.number ≡ caller.number }
    ensures runs { Runs live.now.caps caller.number moments.items (view caller.pass)
        (view result.pass) }
{
    for moment in moments {
        let clocked = tick_and_pump(rt, live, caller, moment);
        caller = clocked.caller;
    }
    caller
}
