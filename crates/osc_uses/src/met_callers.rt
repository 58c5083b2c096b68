//! Two callers that meet, so that what the one does comes after what the other has seen.
ghost use Rattle.std.specs.Prelude.{◌≡◌};
ghost use Rattle.osc_turn.specs.Passes.{view};
ghost use Rattle.osc_live.specs.Tokens.{IsOurs};
ghost use Rattle.osc_uses.specs.LiveCalls.{PumpsAfter};

use osc_live::{Caller, Live, Pumped};
use osc_method::Method;
use std::sync::Wait;

/// Releases what is due, after all that the other caller has seen: so after each packet that it was told is queued.
pub fn pump_after<M: Method, W: Wait>(
    rt: &W,
    live: &Live<M>,
    caller: Caller,
    other: Caller,
) -> (Caller, Caller, Pumped)
    requires ours { IsOurs live.now caller }
    requires other_ours { IsOurs live.now other }
    ensures ours { IsOurs live.now result.0 }
    ensures other_ours { IsOurs live.now result.1 }
    ensures numbers { (result.0.number ≡ caller.number) × (result.1.number ≡ other.number) }
    ensures other { view result.1.pass ≡ view other.pass }
    ensures after { PumpsAfter live.now.caps caller.number result.2
        (view other.pass) (view caller.pass) (view result.0.pass) }
{
    let (other, caller) = live.meet(other, caller);
    let (caller, pumped) = live.pump(rt, caller);
    (caller, other, pumped)
}
