//! A method that takes another's place on a live server, whose box comes out with what it has heard.
ghost use Rattle.std.specs.Prelude.{◌≡◌};
ghost use Rattle.osc_turn.specs.Passes.{view};
ghost use Rattle.osc_turn.specs.History.{texts};
ghost use Rattle.osc_model.specs.History.{HasHeard, invoked_in};
ghost use Rattle.osc_core.specs.Answers.{removing_of, adding_of, OnRemoved, OnRefused};
ghost use Rattle.osc_live.specs.Seen.{performance_in};
ghost use Rattle.osc_live.specs.Tokens.{IsOurs};
ghost use Rattle.osc_uses.specs.LiveCalls.{Replaces};

use osc_core::{Adding, Removing};
use osc_live::{Caller, Live};
use osc_method::Method;
use osc_pattern::Address;
use std::sync::Wait;

/// What happened to two methods, of which the one takes the other's place.
#[derive(Drop)]
pub struct Replaced<M> {
    /// The one that was at the address: its id, and its box.
    pub removed: Removing<M>,
    /// The one that comes there: its id, or its box again.
    pub added: Adding<M>,
}

/// Removes the method at the address, if there is one, and adds this one there. Between the two calls another caller
/// may add a method at the address: then this one comes back.
pub fn replace<M: Method, W: Wait>(
    rt: &W,
    live: &Live<M>,
    caller: Caller,
    address: Address,
    method: M,
) -> (Caller, Replaced<M>)
    requires ours { IsOurs live.now caller }
    ensures ours { IsOurs live.now result.0 }
    ensures number { result.0.number ≡ caller.number }
    ensures calls { Replaces live.now.caps caller.number address (removing_of result.1.removed)
        (adding_of result.1.added) (λ between. OnRemoved result.1.removed (λ id method.
        HasHeard (invoked_in (performance_in live.now.caps (texts between.seen)))
        (record { id = id; keep = M.keep method; heard = M.heard method })))
        (view caller.pass) (view result.0.pass) }
    ensures handed_back { OnRefused result.1.added
        (λ back untouched. (back ≡ address) × (untouched ≡ method)) }
{
    let (caller, removed) = live.remove(rt, caller, &address);
    let (caller, added) = live.add(rt, caller, address, method);
    (caller, Replaced { removed, added })
}
