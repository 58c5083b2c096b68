//! How methods are added and removed.
ghost use Rattle.std.specs.Prelude.{◌≡◌};
ghost use Rattle.osc_turn.specs.History.{texts};
ghost use Rattle.osc_turn.specs.Passes.{view};
ghost use Rattle.osc_model.specs.Events.{add, remove};
ghost use Rattle.osc_model.specs.History.{HasHeard, invoked_in};
ghost use Rattle.osc_core.specs.Answers.{adding_of, removing_of, OnAdded, OnRefused, OnRemoved};
ghost use Rattle.osc_core.specs.Standing.{CarriesMark, mark_of};
ghost use Rattle.osc_live.specs.Seen.{performance_in};
ghost use Rattle.osc_live.specs.Tokens.{IsOurs};
ghost use Rattle.osc_live.specs.Calls.{Calls};

use crate::ask::Ask;
use crate::caller::Caller;
use crate::live::Live;
use osc_core::{Adding, Core, Removing};
use osc_method::Method;
use osc_pattern::Address;
use std::sync::Wait;

impl<M: Method> Live<M> {
    /// Adds a method at the address, and resets and keeps its box. A refusal hands both back.
    pub fn add<W: Wait>(
        &self,
        rt: &W,
        caller: Caller,
        address: Address,
        method: M,
    ) -> (Caller, Adding<M>)
        requires ours { IsOurs self.now caller }
        ensures ours { IsOurs self.now result.0 }
        ensures number { result.0.number ≡ caller.number }
        ensures call { Calls self.now.caps caller.number (add address) (adding_of result.1)
            (view caller.pass) (view result.0.pass) }
        ensures marked { OnAdded result.1 (λ id. CarriesMark (texts (view result.0.pass).seen) id
            (mark_of (record { id = id; keep = M.keep method; heard = M.heard method }))) }
        ensures handed_back { OnRefused result.1
            (λ back untouched. (back ≡ address) × (untouched ≡ method)) }
    {
        self.play(rt, caller, Add { address, method })
    }

    /// Removes the method at the address, and hands its box out with what it heard.
    pub fn remove<W: Wait>(
        &self,
        rt: &W,
        caller: Caller,
        address: &Address,
    ) -> (Caller, Removing<M>)
        requires ours { IsOurs self.now caller }
        ensures ours { IsOurs self.now result.0 }
        ensures number { result.0.number ≡ caller.number }
        ensures call { Calls self.now.caps caller.number (remove address.now) (removing_of result.1)
            (view caller.pass) (view result.0.pass) }
        ensures marked { OnRemoved result.1
            (λ id method. CarriesMark (texts (view result.0.pass).seen) id
            (mark_of (record { id = id; keep = M.keep method; heard = M.heard method }))) }
        ensures heard { OnRemoved result.1 (λ id method.
            HasHeard (invoked_in (performance_in self.now.caps (texts (view result.0.pass).seen)))
            (record { id = id; keep = M.keep method; heard = M.heard method })) }
    {
        self.play(rt, caller, Remove { address })
    }
}

/// A method that is handed in.
#[derive(Drop)]
struct Add<M> {
    address: Address,
    method: M,
}

impl<M: Method> Ask<M, Adding<M>> for Add<M> {
    ghost use Rattle.std.specs.Prelude.{◌≡◌};
    ghost use Rattle.osc_model.specs.Events.{add};
    ghost use Rattle.osc_core.specs.Answers.{adding_of, OnAdded, OnRefused};
    ghost use Rattle.osc_core.specs.Standing.{CarriesMark, mark_of};

    ghost event = { λ asked. add asked.address };

    ghost says = { λ given answer. answer ≡ adding_of given };

    ghost tells = { λ asked given caps after.
        OnAdded given
        (λ id. CarriesMark after id
        (mark_of (record { id = id; keep = M.keep asked.method; heard = M.heard asked.method })))
        × OnRefused given (λ address method. (address ≡ asked.address) × (method ≡ asked.method)) };

    fn ask(self, caller: u32, core: &mut Core<M>) -> Adding<M> {
        let Add { address, method } = self;
        core.add(caller, address, method)
    }
}

/// An address whose method is to be removed.
#[derive(Drop)]
struct Remove<'a> {
    address: &'a Address,
}

impl<'a, M: Method> Ask<M, Removing<M>> for Remove<'a> {
    ghost use Rattle.std.specs.Prelude.{◌≡◌};
    ghost use Rattle.osc_model.specs.Events.{remove};
    ghost use Rattle.osc_model.specs.History.{HasHeard, invoked_in};
    ghost use Rattle.osc_core.specs.Answers.{removing_of, OnRemoved};
    ghost use Rattle.osc_core.specs.Standing.{CarriesMark, mark_of};
    ghost use Rattle.osc_live.specs.Seen.{performance_in};

    ghost event = { λ asked. remove asked.address.now };

    ghost says = { λ given answer. answer ≡ removing_of given };

    ghost tells = { λ asked given caps after. OnRemoved given (λ id method.
        CarriesMark after id
        (mark_of (record { id = id; keep = M.keep method; heard = M.heard method }))
        × HasHeard (invoked_in (performance_in caps after))
        (record { id = id; keep = M.keep method; heard = M.heard method })) };

    fn ask(self, caller: u32, core: &mut Core<M>) -> Removing<M> {
        osc_model::laws::a_performance_goes_on();
        core.remove(caller, self.address)
    }
}
