// How an event is played by whoever holds the turn.
ghost use Rattle.std.specs.Prelude.{◌≡◌, ◌<◌};
ghost use Rattle.osc_turn.specs.Passes.{view};
ghost use Rattle.osc_model.specs.Enrolled.{callers_in};
ghost use Rattle.osc_live.specs.Seen.{history_of};

use crate::ask::Ask;
use osc_core::Core;
use osc_method::Method;
use osc_record::Caps;
use osc_turn::{Job, Pass};
use std::snapshot::Snapshot;

/// A caller of a server with these limits, and its pass as it was before it asked.
#[derive(Drop)]
pub(crate) struct Asking {
    pub(crate) was: Snapshot<Pass>,
    pub(crate) caller: u32,
    pub(crate) caps: Caps,
    ghost enrolled: { caller < callers_in (history_of (view was.value)) },
}

impl Asking {
    pub(crate) fn new(pass: &Pass, caller: u32, caps: Caps) -> Asking
        requires { caller < callers_in (history_of (view pass.now)) }
        ensures was { result.was.value ≡ pass.now }
        ensures caller { result.caller ≡ caller }
        ensures caps { result.caps ≡ caps }
    {
        Asking {
            was: Snapshot::of(pass),
            caller,
            caps,
        }
    }
}

/// What a caller asks, until it is played, and what it is answered then.
#[derive(Drop)]
pub(crate) struct Playing<A, B> {
    pub(crate) asking: Asking,
    pub(crate) asked: Option<A>,
    pub(crate) answer: Option<B>,
}

impl<M: Method, B: Drop, A: Ask<M, B> + Drop> Job<Core<M>> for Playing<A, B> {
    ghost use Rattle.osc_turn.specs.History.{texts};
    ghost use Rattle.osc_turn.specs.Passes.{view};
    ghost use Rattle.osc_model.specs.Recordings.{header_text};
    ghost use Rattle.osc_live.specs.Asked.{Did};

    ghost base_kind = { λ job. header_text job.asking.caps };

    ghost base = { λ job. texts (view job.asking.was.value).seen };

    ghost did = { λ old new before after.
        Did A.event A.says A.tells old.asking.caps old.asking.caller old.asked new.answer before
        after };

    fn run(&mut self, state: &mut Core<M>) -> bool {
        osc_model::laws::callers_are_counted();
        osc_record::laws::headers_differ();
        // Limits are in their ranges, as each of them tells.
        let _ = self.asking.caps.units();
        let caller = self.asking.caller;
        let Some(asked) = self.asked.take() else {
            return false;
        };
        let entries = state.entries();
        let answer = asked.ask(caller, state);
        let _ = self.answer.replace(answer);
        state.entries() > entries
    }
}
