//! The server that callers share.
ghost use Rattle.std.specs.Prelude.{◌≡◌, [], IfOk};
ghost use Rattle.osc_turn.specs.Rule.{opening};
ghost use Rattle.osc_turn.specs.Passes.{view};
ghost use Rattle.osc_model.specs.Recordings.{header_text};
ghost use Rattle.osc_live.specs.Seen.{past_of};
ghost use Rattle.osc_live.specs.Tokens.{IsOurs};
ghost use Rattle.osc_live.specs.Calls.{Looks};

use crate::caller::Caller;
use osc_core::Core;
use osc_method::Method;
use osc_record::Caps;
use osc_turn::Turn;
use std::alloc::{AllocError, Global};

/// A server that any number of threads call, one event at a time.
#[derive(Drop)]
pub struct Live<M: Method> {
    pub(crate) turn: Turn<Core<M>>,
    pub(crate) caps: Caps,
}

impl<M: Method> Live<M> {
    /// A server with these limits, and the token of caller 0. The `Err` means that there is no
    /// memory for it.
    pub fn open(alloc: Global, caps: Caps) -> Result<(Live<M>, Caller), AllocError>
        ensures limits { IfOk result (λ opened. opened.0.caps ≡ caps) }
        ensures ours { IfOk result (λ opened. IsOurs opened.0 opened.1) }
        ensures empty { IfOk result (λ opened. past_of opened.0.turn ≡ []) }
        ensures number { IfOk result (λ opened. opened.1.number ≡ 0) }
        ensures first { IfOk result (λ opened. view opened.1.pass ≡ opening (header_text caps)) }
    {
        let core = Core::open(alloc, caps)?;
        match Turn::open(alloc, core) {
            Ok((turn, pass)) => Ok((Live { turn, caps }, Caller { pass, number: 0 })),
            Err((none, _)) => Err(none),
        }
    }

    /// The number of entries that the caller has then seen, by one look at the turn.
    pub fn front(&self, caller: Caller) -> (Caller, u64)
        requires ours { IsOurs self.now caller }
        ensures ours { IsOurs self.now result.0 }
        ensures number { result.0.number ≡ caller.number }
        ensures look { Looks result.1 (view caller.pass) (view result.0.pass) }
    {
        osc_model::laws::callers_are_counted();
        let Caller { pass, number } = caller;
        let (pass, entries) = self.turn.front(pass);
        (Caller { pass, number }, entries)
    }
}
