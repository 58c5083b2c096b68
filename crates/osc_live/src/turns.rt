//! How a caller's event is played in its turn.
ghost use Rattle.std.specs.Prelude.{◌≡◌, IfOk, IfErr};
ghost use Rattle.osc_turn.specs.History.{texts};
ghost use Rattle.osc_turn.specs.Passes.{view};
ghost use Rattle.osc_turn.specs.Answers.{FindsTwice};
ghost use Rattle.osc_model.specs.Events.{Answer};
ghost use Rattle.osc_live.specs.Tokens.{IsOurs};
ghost use Rattle.osc_live.specs.Calls.{Calls, IsBusy};

use crate::ask::Ask;
use crate::caller::Caller;
use crate::live::Live;
use crate::play::{Asking, Playing};
use osc_method::Method;
use osc_turn::Tried;
use std::sync::Wait;

/// Another call had the turn, or took it first.
#[derive(Clone, Copy, PartialEq, Eq, Debug)]
pub struct Busy {
    /// The turn's word that was found last.
    pub found: u64,
}

impl<M: Method> Live<M> {
    /// Waits for the turn, and plays the event.
    pub(crate) fn play<B: Drop, A: Ask<M, B> + Drop, W: Wait>(
        &self,
        rt: &W,
        caller: Caller,
        asked: A,
    ) -> (Caller, B)
        requires ours { IsOurs self.now caller }
        ensures ours { IsOurs self.now result.0 }
        ensures number { result.0.number ≡ caller.number }
        ensures call { (answer : Answer) × A.says result.1 answer
            × Calls self.now.caps caller.number (A.event asked) answer (view caller.pass)
            (view result.0.pass) }
        ensures tells { A.tells asked result.1 self.now.caps (texts (view result.0.pass).seen) }
    {
        osc_model::laws::callers_are_counted();
        let Caller { pass, number } = caller;
        let mut job = Playing {
            asking: Asking::new(&pass, number, self.caps),
            asked: Some(asked),
            answer: None,
        };
        let (pass, _) = self.turn.act(rt, pass, &mut job);
        let Playing { answer, .. } = job;
        let Some(answer) = answer else { unreachable!() };
        (Caller { pass, number }, answer)
    }

    /// Plays the event if the turn is free.
    pub(crate) fn try_play<B: Drop, A: Ask<M, B> + Drop>(
        &self,
        caller: Caller,
        asked: A,
    ) -> (Caller, Result<B, Busy>)
        requires ours { IsOurs self.now caller }
        ensures ours { IsOurs self.now result.0 }
        ensures number { result.0.number ≡ caller.number }
        ensures call { IfOk result.1 (λ given. (answer : Answer) × A.says given answer
            × Calls self.now.caps caller.number (A.event asked) answer (view caller.pass)
            (view result.0.pass)) }
        ensures words { IfOk result.1 (λ _. FindsTwice (view caller.pass) (view result.0.pass)) }
        ensures busy { IfErr result.1
            (λ busy. IsBusy busy.found (view caller.pass) (view result.0.pass)) }
    {
        osc_model::laws::callers_are_counted();
        let Caller { pass, number } = caller;
        let mut job = Playing {
            asking: Asking::new(&pass, number, self.caps),
            asked: Some(asked),
            answer: None,
        };
        let (pass, tried) = self.turn.try_act(pass, &mut job);
        match tried {
            Tried::Done(_) => {
                let Playing { answer, .. } = job;
                let Some(answer) = answer else { unreachable!() };
                (Caller { pass, number }, Ok(answer))
            }
            Tried::Busy { found } => (Caller { pass, number }, Err(Busy { found })),
        }
    }
}
