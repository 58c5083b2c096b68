//! Packets that are handed in, and what they are answered.
ghost use Rattle.std.specs.Prelude.{◌≡◌, IfOk, IfErr};
ghost use Rattle.osc_turn.specs.History.{texts};
ghost use Rattle.osc_turn.specs.Passes.{view};
ghost use Rattle.osc_turn.specs.Answers.{FindsTwice};
ghost use Rattle.osc_model.specs.Events.{submit};
ghost use Rattle.osc_core.specs.Answers.{submitted_of};
ghost use Rattle.osc_live.specs.Tokens.{IsOurs};
ghost use Rattle.osc_live.specs.Calls.{Calls, IsBusy};
ghost use Rattle.osc_live.specs.Seen.{clock_in};

use crate::ask::Ask;
use crate::caller::Caller;
use crate::live::Live;
use crate::turns::Busy;
use osc_core::{Core, Submitted};
use osc_method::Method;
use osc_packet::Packet;
use std::sync::Wait;

/// What a submit was answered, and where the server's clock stood then: a unit is late whose tag is
/// before it.
#[derive(Clone, Copy, Debug, PartialEq, Eq)]
pub struct Submission {
    pub answer: Submitted,
    /// In the form of a time tag.
    pub clock: u64,
}

impl<M: Method> Live<M> {
    /// Queues the packet's units, numbered in their order.
    pub fn submit<W: Wait>(
        &self,
        rt: &W,
        caller: Caller,
        packet: &Packet<'_>,
    ) -> (Caller, Submitted)
        requires ours { IsOurs self.now caller }
        ensures ours { IsOurs self.now result.0 }
        ensures number { result.0.number ≡ caller.number }
        ensures call { Calls self.now.caps caller.number (submit packet.now) (submitted_of result.1)
            (view caller.pass) (view result.0.pass) }
    {
        self.play(rt, caller, Submit { packet })
    }

    /// As `submit`, and tells where the server's clock stood. So the caller knows which of the
    /// packet's units are late.
    pub fn submit_clocked<W: Wait>(
        &self,
        rt: &W,
        caller: Caller,
        packet: &Packet<'_>,
    ) -> (Caller, Submission)
        requires ours { IsOurs self.now caller }
        ensures ours { IsOurs self.now result.0 }
        ensures number { result.0.number ≡ caller.number }
        ensures call { Calls self.now.caps caller.number (submit packet.now)
            (submitted_of result.1.answer) (view caller.pass) (view result.0.pass) }
        ensures clock { result.1.clock
            ≡ clock_in self.now.caps (texts (view result.0.pass).seen) }
    {
        self.play(rt, caller, ClockedSubmit { packet })
    }

    /// As `submit`, if the turn is free: it takes one look at the turn, and tries once to take it.
    pub fn try_submit(
        &self,
        caller: Caller,
        packet: &Packet<'_>,
    ) -> (Caller, Result<Submitted, Busy>)
        requires ours { IsOurs self.now caller }
        ensures ours { IsOurs self.now result.0 }
        ensures number { result.0.number ≡ caller.number }
        ensures call { IfOk result.1
            (λ submitted. Calls self.now.caps caller.number (submit packet.now)
            (submitted_of submitted) (view caller.pass) (view result.0.pass)) }
        ensures words { IfOk result.1 (λ _. FindsTwice (view caller.pass) (view result.0.pass)) }
        ensures busy { IfErr result.1
            (λ busy. IsBusy busy.found (view caller.pass) (view result.0.pass)) }
    {
        self.try_play(caller, Submit { packet })
    }
}

/// A packet that is handed in.
#[derive(Drop)]
struct Submit<'a> {
    packet: &'a Packet<'a>,
}

impl<'a, M: Method> Ask<M, Submitted> for Submit<'a> {
    ghost use Rattle.std.specs.Prelude.{◌≡◌};
    ghost use Rattle.osc_model.specs.Events.{submit};
    ghost use Rattle.osc_core.specs.Answers.{submitted_of};

    ghost event = { λ asked. submit asked.packet.now };

    ghost says = { λ given answer. answer ≡ submitted_of given };

    ghost tells = { λ asked given caps after. Unit {0} };

    fn ask(self, caller: u32, core: &mut Core<M>) -> Submitted {
        core.submit(caller, self.packet)
    }
}

/// A packet that is handed in by whoever wants to know the clock, too.
#[derive(Drop)]
struct ClockedSubmit<'a> {
    packet: &'a Packet<'a>,
}

impl<'a, M: Method> Ask<M, Submission> for ClockedSubmit<'a> {
    ghost use Rattle.std.specs.Prelude.{◌≡◌};
    ghost use Rattle.osc_model.specs.Events.{submit};
    ghost use Rattle.osc_core.specs.Answers.{submitted_of};
    ghost use Rattle.osc_live.specs.Seen.{clock_in};

    ghost event = { λ asked. submit asked.packet.now };

    ghost says = { λ given answer. answer ≡ submitted_of given.answer };

    ghost tells = { λ asked given caps after. given.clock ≡ clock_in caps after };

    fn ask(self, caller: u32, core: &mut Core<M>) -> Submission {
        let answer = core.submit(caller, self.packet);
        let clock = core.clock();
        Submission { answer, clock }
    }
}
