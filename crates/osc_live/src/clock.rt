//! How the clock is set, and how what is due is released.
ghost use Rattle.std.specs.Prelude.{◌≡◌, IfOk, IfErr};
ghost use Rattle.osc_turn.specs.Passes.{view};
ghost use Rattle.osc_turn.specs.Answers.{FindsTwice};
ghost use Rattle.osc_model.specs.Events.{Answer, tick, release};
ghost use Rattle.osc_core.specs.Answers.{ticking_of, TellsRelease};
ghost use Rattle.osc_live.specs.Tokens.{IsOurs};
ghost use Rattle.osc_live.specs.Calls.{Calls, IsBusy};
ghost use Rattle.osc_live.specs.Pumps.{Pumps};

use crate::ask::Ask;
use crate::caller::Caller;
use crate::live::Live;
use crate::pumped::{PumpEnd, Pumped};
use crate::turns::Busy;
use osc_core::{Core, Releasing, Ticking};
use osc_method::Method;
use std::sync::Wait;
use std::thread;

impl<M: Method> Live<M> {
    /// Sets the clock to the moment, unless it is before the clock.
    pub fn tick<W: Wait>(&self, rt: &W, caller: Caller, now: u64) -> (Caller, Ticking)
        requires ours { IsOurs self.now caller }
        ensures ours { IsOurs self.now result.0 }
        ensures number { result.0.number ≡ caller.number }
        ensures call { Calls self.now.caps caller.number (tick now) (ticking_of result.1)
            (view caller.pass) (view result.0.pass) }
    {
        self.play(rt, caller, Tick { now })
    }

    /// Takes the unit that is least by due moment and number, if it is due, and makes its calls.
    pub fn release<W: Wait>(&self, rt: &W, caller: Caller) -> (Caller, Releasing)
        requires ours { IsOurs self.now caller }
        ensures ours { IsOurs self.now result.0 }
        ensures number { result.0.number ≡ caller.number }
        ensures call { (answer : Answer) × TellsRelease result.1 answer
            × Calls self.now.caps caller.number release answer (view caller.pass)
            (view result.0.pass) }
    {
        self.play(rt, caller, Release)
    }

    /// As `release`, if the turn is free: it takes one look at the turn, and tries once to take it.
    pub fn try_release(&self, caller: Caller) -> (Caller, Result<Releasing, Busy>)
        requires ours { IsOurs self.now caller }
        ensures ours { IsOurs self.now result.0 }
        ensures number { result.0.number ≡ caller.number }
        ensures call { IfOk result.1 (λ releasing. (answer : Answer) × TellsRelease releasing answer
            × Calls self.now.caps caller.number release answer (view caller.pass)
            (view result.0.pass)) }
        ensures words { IfOk result.1 (λ _. FindsTwice (view caller.pass) (view result.0.pass)) }
        ensures busy { IfErr result.1
            (λ busy. IsBusy busy.found (view caller.pass) (view result.0.pass)) }
    {
        self.try_play(caller, Release)
    }

    /// Releases until a release is answered otherwise.
    pub fn pump<W: Wait>(&self, rt: &W, caller: Caller) -> (Caller, Pumped)
        requires ours { IsOurs self.now caller }
        ensures ours { IsOurs self.now result.0 }
        ensures number { result.0.number ≡ caller.number }
        ensures calls { Pumps self.now.caps caller.number result.1 (view caller.pass)
            (view result.0.pass) }
    {
        let mut caller = caller;
        let mut released = 0;
        let mut calls = 0;
        for _ in rt.forever() {
            let (after, answer) = self.release(rt, caller);
            caller = after;
            match answer {
                Releasing::Released { calls: made, .. } => {
                    released += 1;
                    calls += u64::from(made);
                    offer_turn(released, made);
                }
                Releasing::NothingDue { next } => {
                    let end = PumpEnd::NothingDue { next };
                    return (
                        caller,
                        Pumped {
                            released,
                            calls,
                            end,
                        },
                    );
                }
                Releasing::RecordFull(room) => {
                    let end = PumpEnd::RecordFull(room);
                    return (
                        caller,
                        Pumped {
                            released,
                            calls,
                            end,
                        },
                    );
                }
            }
        }
        unreachable!()
    }
}

/// After so many releases of a pump, or after one with so many calls, the turn is offered to
/// whoever waits for it. To yield takes as long as a release with one call.
const OFFERED_AFTER: u32 = 8;

/// Offers the turn to whoever waits for it, after the release with this number, which made so many
/// calls.
fn offer_turn(released: u32, calls: u32) {
    if released % OFFERED_AFTER == 0 || calls >= OFFERED_AFTER {
        thread::yield_now();
    }
}

/// A moment that is handed in.
#[derive(Drop)]
struct Tick {
    now: u64,
}

impl<M: Method> Ask<M, Ticking> for Tick {
    ghost use Rattle.std.specs.Prelude.{◌≡◌};
    ghost use Rattle.osc_model.specs.Events.{tick};
    ghost use Rattle.osc_core.specs.Answers.{ticking_of};

    ghost event = { λ asked. tick asked.now };

    ghost says = { λ given answer. answer ≡ ticking_of given };

    ghost tells = { λ asked given caps after. Unit {0} };

    fn ask(self, caller: u32, core: &mut Core<M>) -> Ticking {
        core.tick(caller, self.now)
    }
}

/// A release that is asked for.
#[derive(Drop)]
struct Release;

impl<M: Method> Ask<M, Releasing> for Release {
    ghost use Rattle.std.specs.Prelude.{◌≡◌};
    ghost use Rattle.osc_model.specs.Events.{release};
    ghost use Rattle.osc_core.specs.Answers.{TellsRelease};

    ghost event = { λ asked. release };

    ghost says = { λ given answer. TellsRelease given answer };

    ghost tells = { λ asked given caps after. Unit {0} };

    fn ask(self, caller: u32, core: &mut Core<M>) -> Releasing {
        core.release(caller)
    }
}
