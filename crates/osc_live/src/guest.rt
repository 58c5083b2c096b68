//! Guests, and how they are enrolled.
ghost use Rattle.std.specs.Prelude.{◌≡◌, []};
ghost use Rattle.osc_turn.specs.History.{own};
ghost use Rattle.osc_turn.specs.Rule.{number_of};
ghost use Rattle.osc_turn.specs.Passes.{view};

use crate::ask::Ask;
use crate::caller::Caller;
use crate::live::Live;
use osc_atoms::Room;
use osc_core::{Core, Enrolled};
use osc_method::Method;
use osc_turn::{GuestRefusal, Pass};
use std::sync::Wait;

/// The token of a guest. It has no entries of its own. One that is dropped can't be handed in, so
/// its server is never closed.
#[derive(Drop)]
pub struct Guest {
    pub(crate) pass: Pass,
    ghost none_own: { own (number_of (view pass)) (view pass).seen ≡ [] },
}

/// Why a guest isn't enrolled.
#[derive(Clone, Copy, Debug, PartialEq, Eq)]
pub enum EnrolRefusal {
    /// The entry has more bytes than the recording has left.
    RecordFull(Room),
    /// There are as many callers as there may be.
    CallersFull,
}

impl<M: Method> Live<M> {
    ghost use Rattle.std.specs.Prelude.{◌≡◌, ◌<◌, [], OnOk, OnErr, IfOk, IfErr};
    ghost use Rattle.osc_turn.specs.History.{StartsWith, own};
    ghost use Rattle.osc_turn.specs.Rule.{number_of};
    ghost use Rattle.osc_turn.specs.Passes.{view, one_more, guest_of};
    ghost use Rattle.osc_turn.specs.declared.limits.TheConstants.{MAX_PASSES};
    ghost use Rattle.osc_model.specs.Events.{enrol};
    ghost use Rattle.osc_live.specs.Tokens.{IsOurs, IsOurGuest};
    ghost use Rattle.osc_live.specs.Calls.{Calls};
    ghost use Rattle.osc_live.specs.Enrolments.{enrolment_of};

    /// A guest's token. It has seen what caller 0 has seen, and has no entries of its own.
    pub fn guest(&self, caller: Caller) -> (Caller, Result<Guest, GuestRefusal>)
        requires ours { IsOurs self.now caller }
        requires first { caller.number ≡ 0 }
        ensures ours { IsOurs self.now result.0 }
        ensures number { result.0.number ≡ caller.number }
        ensures guest_ours { IfOk result.1 (IsOurGuest self.now) }
        ensures guest { IfOk result.1 (λ guest. view guest.pass ≡ guest_of (view caller.pass)) }
        ensures no_entries { IfOk result.1
            (λ guest. own (number_of (view guest.pass)) (view guest.pass).seen ≡ []) }
        ensures room { OnOk result.1 ((view caller.pass).made < MAX_PASSES) }
        ensures made { OnOk result.1 (view result.0.pass ≡ one_more (view caller.pass)) }
        ensures full { IfErr result.1 (λ refusal.
            ((view caller.pass).made ≡ MAX_PASSES) × (refusal ≡ GuestRefusal.Full MAX_PASSES)) }
        ensures none_made { OnErr result.1 (view result.0.pass ≡ view caller.pass) }
    {
        let Caller { pass, number } = caller;
        match self.turn.guest(pass) {
            (pass, Ok(guest)) => (Caller { pass, number }, Ok(Guest { pass: guest })),
            (pass, Err(refusal)) => (Caller { pass, number }, Err(refusal)),
        }
    }

    /// Enrols a guest, who gets the number of callers so far. The enrolment stands after all that
    /// caller and guest had seen, and the new caller has seen it.
    pub fn enrol<W: Wait>(
        &self,
        rt: &W,
        caller: Caller,
        guest: Guest,
    ) -> (Caller, Result<Caller, (EnrolRefusal, Guest)>)
        requires ours { IsOurs self.now caller }
        requires guest_ours { IsOurGuest self.now guest }
        ensures ours { IsOurs self.now result.0 }
        ensures number { result.0.number ≡ caller.number }
        ensures call { Calls self.now.caps caller.number enrol (enrolment_of result.1)
            (view caller.pass) (view result.0.pass) }
        ensures told { StartsWith (view result.0.pass).seen (view guest.pass).seen }
        ensures new_ours { IfOk result.1 (IsOurs self.now) }
        ensures new_number { IfOk result.1
            (λ new. number_of (view new.pass) ≡ number_of (view guest.pass)) }
        ensures new_seen { IfOk result.1 (λ new. (view new.pass).seen ≡ (view result.0.pass).seen) }
        ensures no_entries { IfOk result.1
            (λ new. own (number_of (view new.pass)) (view new.pass).seen ≡ []) }
        ensures guest_back { IfErr result.1 (λ refused. view refused.1.pass ≡ view guest.pass) }
        ensures back_ours { IfErr result.1 (λ refused. IsOurGuest self.now refused.1) }
    {
        osc_model::laws::callers_are_counted();
        let Caller { pass, number } = caller;
        let Guest { pass: guest } = guest;
        let (guest, pass) = self.turn.meet(guest, pass);
        let (caller, answer) = self.play(rt, Caller { pass, number }, Enrol);
        let Caller { pass, number } = caller;
        match answer {
            Enrolled::Number(given) => {
                let (pass, guest) = self.turn.meet(pass, guest);
                let new = Caller {
                    pass: guest,
                    number: given,
                };
                (Caller { pass, number }, Ok(new))
            }
            Enrolled::RecordFull(room) => {
                let refusal = EnrolRefusal::RecordFull(room);
                (
                    Caller { pass, number },
                    Err((refusal, Guest { pass: guest })),
                )
            }
            Enrolled::CallersFull => {
                let refusal = EnrolRefusal::CallersFull;
                (
                    Caller { pass, number },
                    Err((refusal, Guest { pass: guest })),
                )
            }
        }
    }
}

/// An enrolment that is asked for.
#[derive(Drop)]
struct Enrol;

impl<M: Method> Ask<M, Enrolled> for Enrol {
    ghost use Rattle.std.specs.Prelude.{◌≡◌};
    ghost use Rattle.osc_model.specs.Events.{enrol};
    ghost use Rattle.osc_core.specs.Answers.{enrolled_of};

    ghost event = { λ asked. enrol };

    ghost says = { λ given answer. answer ≡ enrolled_of given };

    ghost tells = { λ asked given caps after. Unit {0} };

    fn ask(self, caller: u32, core: &mut Core<M>) -> Enrolled {
        core.enrol(caller)
    }
}
