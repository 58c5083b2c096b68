//! How a server is closed.
ghost use Rattle.std.specs.Prelude.{◌≡◌, ◌≢◌, ◌≤◌, ◌+◌, ◌++◌, length, map, All, OnOk, IfOk, IfErr};
ghost use Rattle.std.specs.Prelude.{vec_len, vec_capacity};
ghost use Rattle.osc_turn.specs.Passes.{view};
ghost use Rattle.osc_turn.specs.declared.limits.TheConstants.{MAX_PASSES};
ghost use Rattle.osc_core.specs.Telling.{told};
ghost use Rattle.osc_live.specs.Seen.{past_of};
ghost use Rattle.osc_live.specs.Tokens.{IsOurs, IsOurGuest};
ghost use Rattle.osc_live.specs.Outs.{TellsMade, AreOurs, live_back, callers_back, guests_back};
ghost use Rattle.osc_live.specs.Closing.{Closes, known, views_of, made_by, StartsAtZero};

use crate::caller::Caller;
use crate::guest::Guest;
use crate::live::Live;
use osc_core::Closed;
use osc_method::Method;
use osc_turn::Pass;
use std::alloc::Global;

/// Why a server isn't closed. It comes back, and with it the tokens that were handed in, as they
/// were and in their order.
#[derive(Drop)]
pub enum LiveOut<M: Method> {
    /// There is no memory for the list of passes.
    NoMemory {
        live: Live<M>,
        callers: Vec<Caller>,
        guests: Vec<Guest>,
    },
    /// Fewer or more tokens were handed in than were made.
    StillOut {
        made: u32,
        handed: u32,
        live: Live<M>,
        callers: Vec<Caller>,
        guests: Vec<Guest>,
    },
}

impl<M: Method> Live<M> {
    /// How many tokens were made, as caller 0 knows.
    fn count(&self, caller: Caller) -> (Caller, u32)
        requires ours { IsOurs self.now caller }
        requires first { caller.number ≡ 0 }
        ensures ours { IsOurs self.now result.0 }
        ensures number { result.0.number ≡ caller.number }
        ensures same { view result.0.pass ≡ view caller.pass }
        ensures made { result.1 ≡ (view caller.pass).made }
    {
        let Caller { pass, number } = caller;
        let (pass, made) = self.turn.made(pass);
        (Caller { pass, number }, made)
    }

    /// Ends the server where all tokens that were made are handed in, caller 0 in the first place,
    /// and hands out its recording, and its boxes with what they heard.
    pub fn close(
        self,
        alloc: Global,
        mut callers: Vec<Caller>,
        guests: Vec<Guest>,
    ) -> Result<Closed<M>, LiveOut<M>>
        requires callers_ours { All (IsOurs self) callers.items }
        requires guests_ours { All (IsOurGuest self) guests.items }
        requires first { StartsAtZero callers.items }
        requires few { length callers.items + length guests.items ≤ MAX_PASSES }
        ensures all_in { OnOk result
            (made_by callers.items ≡ length callers.items + length guests.items) }
        ensures closes { IfOk result
            (λ closed. Closes self.caps (past_of self.turn) (known callers.items)
            (views_of callers.items guests.items) closed.bytes.items
            (told M.keep M.heard closed.kept.items)) }
        ensures made { IfErr result (λ out. TellsMade out callers.items guests.items) }
        ensures live_back { IfErr result (λ out. live_back out ≡ self) }
        ensures callers_back { IfErr result
            (λ out. known (callers_back out) ≡ known callers.items) }
        ensures back_ours { IfErr result (λ out. AreOurs out self.caps) }
        ensures guests_back { IfErr result (λ out. guests_back out ≡ guests.items) }
    {
        osc_record::laws::headers_differ();
        let _ = self.caps.units();
        let handed = (callers.len() + guests.len()) as u32;
        let Ok(mut passes) = Vec::with_capacity(alloc, handed as usize) else {
            return Err(LiveOut::NoMemory {
                live: self,
                callers,
                guests,
            });
        };
        let (first, made) = self.count(callers.remove(0));
        let Ok(()) = callers.insert(0, first) else {
            unreachable!()
        };
        if made != handed {
            return Err(LiveOut::StillOut {
                made,
                handed,
                live: self,
                callers,
                guests,
            });
        }
        hand_callers(&mut passes, callers);
        hand_guests(&mut passes, guests);
        let Live { turn, .. } = self;
        match turn.close(passes) {
            Ok(core) => Ok(core.close()),
            Err(_) => unreachable!(),
        }
    }
}

/// Adds the passes of the callers, in room that is there.
fn hand_callers(passes: &mut Vec<Pass>, callers: Vec<Caller>)
    requires { vec_len passes.old + vec_len callers ≤ vec_capacity passes.old }
    ensures items { passes.new.items
        ≡ passes.old.items ++ map (λ caller. caller.pass) callers.items }
    ensures capacity { vec_capacity passes.new ≡ vec_capacity passes.old }
{
    for caller in callers {
        let Caller { pass, .. } = caller;
        passes.push_reserved(pass);
    }
}

/// Adds the passes of the guests, in room that is there.
fn hand_guests(passes: &mut Vec<Pass>, guests: Vec<Guest>)
    requires { vec_len passes.old + vec_len guests ≤ vec_capacity passes.old }
    ensures items { passes.new.items ≡ passes.old.items ++ map (λ guest. guest.pass) guests.items }
{
    for guest in guests {
        let Guest { pass } = guest;
        passes.push_reserved(pass);
    }
}
