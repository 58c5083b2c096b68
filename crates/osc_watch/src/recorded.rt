//! A server whose recording is read while it grows; the server of many callers is one.
ghost use Rattle.std.specs.Prelude.{◌<◌, ◌+◌, ◌≡◌, ℕ, List};
ghost use Rattle.osc_turn.specs.declared.view.View.{View};
ghost use Rattle.osc_turn.specs.History.{StartsWith};
ghost use Rattle.osc_model.specs.Limits.{Limits};
ghost use Rattle.osc_model.specs.Events.{Entry};
ghost use Rattle.osc_model.specs.Recordings.{record_text};
ghost use Rattle.osc_record.specs.Reading.{IsRecord};
ghost use Rattle.osc_watch.specs.Parts.{Writes};
ghost use Rattle.osc_live.specs.Looks.{HasLooked};

use osc_live::{Caller, Live};
use osc_method::Method;
use std::sync::Wait;

/// What is read from a place on, by whoever has a token. A token knows in the proofs how much of the history it has
/// seen.
pub trait Recorded {
    type Token;

    ghost caps: { Self → Limits };

    /// The token is one of this server's.
    ghost ours: { Self → Self.Token → Type 0 };

    /// The beginning of the history that it has seen.
    ghost seen: { Self.Token → List Entry };

    /// How often it took the turn.
    ghost taken: { Self.Token → ℕ };

    /// The number of its caller.
    ghost number: { Self.Token → ℕ };

    /// All that it knows of the turn.
    ghost knows: { Self.Token → View };

    /// Writes the bytes of the recording from the place on, as many as there are and fit, and answers their number.
    fn read<W: Wait>(
        &self,
        rt: &W,
        token: Self::Token,
        from: u32,
        into: &mut [u8],
    ) -> (Self::Token, usize)
        requires { ours self.now token }
        ensures ours { ours self.now result.0 }
        ensures goes_on { StartsWith (seen result.0) (seen token) }
        ensures recorded { IsRecord (caps self.now) (seen result.0) }
        ensures writes { Writes (record_text (caps self.now) (seen result.0)) from into.old into.new
            result.1 }
        ensures taken { taken token < taken result.0 }
        ensures number { number result.0 ≡ number token }
        ensures looks { HasLooked (knows token) (knows result.0) };
}

impl<M: Method> Recorded for Live<M> {
    ghost use Rattle.osc_turn.specs.Passes.{view};
    ghost use Rattle.osc_live.specs.Seen.{history_of};
    ghost use Rattle.osc_live.specs.Tokens.{IsOurs};

    type Token = Caller;

    ghost caps = { λ live. live.caps };

    ghost ours = { λ live caller. IsOurs live caller };

    ghost seen = { λ caller. history_of (view caller.pass) };

    ghost taken = { λ caller. (view caller.pass).taken };

    ghost number = { λ caller. caller.number };

    ghost knows = { λ caller. view caller.pass };

    fn read<W: Wait>(&self, rt: &W, token: Caller, from: u32, into: &mut [u8]) -> (Caller, usize) {
        osc_model::laws::a_legal_history_is_recordable();
        Live::read(self, rt, token, from, into)
    }
}
