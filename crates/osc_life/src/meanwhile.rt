//! What goes on while workers play.
ghost use Rattle.std.specs.Prelude.{◌≡◌, ℕ, List};
ghost use Rattle.osc_turn.specs.declared.view.Entry.{Entry as Seen};
ghost use Rattle.osc_turn.specs.declared.view.View.{View};
ghost use Rattle.osc_life.specs.Holders.{Holder};
ghost use Rattle.osc_life.specs.Works.{CanGoOn, CanEnd, PlaysOn, Ends};

use crate::desk::Desk;
use crate::gate::Gate;
use crate::worker::Done;
use osc_live::Caller;
use osc_method::Method;
use std::sync::Wait;

/// What goes on round by round, under a token of its own, with an `X` that it is lent.
pub trait Meanwhile<M: Method, X> {
    /// How it ends.
    type End: Send + Drop;

    /// Rounds were played: what is lent was as the first and is as the second, it stands here, and
    /// the token of this holder knew the first of these and knows the second.
    ghost rounds: { X → X → Self → Holder → View → View → Type 0 };

    /// Rounds were played, and the last one after all that these tokens have seen; and it ended so.
    ghost ends: { X → X → Self.End → Holder → List (List Seen) → View → View → Type 0 };

    /// Plays a round. It has ended where this answers `false`.
    fn round<W: Wait, G: Gate>(
        &mut self,
        on: &mut X,
        desk: &Desk<'_, M, W, G>,
        caller: Caller,
    ) -> (Caller, bool)
        requires { CanGoOn desk.now.live.now rounds on.old self.old caller }
        ensures { PlaysOn desk.now.live.now rounds on.old on.new self.old self.new caller
            result.0 };

    /// Plays the last round, after all that the workers have done, unless it has ended.
    fn last<W: Wait, G: Gate>(
        self,
        on: &mut X,
        desk: &Desk<'_, M, W, G>,
        caller: Caller,
    ) -> Done<Self::End>
        requires { CanEnd desk.now.live.now rounds on.old self caller }
        ensures { Ends desk.now.live.now rounds ends on.old on.new self result.end caller
            result.caller };
}
