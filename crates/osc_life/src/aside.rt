//! What is done with a token that only looks, while others play.
ghost use Rattle.std.specs.Prelude.{◌≡◌};
ghost use Rattle.osc_model.specs.Limits.{Limits};
ghost use Rattle.osc_turn.specs.declared.view.View.{View};
ghost use Rattle.osc_turn.specs.Passes.{view};
ghost use Rattle.osc_live.specs.Tokens.{IsOurs};
ghost use Rattle.osc_live.specs.Looks.{HasLooked};

use crate::desk::Desk;
use crate::gate::Gate;
use crate::progress::Progress;
use osc_live::Caller;
use osc_method::Method;
use std::sync::Wait;

/// What is done on the calling thread with a token that only looks, while others play, with a `Y`
/// that it is lent.
pub trait Aside<M: Method, Y> {
    /// The result of it.
    type End: Drop;

    /// This is its result, where what is lent was as the first and is as the second, of a server with
    /// these limits, and the token has seen this in the end.
    ghost looks: { Y → Y → Self.End → Limits → View → Type 0 };

    /// Looks until the work is over, or it gives up.
    fn look<W: Wait, G: Gate>(
        self,
        on: &mut Y,
        desk: &Desk<'_, M, W, G>,
        first: Caller,
        progress: &Progress,
    ) -> (Caller, Self::End)
        requires { IsOurs desk.now.live.now first }
        ensures ours { IsOurs desk.now.live.now result.0 }
        ensures number { result.0.number ≡ first.number }
        ensures looked { HasLooked (view first.pass) (view result.0.pass) }
        ensures looks { looks on.old on.new result.1 desk.now.live.now.caps
            (view result.0.pass) };
}
