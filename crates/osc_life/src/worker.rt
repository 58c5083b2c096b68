//! What is played under a caller.
ghost use Rattle.std.specs.Prelude.{◌≡◌, ℕ, List, IfOk};
ghost use Rattle.osc_turn.specs.declared.view.Entry.{Entry as Seen};
ghost use Rattle.osc_live.specs.Tokens.{IsOurs};
ghost use Rattle.osc_life.specs.Holders.{Holder};
ghost use Rattle.osc_life.specs.Works.{IsDone};

use crate::desk::Desk;
use crate::gate::Gate;
use osc_live::Caller;
use osc_method::Method;
use std::alloc::AllocError;
use std::sync::Wait;

/// A work, and the token under which it is played.
#[derive(Drop)]
pub struct Job<P> {
    pub caller: Caller,
    pub work: P,
}

/// The token under which a work was played, and the result of the work.
#[derive(Drop)]
pub struct Done<E> {
    pub caller: Caller,
    pub end: E,
}

/// What a worker plays under its caller, on a server whose methods are `M`.
pub trait Worker<M: Method> {
    /// Its result.
    type End: Send + Drop;

    /// It can be played.
    ghost ready: { Self → Type 0 };

    /// It is played by the holder of a token between two places of the history, with this result.
    ghost plays: { Self → Self.End → Holder → List Seen → List Seen → Type 0 };

    /// Plays it. An `Err` means out of memory.
    fn work<W: Wait, G: Gate>(
        self,
        desk: &Desk<'_, M, W, G>,
        caller: Caller,
    ) -> Result<Done<Self::End>, AllocError>
        requires ours { IsOurs desk.now.live.now caller }
        requires ready { ready self }
        ensures ours { IfOk result (λ done. IsOurs desk.now.live.now done.caller) }
        ensures done { IfOk result (λ done. IsDone plays desk.now.live.now.caps
            (record { caller = caller; work = self }) done) };
}
