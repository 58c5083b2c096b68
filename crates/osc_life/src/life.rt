//! A server whose tokens are all at hand, and the result of its life.
ghost use Rattle.std.specs.Prelude.{◌≡◌, ◌+◌, List, [], length, All, IfOk};
ghost use Rattle.osc_model.specs.History.{Legal};
ghost use Rattle.osc_core.specs.Standing.{history_in};
ghost use Rattle.osc_turn.specs.declared.view.Entry.{Entry as Seen};
ghost use Rattle.osc_turn.specs.History.{own, texts};
ghost use Rattle.osc_turn.specs.Passes.{view};
ghost use Rattle.osc_live.specs.Closing.{known};
ghost use Rattle.osc_live.specs.Resuming.{all_resumed};
ghost use Rattle.osc_live.specs.Seen.{past_of};
ghost use Rattle.osc_live.specs.Tokens.{IsOurs};
ghost use Rattle.osc_model.specs.Enrolled.{callers_in};
ghost use Rattle.osc_life.specs.Crews.{IsLeft};
ghost use Rattle.osc_life.specs.Holders.{holder_at, seen_by};
ghost use Rattle.osc_life.specs.Whole.{IsWhole};

use crate::desk::Desk;
use crate::gate::Gate;
use crate::worker::{Done, Worker};
use osc_atoms::Room;
use osc_core::Closed;
use osc_live::{Caller, Live};
use osc_method::Method;
use osc_record::Caps;
use std::alloc::{AllocError, Global};
use std::sync::Wait;

/// A server, caller 0's token, and those of its other callers, who have done nothing.
#[derive(Drop)]
pub struct Life<M: Method> {
    pub(crate) alloc: Global,
    pub(crate) live: Live<M>,
    pub(crate) first: Caller,
    pub(crate) others: Vec<Caller>,
}

/// The results of the works.
#[derive(Drop)]
pub enum Played<P, E> {
    /// The result of each, in their order.
    Each(Vec<E>),
    /// There was this room, and too little, for the enrolment of a caller. No work was started, and
    /// all come back.
    NoRoom(Room, Vec<P>),
}

/// The result of a life.
#[derive(Drop)]
pub struct Lived<M, P, E, F> {
    /// The recording of the one history, and the methods that are registered at its end.
    pub closed: Closed<M>,
    pub works: Played<P, E>,
    /// How what went on meanwhile ended.
    pub end: F,
}

impl<M: Method> Life<M> {
    /// A new server with these limits. An `Err` means out of memory.
    pub fn open(alloc: Global, caps: Caps) -> Result<Life<M>, AllocError>
        ensures caps { IfOk result (λ life. life.live.caps ≡ caps) }
        ensures past { IfOk result (λ life. past_of life.live.turn ≡ []) }
        ensures alone { IfOk result (λ life. life.others.items ≡ []) }
        ensures whole { IfOk result IsWhole }
        ensures left { IfOk result (λ life. IsLeft (past_of life.live.turn) (view life.first.pass)
            life.others.items) }
    {
        let (live, first) = Live::open(alloc, caps)?;
        Ok(Life {
            alloc,
            live,
            first,
            others: Vec::new(alloc),
        })
    }

    /// A server that goes on from a recording; `callers` are the tokens that
    /// [`Live::resume`](osc_live::Live::resume) gave.
    pub fn resume(alloc: Global, live: Live<M>, mut callers: Vec<Caller>) -> Life<M>
        requires ours { All (IsOurs live) callers.items }
        requires legal { Legal live.caps (history_in (past_of live.turn)) }
        requires tokens { known callers.items ≡ all_resumed live.caps (past_of live.turn)
            (callers_in (history_in (past_of live.turn))) }
        ensures live { result.live ≡ live }
        ensures many { length callers.items ≡ 1 + length result.others.items }
        ensures whole { IsWhole result }
        ensures left { IsLeft (past_of live.turn) (view result.first.pass) result.others.items }
    {
        let first = callers.remove(0);
        Life {
            alloc,
            live,
            first,
            others: callers,
        }
    }

    /// The allocator that it was made with.
    pub fn alloc(&self) -> Global
        ensures { result ≡ self.now.alloc }
    {
        self.alloc
    }

    /// Plays a work as caller 0, before any caller is enrolled. An `Err` means out of memory.
    pub fn play_first<W: Wait, P: Worker<M>, G: Gate>(
        self,
        rt: &W,
        work: P,
        gate: &G,
    ) -> Result<(Life<M>, P::End), AllocError>
        requires whole { IsWhole self }
        requires ready { P.ready work }
        requires enrols_none { (end : P.End) (here there : List Seen)
            → P.plays work end (holder_at self.live.caps 0) here there → own 0 there ≡ there
            → (own 0 here ≡ here)
            × (callers_in (history_in (texts there)) ≡ callers_in (history_in (texts here))) }
        ensures live { IfOk result (λ both. both.0.live ≡ self.live) }
        ensures others { IfOk result (λ both. both.0.others ≡ self.others) }
        ensures whole { IfOk result (λ both. IsWhole both.0) }
        ensures played { IfOk result (λ both. P.plays work both.1 (holder_at self.live.caps 0)
            (seen_by self.first) (seen_by both.0.first)) }
    {
        let Life {
            alloc,
            live,
            first,
            others,
        } = self;
        let desk = Desk {
            rt,
            alloc,
            live: &live,
            gate,
        };
        let Done { caller, end } = work.work(&desk, first)?;
        let life = Life {
            alloc,
            live,
            first: caller,
            others,
        };
        Ok((life, end))
    }
}
