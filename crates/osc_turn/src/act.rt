//! The calls that take the turn, and the one that only looks at it.
ghost use Rattle.std.specs.Prelude.{◌≡◌, ℕ, ◌/◌, List, [], ◌∷◌, ◌++◌, length};
ghost use Rattle.osc_turn.specs.History.{StartsWith, texts};
ghost use Rattle.osc_turn.specs.Passes.{view, IsPassOf};
ghost use Rattle.osc_turn.specs.Answers.{IfDone, IfBusy, TakesOnce, TakesNone, FindsFree};
ghost use Rattle.osc_turn.specs.Answers.{FindsTwice, FindsTaken, AddsOwn, KeepsOwn, Ran};

use crate::job::{Job, Kept};
use crate::pass::Pass;
use crate::tried::Tried;
use crate::turn::Turn;
use std::sync::Wait;
use std::thread;

impl<S: Kept> Turn<S> {
    /// Waits for the turn, runs the job once and gives the turn back. Answers whether the job added an entry.
    pub fn act<J: Job<S>, W: Wait>(&self, rt: &W, pass: Pass, job: &mut J) -> (Pass, bool)
        requires ours { IsPassOf self.now pass }
        requires kind { J.base_kind job.old ≡ (view pass).kind }
        requires base { StartsWith (texts (view pass).seen) (J.base job.old) }
        ensures ours { IsPassOf self.now result.0 }
        ensures seen { StartsWith (view result.0).seen (view pass).seen }
        ensures once { TakesOnce (view pass) (view result.0) }
        ensures counted { FindsFree result.1 (view pass) (view result.0) }
        ensures entries { AddsOwn result.1 (view pass) (view result.0) }
        ensures ran { Ran J.did job.old job.new result.1 (view pass) (view result.0) }
    {
        let mut seat = pass.into_seat::<S>();
        for _ in rt.forever() {
            let word = self.look(&mut seat);
            if word % 2 == 0 && self.take(&mut seat, word) == word {
                let ran = self.run(&mut seat, word, job);
                return (Pass::of(seat), ran);
            }
            thread::yield_now();
        }
        unreachable!()
    }

    /// Runs the job once if the turn is free, by one load of the turn's word and at most one compare and exchange.
    pub fn try_act<J: Job<S>>(&self, pass: Pass, job: &mut J) -> (Pass, Tried)
        requires ours { IsPassOf self.now pass }
        requires kind { J.base_kind job.old ≡ (view pass).kind }
        requires base { StartsWith (texts (view pass).seen) (J.base job.old) }
        ensures ours { IsPassOf self.now result.0 }
        ensures seen { StartsWith (view result.0).seen (view pass).seen }
        ensures once { IfDone result.1 (λ _. TakesOnce (view pass) (view result.0)) }
        ensures counted { IfDone result.1 (λ ran. FindsFree ran (view pass) (view result.0)) }
        ensures words { IfDone result.1 (λ _. FindsTwice (view pass) (view result.0)) }
        ensures entries { IfDone result.1 (λ ran. AddsOwn ran (view pass) (view result.0)) }
        ensures ran { IfDone result.1
            (λ ran. Ran J.did job.old job.new ran (view pass) (view result.0)) }
        ensures not_run { IfBusy result.1 (λ _. job.new ≡ job.old) }
        ensures not_taken { IfBusy result.1 (λ _. TakesNone (view pass) (view result.0)) }
        ensures found { IfBusy result.1 (λ found. FindsTaken found (view pass) (view result.0)) }
        ensures then_seen { IfBusy result.1 (λ found. length (view result.0).seen ≡ found / 2) }
        ensures none_added { IfBusy result.1 (λ _. KeepsOwn (view pass) (view result.0)) }
    {
        let mut seat = pass.into_seat::<S>();
        let word = self.look(&mut seat);
        if word % 2 == 1 {
            return (Pass::of(seat), Tried::Busy { found: word });
        }
        let found = self.take(&mut seat, word);
        if found != word {
            return (Pass::of(seat), Tried::Busy { found });
        }
        let ran = self.run(&mut seat, word, job);
        (Pass::of(seat), Tried::Done(ran))
    }

    /// The number of entries that the pass has then seen, by one load of the turn's word.
    pub fn front(&self, pass: Pass) -> (Pass, u64)
        requires ours { IsPassOf self.now pass }
        ensures ours { IsPassOf self.now result.0 }
        ensures seen { StartsWith (view result.0).seen (view pass).seen }
        ensures not_taken { TakesNone (view pass) (view result.0) }
        ensures found { (word : ℕ) × ((view result.0).words ≡ (view pass).words ++ word ∷ [])
            × (result.1 ≡ word / 2) }
        ensures then_seen { length (view result.0).seen ≡ result.1 }
        ensures none_added { KeepsOwn (view pass) (view result.0) }
    {
        let mut seat = pass.into_seat::<S>();
        let word = self.look(&mut seat);
        (Pass::of(seat), word / 2)
    }
}
