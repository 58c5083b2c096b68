//! How a turn is opened.
ghost use Rattle.std.specs.Prelude.{◌≡◌, [], ◌∷◌, IfOk, IfErr, Some};
ghost use Rattle.osc_turn.specs.Rule.{opening, reopening};
ghost use Rattle.osc_turn.specs.Passes.{view, IsPassOf, opened_with};

use crate::job::Kept;
use crate::pass::Pass;
use crate::turn::Turn;
use atomic_table::{Refused, Table};
use std::alloc::{AllocError, Global};
use std::snapshot::Snapshot;

fn one_slot<S>(alloc: Global, state: S) -> Result<Vec<Option<S>>, (AllocError, S)>
    ensures ok { IfOk result (λ slots. slots.items ≡ Some state ∷ []) }
    ensures err { IfErr result (λ refused. refused.1 ≡ state) }
{
    match Vec::with_capacity(alloc, 1) {
        Ok(mut slots) => {
            slots.push_reserved(Some(state));
            Ok(slots)
        }
        Err(none) => Err((none, state)),
    }
}

fn only_state<S>(mut slots: Vec<Option<S>>) -> S
    requires { (x : S) × (slots.items ≡ Some x ∷ []) }
    ensures { slots.items ≡ Some result ∷ [] }
{
    let state = slots.pop().unwrap().unwrap();
    slots.destroy_empty();
    state
}

impl<S: Kept> Turn<S> {
    /// A turn over a value with no entries, and its first pass.
    pub fn open(alloc: Global, state: S) -> Result<(Turn<S>, Pass), (AllocError, S)>
        requires empty { S.stands state [] }
        ensures ours { IfOk result (λ opened. IsPassOf opened.0 opened.1) }
        ensures first { IfOk result (λ opened. view opened.1 ≡ opening (S.kind state)) }
        ensures empty { IfOk result (λ opened. S.history (opened_with opened.0) ≡ []) }
        ensures err { IfErr result (λ refused. refused.1 ≡ state) }
    {
        Turn::reopen(alloc, state)
    }

    /// A turn over a value that may have entries, and its first pass, which has seen them. They are its own entries.
    pub fn reopen(alloc: Global, state: S) -> Result<(Turn<S>, Pass), (AllocError, S)>
        ensures ours { IfOk result (λ opened. IsPassOf opened.0 opened.1) }
        ensures first { IfOk result
            (λ opened. view opened.1 ≡ reopening (S.kind state) (S.history state)) }
        ensures opened { IfOk result (λ opened. opened_with opened.0 ≡ state) }
        ensures stands { S.stands state (S.history state) }
        ensures err { IfErr result (λ refused. refused.1 ≡ state) }
    {
        let entries = state.entries();
        let word = 2 * entries;
        let opened = (state, entries);
        let about = Snapshot::of(&opened);
        let (state, _) = opened;
        let slots = one_slot(alloc, state)?;
        match Table::new(alloc, &[word, 1], slots, &about) {
            Ok((table, seat)) => Ok((Turn { table }, Pass::of(seat))),
            Err(Refused { slots }) => Err((AllocError, only_state(slots))),
        }
    }
}
