//! The rule of the one list of edits, which only grows. These types are for the proofs alone.
use crate::row::{Edit, RowEdit};
use logbook::{Gain, Plain, Play, Rule};

/// The word is the number of edits.
pub struct Law;

impl Rule<Edit, u64> for Law {
    ghost use Rattle.std.specs.Prelude.{[]};
    ghost use base.Fml.{ftrue};
    ghost use Rattle.osc_watch.specs.Rule.{IsCounted};

    ghost holds = { λ cells log. IsCounted cells log };

    ghost first = { [] };

    ghost hinted = { λ n log. Unit {0} };

    ghost shows = { λ log. [] };

    ghost keeps = { λ names log. ftrue };

    ghost moves = { λ ask before after answer. Unit {0} };
}

/// Callers trade nothing.
pub struct Nothing;

impl Gain<Edit, u64> for Nothing {
    ghost use base.Fml.{ftrue};

    ghost after = { λ names about answer. ftrue };
}

/// A step that adds an edit.
pub struct Add;

impl Play<Edit, u64> for Add {
    ghost use Rattle.osc_watch.specs.Rule.{Adds};

    ghost then = { Adds };
}

/// What a step asks for: the edit.
impl Plain<RowEdit, Edit, u64> for Add {
    ghost use Rattle.std.specs.Prelude.{None};
    ghost use Rattle.osc_watch.specs.Listing.{edit_of};

    ghost ask = { edit_of };

    ghost state = { λ edit. None };
}
