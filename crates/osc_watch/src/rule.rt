//! The rule of the board, and what each step tells. These types are for the proofs alone.
use crate::reached::Reached;
use crate::sheet::Sheet;
use atomic_table::{Join, Split};
use crossbeam_utils::rule::{Outcome, Protocol};

/// What a reader knows: which edits it has seen or was told of, once it was told of any.
pub type View = Option<Reached>;

/// Each view is a beginning of the edits that are published, and the rows are those that stand after these.
pub struct Published;

impl Protocol<Sheet, View> for Published {
    ghost use Rattle.std.specs.Prelude.{None};
    ghost use Rattle.osc_watch.specs.Publishing.{IsPublished};

    ghost holds = { IsPublished };

    ghost first = { None };
}

/// All edits that are then published are seen.
pub struct Sees;

impl Outcome<Sheet, View> for Sees {
    ghost use Rattle.osc_watch.specs.Publishing.{Sees};

    ghost then = { Sees };
}

/// A view is cut in two that know the same.
pub struct Tells;

impl Split<View> for Tells {
    ghost left = { λ view. view };

    ghost right = { λ view. view };
}

/// What was told is known.
pub struct Learns;

impl Join<View> for Learns {
    ghost use Rattle.std.specs.Prelude.{None};

    ghost both = { λ view told. told };

    ghost spent = { None };
}
