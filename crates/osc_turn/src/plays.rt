//! The rule of the turn, and what each step tells. These types are for the proofs alone.
ghost use Rattle.osc_turn.specs.Rule.{Turns, reopening, spent};
ghost use Rattle.osc_turn.specs.Steps.{Looks, Tries, GivesEntry, GivesBack, Counts, Draws, kept_of};
ghost use Rattle.osc_turn.specs.Steps.{split_off, joined};

use crate::job::Kept;
use crate::view::View;
use atomic_table::{Join, Play, Split, TableRule};
use std::marker::PhantomData;
use std::snapshot::Snapshot;

/// The rule of the turn holds between any two steps.
pub struct Law<S> {
    value: PhantomData<S>,
}

impl<S: Kept> TableRule<Option<S>, View, Snapshot<(S, u64)>> for Law<S> {
    ghost holds = { λ about. Turns S.stands S.kind (S.history about.value.0) };

    ghost first = { λ about. reopening (S.kind about.value.0) (S.history about.value.0) };
}

/// The turn's word is read.
pub(crate) struct Look;

impl<S> Play<Option<S>, View> for Look {
    ghost then = { λ step me found now. Looks me found now };
}

/// The turn is taken, and the value with it.
pub(crate) struct Take<S> {
    value: PhantomData<S>,
}

impl<S: Kept> Play<Option<S>, View> for Take<S> {
    ghost then = { λ step me found now. Tries S.stands S.kind step.first me found now };
}

/// The turn is given back, and the history has one entry more.
pub(crate) struct GiveEntry<S> {
    value: PhantomData<S>,
}

impl<S: Kept> Play<Option<S>, View> for GiveEntry<S> {
    ghost then = { λ step me found now. GivesEntry S.stands S.kind me now };
}

/// The turn is given back, and the history is as before.
pub(crate) struct GiveBack;

impl<S> Play<Option<S>, View> for GiveBack {
    ghost then = { λ step me found now. GivesBack me now };
}

/// The number of passes is read.
pub(crate) struct Count;

impl<S> Play<Option<S>, View> for Count {
    ghost then = { λ step me found now. Counts me found now };
}

/// A number is drawn for a new pass.
pub(crate) struct Draw;

impl<S> Play<Option<S>, View> for Draw {
    ghost then = { λ step me found now. Draws me found now };
}

/// A view is cut in two, for a guest or for a pass that is told.
pub(crate) struct Cut;

impl Split<View> for Cut {
    ghost left = { kept_of };

    ghost right = { split_off };
}

/// One view is joined into another.
pub(crate) struct Glue;

impl Join<View> for Glue {
    ghost both = { joined };

    ghost spent = { spent };
}
