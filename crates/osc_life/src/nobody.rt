//! Nothing goes on meanwhile.
ghost use Rattle.std.specs.Prelude.{◌≡◌};
ghost use Rattle.osc_life.specs.Holders.{Learns};

use crate::desk::Desk;
use crate::gate::Gate;
use crate::meanwhile::Meanwhile;
use crate::worker::Done;
use osc_live::Caller;
use osc_method::Method;
use std::sync::Wait;

/// Nothing goes on meanwhile.
#[derive(Clone, Copy)]
pub struct Nobody;

impl<M: Method> Meanwhile<M, ()> for Nobody {
    type End = ();

    ghost rounds = { λ before now state holder v w. w ≡ v };

    ghost ends = { λ before after end holder tokens v w. Learns v w };

    fn round<W: Wait, G: Gate>(
        &mut self,
        _on: &mut (),
        _desk: &Desk<'_, M, W, G>,
        caller: Caller,
    ) -> (Caller, bool) {
        (caller, false)
    }

    fn last<W: Wait, G: Gate>(
        self,
        _on: &mut (),
        _desk: &Desk<'_, M, W, G>,
        caller: Caller,
    ) -> Done<()> {
        Done { caller, end: () }
    }
}
