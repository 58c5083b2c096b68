//! A caller's token.
ghost use Rattle.std.specs.Prelude.{◌≡◌, length, slice_index_or};
ghost use Rattle.osc_turn.specs.Rule.{spent, Rests};

use crate::view::View;
use atomic_table::{Badge, Seat};

/// One caller's part in a turn. It has no bytes: what it has seen, and its number, are known in the proofs alone.
/// A pass that is dropped can't be handed in, so its turn is never closed.
pub struct Pass {
    pub(crate) badge: Badge<View>,
    ghost seated: { length badge.views ≡ 1 },
    ghost rests: { Rests (slice_index_or badge.views 0 spent) },
}

impl Drop for Pass {
    fn drop(self) {
        let Pass { badge: _ } = self;
    }
}

impl Pass {
    ghost use Rattle.std.specs.Prelude.{◌≡◌, []};
    ghost use Rattle.osc_turn.specs.Rule.{Rests};
    ghost use Rattle.osc_turn.specs.Passes.{view};

    pub(crate) fn of<S>(seat: Seat<Option<S>, View>) -> Pass
        requires slots { seat.me.1 ≡ [] }
        requires rests { Rests seat.me.0 }
        ensures { (result.badge.table_id ≡ seat.table_id) × (view result ≡ seat.me.0) }
    {
        Pass {
            badge: seat.into_badge(),
        }
    }

    pub(crate) fn into_seat<S>(self) -> Seat<Option<S>, View>
        ensures { (result.table_id ≡ self.badge.table_id) × (result.me ≡ (view self, []))
            × Rests (view self) }
    {
        let Pass { badge } = self;
        badge.into_seat()
    }
}
