//! The turn and its value.
ghost use Rattle.std.specs.Prelude.{◌≡◌};

use crate::job::Kept;
use crate::plays::Law;
use crate::view::View;
use atomic_table::{Seat, Table};
use std::alloc::Global;
use std::snapshot::Snapshot;

/// A value that one call at a time changes, and a word that counts the entries of its history.
pub struct Turn<S: Kept> {
    // Its key, which has no bytes, is the value when the turn was opened, and how many entries its history had then.
    pub(crate) table: Table<Option<S>, View, Snapshot<(S, u64)>, Law<S>, Global>,
    ghost sized: { (table.shared.table_id.words ≡ 2) × (table.shared.table_id.slots ≡ 1) },
}

impl<S: Kept + Drop> Drop for Turn<S> {
    fn drop(self) {
        let Turn { table: _ } = self;
    }
}

impl<S: Kept> Turn<S> {
    ghost use Rattle.std.specs.Prelude.{◌≡◌, ◌<◌, [], false, length, All};
    ghost use Rattle.osc_turn.specs.History.{StartsWith, entries_of, texts};
    ghost use Rattle.osc_turn.specs.Numbers.{times};
    ghost use Rattle.osc_turn.specs.Passes.{opened_with};

    // Takes the value out, where the seat has every number that was drawn.
    pub(crate) fn into_value(self, seat: Seat<Option<S>, View>) -> S
        requires ours { seat.table_id ≡ self.table.shared.table_id }
        requires whole { (seat.me.0.holds ≡ false) × (seat.me.0.spare ≡ [])
            × (0 < times 0 seat.me.0.numbers)
            × (length seat.me.0.numbers ≡ seat.me.0.made) }
        ensures stands { S.stands result (texts seat.me.0.seen) }
        ensures kind { S.kind result ≡ seat.me.0.kind }
        ensures each { All (λ e. times e.number seat.me.0.numbers ≡ 1) seat.me.0.seen }
        ensures opened { seat.me.0.opened_at ≡ length (S.history (opened_with self)) }
        ensures begins { StartsWith seat.me.0.seen (entries_of (S.history (opened_with self))) }
    {
        let Turn { table } = self;
        let mut closed = table.close_with(seat);
        let value = closed.take(0).unwrap();
        closed.free();
        value
    }
}
