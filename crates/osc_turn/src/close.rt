//! How a turn is closed.
ghost use Rattle.std.specs.Prelude.{◌≡◌, ◌≢◌, ◌<◌, ◌≤◌, [], length, map, All, IfOk, OnOk, IfErr};
ghost use Rattle.osc_turn.specs.declared.limits.TheConstants.{MAX_PASSES};
ghost use Rattle.osc_turn.specs.Rule.{number_of, Rests};
ghost use Rattle.osc_turn.specs.Passes.{view, IsPassOf, opened_with};
ghost use Rattle.osc_turn.specs.Closing.{Gathers, Closes, first_view};

use crate::job::Kept;
use crate::pass::Pass;
use crate::plays::Glue;
use crate::still_out::StillOut;
use crate::turn::Turn;
use crate::view::View;
use atomic_table::Seat;

impl<S: Kept> Turn<S> {
    // Joins the passes into the seat of the first one.
    fn gather(&self, seat: &mut Seat<Option<S>, View>, mut passes: Vec<Pass>)
        requires ours { (seat.old.table_id ≡ self.now.table.shared.table_id) × (seat.old.me.1 ≡ [])
            × All (IsPassOf self.now) passes.items }
        requires first { Rests seat.old.me.0 × (number_of seat.old.me.0 ≡ 0) }
        ensures same { (seat.new.table_id ≡ seat.old.table_id) × (seat.new.me.1 ≡ []) }
        ensures gathers { Gathers seat.old.me.0 passes.items seat.new.me.0 }
    {
        while let Some(pass) = passes.pop() {
            let other = pass.into_seat::<S>();
            self.table.shared.join_seat::<Glue>(seat, other);
            self.count(seat);
        }
        passes.destroy_empty();
    }

    /// The number of passes that were made, which the first pass knows.
    pub fn made(&self, pass: Pass) -> (Pass, u32)
        requires ours { IsPassOf self.now pass }
        requires first { number_of (view pass) ≡ 0 }
        ensures ours { IsPassOf self.now result.0 }
        ensures same { view result.0 ≡ view pass }
        ensures made { result.1 ≡ (view pass).made }
    {
        let mut seat = pass.into_seat::<S>();
        let made = self.count(&mut seat) as u32;
        (Pass::of(seat), made)
    }

    /// Gives the value out where all passes that were made are handed in, the first pass in the first place.
    pub fn close(self, mut passes: Vec<Pass>) -> Result<S, StillOut<S>>
        requires ours { All (IsPassOf self) passes.items }
        requires few { (0 < length passes.items) × (length passes.items ≤ MAX_PASSES) }
        requires first { number_of (first_view passes.items) ≡ 0 }
        ensures all_in { OnOk result ((first_view passes.items).made ≡ length passes.items) }
        ensures closes { IfOk result
            (λ value. Closes S.stands (S.history (opened_with self)) value passes.items) }
        ensures opened { OnOk result
            ((first_view passes.items).opened_at ≡ length (S.history (opened_with self))) }
        ensures kind { IfOk result (λ value. S.kind value ≡ (first_view passes.items).kind) }
        ensures made { IfErr result (λ out. out.made ≡ (first_view passes.items).made) }
        ensures handed { IfErr result (λ out. out.handed ≡ length passes.items) }
        ensures still_out { IfErr result (λ out. out.made ≢ out.handed) }
        ensures turn { IfErr result (λ out. out.turn ≡ self) }
        ensures back { IfErr result (λ out. (map view out.passes.items ≡ map view passes.items)
            × All (IsPassOf self) out.passes.items) }
    {
        let handed = passes.len() as u32;
        let mut seat = passes.remove(0).into_seat::<S>();
        let made = self.count(&mut seat) as u32;
        if made != handed {
            let Ok(()) = passes.insert(0, Pass::of(seat)) else {
                unreachable!()
            };
            return Err(StillOut {
                made,
                handed,
                turn: self,
                passes,
            });
        }
        self.gather(&mut seat, passes);
        Ok(self.into_value(seat))
    }
}
