//! How further passes are made, and how what one pass has seen reaches another.
ghost use Rattle.std.specs.Prelude.{◌≡◌, ◌<◌, [], OnOk, OnErr, IfOk, IfErr};
ghost use Rattle.osc_turn.specs.declared.limits.TheConstants.{MAX_PASSES};
ghost use Rattle.osc_turn.specs.History.{StartsWith, own};
ghost use Rattle.osc_turn.specs.Rule.{number_of};
ghost use Rattle.osc_turn.specs.Steps.{Counts, longer};
ghost use Rattle.osc_turn.specs.Passes.{view, IsPassOf, one_more, guest_of, met_by};
ghost use Rattle.osc_turn.specs.Answers.{KeepsOwn};

use crate::job::Kept;
use crate::limits::MAX_PASSES;
use crate::pass::Pass;
use crate::plays::{Count, Cut, Draw, Glue};
use crate::turn::Turn;
use crate::view::View;
use atomic_table::Seat;

/// Why no guest is made.
#[derive(Clone, Copy, PartialEq, Eq, Debug)]
pub enum GuestRefusal {
    /// As many passes were made as a turn makes, the first one among them.
    Full { limit: u32 },
}

impl<S: Kept> Turn<S> {
    // The number of passes that were made.
    pub(crate) fn count(&self, seat: &mut Seat<Option<S>, View>) -> u64
        requires ours { seat.old.table_id ≡ self.now.table.shared.table_id }
        ensures same { seat.new.table_id ≡ seat.old.table_id }
        ensures counts { Counts seat.old.me result seat.new.me }
    {
        self.table.shared.load::<Count>(seat, 1)
    }

    /// A new pass that has seen what `pass`, the first one, has seen, and has no entries of its own.
    pub fn guest(&self, pass: Pass) -> (Pass, Result<Pass, GuestRefusal>)
        requires ours { IsPassOf self.now pass }
        requires first { number_of (view pass) ≡ 0 }
        ensures ours { IsPassOf self.now result.0 }
        ensures guest_ours { IfOk result.1 (λ guest. IsPassOf self.now guest) }
        ensures guest { IfOk result.1 (λ guest. view guest ≡ guest_of (view pass)) }
        ensures no_entries { IfOk result.1
            (λ guest. own (number_of (view guest)) (view guest).seen ≡ []) }
        ensures room { OnOk result.1 ((view pass).made < MAX_PASSES) }
        ensures made { OnOk result.1 (view result.0 ≡ one_more (view pass)) }
        ensures full { IfErr result.1
            (λ refusal. ((view pass).made ≡ MAX_PASSES)
            × (refusal ≡ GuestRefusal.Full MAX_PASSES)) }
        ensures none_made { OnErr result.1 (view result.0 ≡ view pass) }
    {
        let mut seat = pass.into_seat::<S>();
        if self.count(&mut seat) >= u64::from(MAX_PASSES) {
            let full = GuestRefusal::Full { limit: MAX_PASSES };
            return (Pass::of(seat), Err(full));
        }
        let shared = &self.table.shared;
        shared.fetch_add::<Draw>(&mut seat, 1, 1);
        let guest = shared.split_seat::<Cut>(&mut seat);
        (Pass::of(seat), Ok(Pass::of(guest)))
    }

    /// Tells `into` what `from` has seen. Of what the two have seen, one list begins with the other.
    pub fn meet(&self, from: Pass, into: Pass) -> (Pass, Pass)
        requires ours { IsPassOf self.now from × IsPassOf self.now into }
        ensures ours { IsPassOf self.now result.0 × IsPassOf self.now result.1 }
        ensures from { view result.0 ≡ view from }
        ensures into { view result.1 ≡ met_by (view into) (view from) }
        ensures longer { (view result.1).seen ≡ longer (view into).seen (view from).seen }
        ensures seen { StartsWith (view result.1).seen (view into).seen }
        ensures told { StartsWith (view result.1).seen (view from).seen }
        ensures none_added { KeepsOwn (view into) (view result.1) }
    {
        let mut teller = from.into_seat::<S>();
        let mut learner = into.into_seat::<S>();
        let shared = &self.table.shared;
        let told = shared.split_seat::<Cut>(&mut teller);
        shared.join_seat::<Glue>(&mut learner, told);
        self.count(&mut learner);
        (Pass::of(teller), Pass::of(learner))
    }
}
