// How the turn is looked at, taken, and held while a job is run.
ghost use Rattle.std.specs.Prelude.{◌≡◌, ℕ, ◌+◌, ◌/◌, ◌%◌, ◌<◌, List, [], length, true};
ghost use Rattle.osc_turn.specs.History.{StartsWith, texts};
ghost use Rattle.osc_turn.specs.Rule.{Rests};
ghost use Rattle.osc_turn.specs.Steps.{Finds, Tries, Has, Gives};

use crate::job::{Job, Kept};
use crate::plays::{GiveBack, GiveEntry, Look, Take};
use crate::turn::Turn;
use crate::view::View;
use atomic_table::Seat;

impl<S: Kept> Turn<S> {
    // The turn's word, and with it the whole history is seen.
    pub(crate) fn look(&self, seat: &mut Seat<Option<S>, View>) -> u64
        requires ours { seat.old.table_id ≡ self.now.table.shared.table_id }
        requires rests { Rests seat.old.me.0 }
        ensures same { (seat.new.table_id ≡ seat.old.table_id) × (seat.new.me.1 ≡ seat.old.me.1) }
        ensures finds { Finds seat.old.me.0 result seat.new.me.0 }
    {
        self.table.shared.load::<Look>(seat, 0)
    }

    // Takes the turn and its value if the turn's word is still `word`. Returns the word that was found.
    pub(crate) fn take(&self, seat: &mut Seat<Option<S>, View>, word: u64) -> u64
        requires ours { (seat.old.table_id ≡ self.now.table.shared.table_id)
            × (seat.old.me.1 ≡ []) }
        requires rests { Rests seat.old.me.0 }
        requires free { word % 2 ≡ 0 }
        ensures same { seat.new.table_id ≡ seat.old.table_id }
        ensures tries { Tries S.stands S.kind word seat.old.me result seat.new.me }
    {
        let shared = &self.table.shared;
        shared.compare_exchange::<Take<S>>(seat, 0, word, word + 1)
    }

    // Runs the job on the value that the seat has, and gives the turn back: counted on where there is a new entry.
    pub(crate) fn run<J: Job<S>>(
        &self,
        seat: &mut Seat<Option<S>, View>,
        word: u64,
        job: &mut J,
    ) -> bool
        requires ours { seat.old.table_id ≡ self.now.table.shared.table_id }
        requires holds { (seat.old.me.0.holds ≡ true)
            × ((x : S) × Has S.stands S.kind x seat.old.me.0 seat.old.me.1) }
        requires word { (length seat.old.me.0.seen ≡ word / 2) × (word % 2 ≡ 0) }
        requires base { (J.base_kind job.old ≡ seat.old.me.0.kind)
            × StartsWith (texts seat.old.me.0.seen) (J.base job.old) }
        ensures same { (seat.new.table_id ≡ seat.old.table_id) × (seat.new.me.1 ≡ []) }
        ensures gives { Gives seat.old.me.0 result seat.new.me.0 }
        ensures did { J.did job.old job.new (texts seat.old.me.0.seen) (texts seat.new.me.0.seen) }
    {
        let shared = &self.table.shared;
        let mut state = shared.exchange(seat, 0, None).unwrap();
        let ran = job.run(&mut state);
        let left = shared.exchange(seat, 0, Some(state));
        let None = left else { unreachable!() };
        if ran {
            shared.store::<GiveEntry<S>>(seat, 0, word + 2);
            return true;
        }
        shared.store::<GiveBack>(seat, 0, word);
        false
    }
}
