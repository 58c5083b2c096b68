// How the one list of edits begins, grows and is told.
ghost use Rattle.std.specs.Prelude.{◌≡◌, ◌^◌, ◌+◌, ◌<◌, [], ◌∷◌, ◌++◌, length, MatchBool};
ghost use Rattle.osc_turn.specs.History.{StartsWith};
ghost use Rattle.osc_watch.specs.Listing.{edit_of};
ghost use Rattle.osc_watch.specs.Rule.{head_of};
ghost use Rattle.osc_watch.specs.Reach.{longer};

use crate::law::{Add, Law, Nothing};
use crate::reached::Reached;
use crate::row::{Edit, RowEdit};
use logbook::{Offer, Seen, Start, Word};

/// The word that counts the edits.
pub(crate) type Head = Word<Edit, u64, Law>;

/// A list without edits, and its word.
pub(crate) fn begin() -> (Head, Reached)
    ensures head { result.0 ≡ head_of result.1.seen.book }
    ensures log { result.1.seen.log ≡ [] }
{
    let (seen, mut first, _second) = Seen::open(Start::alone(), 0, 0);
    (Word::tracked(0, &mut first), Reached { seen, edits: 0 })
}

impl Reached {
    /// A copy.
    pub(crate) fn again(&self) -> Reached
        ensures { result ≡ self.now }
    {
        Reached {
            seen: self.seen.again(),
            edits: self.edits,
        }
    }

    /// Adds an edit to all that was reached. It does not where the list is longer.
    pub(crate) fn add(&mut self, head: &Head, edit: &RowEdit) -> bool
        requires head { head.now ≡ head_of self.old.seen.book }
        ensures book { self.new.seen.book ≡ self.old.seen.book }
        ensures log { MatchBool result
            (self.new.seen.log ≡ self.old.seen.log ++ edit_of edit.now ∷ [])
            (self.new ≡ self.old) }
    {
        let Some(edits) = self.edits.checked_add(1) else {
            return false;
        };
        let mut seen = self.seen.again();
        if !enters_log(head, &mut seen, self.edits, edit) {
            return false;
        }
        *self = Reached { seen, edits };
        true
    }
}

/// Of two beginnings of the list the longer one begins with the other.
pub(crate) fn compare(one: &Reached, other: &Reached)
    requires { other.now.seen.book ≡ one.now.seen.book }
    ensures { StartsWith (longer one.now other.now).seen.log one.now.seen.log
        × StartsWith (longer one.now other.now).seen.log other.now.seen.log }
{
    let mut both = one.seen.again();
    both.learn(&other.seen);
}

fn enters_log(head: &Head, seen: &mut Seen<Edit, u64, Law>, edits: u64, edit: &RowEdit) -> bool
    requires head { head.now ≡ head_of seen.old.book }
    requires counted { edits ≡ length seen.old.log }
    requires room { edits + 1 < 2 ^ 64 }
    ensures book { seen.new.book ≡ seen.old.book }
    ensures log { MatchBool result (seen.new.log ≡ seen.old.log ++ edit_of edit.now ∷ [])
        (Unit {0}) }
{
    let mut offer: Offer<Edit, u64, Law, Nothing> = seen.plain::<Nothing, RowEdit, Add>(edit);
    let mut pen = seen.no_pen();
    let found = head.compare_exchange::<Add, Nothing>(edits, edits + 1, seen, &mut offer, &mut pen);
    found == edits
}
