//! Laws of the definitions that the contracts cite. A call takes no time and gives nothing: its
//! clauses are the law.
ghost use Rattle.std.specs.Prelude.{◌≡◌, ℕ, List, ◌++◌, ◌∷◌, [], Option, is_some, true, ◌||◌};
ghost use Rattle.std.specs.List.{AllByRecursion};
ghost use Rattle.osc_hall.specs.Turns.{Seen, Turn, IsTurn};
ghost use Rattle.osc_hall.specs.Rounds.{IsRound};
ghost use Rattle.osc_hall.specs.Served.{Given, IsHeardOf, IsServed};

use osc_door::Visitor;

/// A turn leaves a visitor with one answer at most, and what it has taken in all is a front of that
/// answer, whether it stays or not.
pub fn a_turn_serves_one_answer<V: Visitor>()
    ensures { (given : Given) (page state : List ℕ) (turn : Turn V)
        → IsTurn V.left V.taken page state turn → IsServed V.taken given turn.before
        → IsServed V.taken (given ++ (page, state) ∷ []) turn.after }
{}

/// What was heard of a visitor is the front of all that it says, as long as it stays, and also
/// where it goes with an answer.
pub fn a_turn_hears_what_is_said<V: Visitor>()
    ensures { (page state : List ℕ) (says : Option (List ℕ)) (turn : Turn V)
        → IsTurn V.left V.taken page state turn
        → (turn.stays || is_some turn.after.answer) ≡ true
        → IsHeardOf V.left says turn.before → IsHeardOf V.left says turn.after }
{}

/// So after any number of rounds what each visitor that is there has taken in all is a front of one
/// answer, by the page and the state of one of those rounds.
pub fn a_round_serves_one_answer_each<V: Visitor>()
    ensures { (given : Given) (page state : List ℕ) (before after : List (Seen V))
        → AllByRecursion (IsServed V.taken given) before
        → IsRound V.left V.taken page state before after
        → AllByRecursion (IsServed V.taken (given ++ (page, state) ∷ [])) after }
{}
