// What is asked of the server, whichever event it is.
ghost use Rattle.std.specs.Prelude.{◌≡◌, ◌<◌, ℕ, List};
ghost use Rattle.osc_turn.specs.History.{StartsWith};
ghost use Rattle.osc_model.specs.Limits.{Limits};
ghost use Rattle.osc_model.specs.Events.{Event, Answer};
ghost use Rattle.osc_model.specs.History.{state_of, stepped_in, onward};
ghost use Rattle.osc_core.specs.Standing.{StandsFor, GoesOn};
ghost use Rattle.osc_core.specs.Telling.{told};

use osc_core::Core;
use osc_method::Method;

/// An event that is handed in. `B` is what its caller is answered.
pub(crate) trait Ask<M: Method, B> {
    ghost event: { Self → Event };

    /// What an answer stands for.
    ghost says: { B → Answer → Type 0 };

    /// What else the answer tells, under these limits and where these are the texts then.
    ghost tells: { Self → B → Limits → List (List ℕ) → Type 0 };

    /// Plays the event as the caller's.
    fn ask(self, caller: u32, core: &mut Core<M>) -> B
        requires { caller < (state_of core.old.performance).callers }
        ensures performance { core.new.performance
            ≡ onward core.old.performance caller (event self) }
        ensures answer { (answer : Answer) × says result answer
            × (answer ≡ (stepped_in core.old.performance (event self)).answer) }
        ensures stands { GoesOn (event self) core.old.performance
            (told M.keep M.heard core.old.boxes.items)
            core.new.performance (told M.keep M.heard core.new.boxes.items) }
        ensures tells { (before after : List (List ℕ))
            → StandsFor core.old.performance (told M.keep M.heard core.old.boxes.items) before
            → StandsFor core.new.performance (told M.keep M.heard core.new.boxes.items) after
            → StartsWith after before → tells self result core.old.performance.caps after };
}
