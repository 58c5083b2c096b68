//! What the definitions that the contracts cite say of legal histories. A call takes no time and
//! gives nothing: its clauses are the law.
ghost use Rattle.std.specs.Prelude.{◌≡◌, ◌-◌, ◌^◌, ℕ, List, length, min, None};
ghost use Rattle.std.specs.Option.{option_map};
ghost use Rattle.osc_model.specs.Limits.{Limits};
ghost use Rattle.osc_model.specs.Events.{Entry};
ghost use Rattle.osc_model.specs.State.{opening};
ghost use Rattle.osc_model.specs.History.{after, invocations, Legal};
ghost use Rattle.osc_story.specs.Standings.{Shows};
ghost use Rattle.osc_board.specs.Sights.{sight_after, count_of, calls_of, last_of, last_words};

use osc_story::laws as stories;

/// What is seen of the entries of a legal history is what stands after it.
pub fn what_is_seen_is_what_stands()
    ensures { (caps : Limits) (history : List Entry) → Legal caps history
        → Shows (sight_after caps.late history).standing (after (opening caps) history) }
{
    stories::entries_show_the_state();
}

/// Each call of a legal history is counted for its method, up to the greatest number of 64 bits.
pub fn each_call_is_counted()
    ensures { (caps : Limits) (history : List Entry) (id : ℕ) → Legal caps history
        → count_of (sight_after caps.late history).lasts id
        ≡ min (length (calls_of id (invocations (opening caps) history))) (2 ^ 64 - 1) }
{
    stories::entries_tell_the_calls();
}

/// The words that are shown of a method are those of the last call that a legal history made of it.
pub fn the_last_call_is_shown()
    ensures { (caps : Limits) (history : List Entry) (id : ℕ) → Legal caps history
        → option_map (λ last. last.words) (last_of (sight_after caps.late history).lasts id)
        ≡ last_words id None (invocations (opening caps) history) }
{
    stories::entries_tell_the_calls();
}
