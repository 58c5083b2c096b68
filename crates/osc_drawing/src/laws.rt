//! What the definitions that the contracts cite say of legal histories. A call takes no time and
//! gives nothing: its clauses are the law.
ghost use Rattle.std.specs.Prelude.{◌≡◌, List, None, map};
ghost use Rattle.osc_model.specs.Events.{Entry as Step};
ghost use Rattle.osc_model.specs.History.{Legal, invocations};
ghost use Rattle.osc_model.specs.Limits.{Limits};
ghost use Rattle.osc_record.specs.declared.event.Entry.{Entry};
ghost use Rattle.osc_story.specs.Standings.{opened};
ghost use Rattle.osc_model.specs.State.{opening};
ghost use Rattle.osc_drawing.specs.Calls.{calls_in, shown_call};
ghost use Rattle.osc_drawing.specs.Sketches.{first_fault, told, sketch_of};

use osc_model::laws as model;
use osc_story::laws as stories;

/// No entry of a legal history disagrees: but for memory it has a picture.
pub fn a_legal_history_is_drawn()
    ensures { (caps : Limits) (entries : List Entry) → Legal caps (told entries)
        → first_fault (opened caps.late) entries ≡ None }
{
    stories::a_legal_history_agrees();
}

/// The calls that the marks of a legal history show are all that it invoked, in their order.
pub fn all_calls_are_drawn()
    ensures { (caps : Limits) (history : List Step) → Legal caps history
        → calls_in (sketch_of caps.late history).gathered.marks
        ≡ map shown_call (invocations (opening caps) history) }
{
    model::a_legal_history_is_recordable();
    stories::entries_tell_the_calls();
}
