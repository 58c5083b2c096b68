//! What the definitions that the contracts cite say of legal histories. A call takes no time and
//! gives nothing: its clauses are the law.
ghost use Rattle.std.specs.Prelude.{◌≡◌, ℕ, List, length, Some};
ghost use Rattle.osc_packet.specs.Units.{TimedUnit};
ghost use Rattle.osc_queue.specs.Timed.{due_of};
ghost use Rattle.osc_model.specs.Limits.{Limits};
ghost use Rattle.osc_model.specs.Events.{Entry};
ghost use Rattle.osc_model.specs.State.{opening};
ghost use Rattle.osc_model.specs.Step.{is_late};
ghost use Rattle.osc_model.specs.Recordings.{header_text, record_text};
ghost use Rattle.osc_model.specs.History.{after, invocations, Legal};
ghost use Rattle.osc_story.specs.Standings.{Shows, AgreesAll, opened, standing_after, all_called};
ghost use Rattle.osc_story.specs.Standings.{handed};
ghost use Rattle.osc_story.specs.Seen.{text_of};
ghost use Rattle.osc_story.specs.Following.{Following, HasCaughtUp};

use osc_model::laws as model;
use osc_pattern::laws as patterns;
use osc_record::laws as records;
use osc_tree::laws as trees;

/// What is seen of the entries of a legal history is what stands after it.
pub fn entries_show_the_state()
    ensures { (caps : Limits) (history : List Entry) → Legal caps history
        → Shows (standing_after caps.late history) (after (opening caps) history) }
{}

/// What the entries of a legal history tell is all that it invoked.
pub fn entries_tell_the_calls()
    ensures { (caps : Limits) (history : List Entry) → Legal caps history
        → all_called (opened caps.late) history ≡ invocations (opening caps) history }
{
    model::a_server_stays_sound();
    model::methods_stay_lawful();
    patterns::tests_are_exact();
    trees::the_matching_methods_ascend();
}

/// No entry of a legal history disagrees.
pub fn a_legal_history_agrees()
    ensures { (caps : Limits) (history : List Entry) → Legal caps history
        → AgreesAll (opened caps.late) history }
{
    model::a_server_stays_sound();
    model::methods_stay_lawful();
    model::a_legal_history_is_recordable();
    patterns::tests_are_exact();
    trees::the_matching_methods_ascend();
}

/// A unit that waits is late, by its due moment, exactly if it was late when it was handed in.
pub fn a_late_unit_stays_late()
    ensures { (caller clock number : ℕ) (unit : TimedUnit)
        → is_late (due_of (handed caller clock number unit)) unit ≡ is_late clock unit }
{}

/// Whatever the pieces were in which bytes came: who has seen all whole entries of them has the
/// same, of the same entries.
pub fn pieces_make_no_difference()
    ensures { (came : List ℕ) (one other : Following) → HasCaughtUp came one
        → HasCaughtUp came other → one ≡ other }
{
    records::sizes();
    records::headers_differ();
    records::a_written_entry_is_read_again();
}

/// Of the whole recording of a legal history nothing is left, and what stands then is what is seen
/// of its entries.
pub fn a_whole_recording_is_seen()
    ensures { (caps : Limits) (history : List Entry) (follower : Following)
        → Legal caps history → HasCaughtUp (record_text caps history) follower
        → follower ≡ record {
          bytes = header_text caps;
          passed = length (text_of history);
          standing = Some (standing_after caps.late history);
        } }
{
    a_legal_history_agrees();
    pieces_make_no_difference();
    model::a_legal_history_is_recordable();
    records::sizes();
    records::headers_differ();
}
