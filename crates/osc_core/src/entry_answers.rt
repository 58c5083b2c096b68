// The answers as they are recorded.
ghost use Rattle.std.specs.Prelude.{◌≡◌, IsTrue};
ghost use Rattle.osc_tree.specs.Adding.{refusal_of as tree_refusal_of};
ghost use Rattle.osc_model.specs.Events.{adds_entry, refused};
ghost use Rattle.osc_record.specs.Shown.{answer_of};
ghost use Rattle.osc_core.specs.Answers.{enrolled_of, submitted_of, refusal_of, removing_of};
ghost use Rattle.osc_core.specs.Answers.{ticking_of};

use crate::answers::{AddRefusal, Enrolled, Removing, Submitted, Ticking};
use osc_record::Answer;
use osc_tree::TreeRefusal;

pub(crate) fn enrol_answer(enrolled: Enrolled) -> Answer<'static>
    requires { IsTrue (adds_entry (enrolled_of enrolled)) }
    ensures { answer_of result ≡ enrolled_of enrolled }
{
    match enrolled {
        Enrolled::Number(number) => Answer::Number(number),
        Enrolled::CallersFull => Answer::CallersFull,
        Enrolled::RecordFull(_) => unreachable!(),
    }
}

pub(crate) fn remove_answer(removing: &Removing<()>) -> Answer<'static>
    requires { IsTrue (adds_entry (removing_of removing.now)) }
    ensures { answer_of result ≡ removing_of removing.now }
{
    match removing {
        Removing::Removed { id, .. } => Answer::Removed(*id),
        Removing::NotThere => Answer::NotThere,
        Removing::RecordFull(_) => unreachable!(),
    }
}

pub(crate) fn submit_answer(submitted: Submitted) -> Answer<'static>
    requires { IsTrue (adds_entry (submitted_of submitted)) }
    ensures { answer_of result ≡ submitted_of submitted }
{
    match submitted {
        Submitted::Queued { first, count, late } => Answer::Queued { first, count, late },
        Submitted::UnitsFull(room) => Answer::UnitsFull(room),
        Submitted::PoolFull(room) => Answer::PoolFull(room),
        Submitted::RecordFull(_) => unreachable!(),
    }
}

pub(crate) fn tick_answer(ticking: Ticking) -> Answer<'static>
    requires { IsTrue (adds_entry (ticking_of ticking)) }
    ensures { answer_of result ≡ ticking_of ticking }
{
    match ticking {
        Ticking::Ticked => Answer::Ticked,
        Ticking::ClockBack(clock) => Answer::ClockBack(clock),
        Ticking::RecordFull(_) => unreachable!(),
    }
}

pub(crate) fn refusal_in_words(refusal: TreeRefusal) -> AddRefusal
    ensures { refusal_of result ≡ refused (tree_refusal_of refusal) }
{
    match refusal {
        TreeRefusal::Taken(id) => AddRefusal::Taken(id),
        TreeRefusal::UnderMethod(id) => AddRefusal::UnderMethod(id),
        TreeRefusal::IsContainer => AddRefusal::IsContainer,
        TreeRefusal::MethodsFull(limit) => AddRefusal::MethodsFull(limit),
        TreeRefusal::NodesFull(room) => AddRefusal::NodesFull(room),
    }
}
