// What an add that the tree refuses is answered.
ghost use Rattle.std.specs.Prelude.{◌≡◌};
ghost use Rattle.osc_tree.specs.Adding.{refusal_of};
ghost use Rattle.osc_model.specs.Events.{refused};
ghost use Rattle.osc_record.specs.Shown.{answer_of, HasWholeHits};

use crate::event::Answer;
use osc_tree::TreeRefusal;

/// The answer with which an add is recorded that the tree refuses.
impl From<TreeRefusal> for Answer<'static> {
    ghost from_gives = { λ refusal answer. answer_of answer ≡ refused (refusal_of refusal) };

    fn from(refusal: TreeRefusal) -> Answer<'static>
        ensures value { answer_of result ≡ refused (refusal_of refusal) }
        ensures whole { HasWholeHits result }
    {
        match refusal {
            TreeRefusal::Taken(id) => Answer::Taken(id),
            TreeRefusal::UnderMethod(id) => Answer::UnderMethod(id),
            TreeRefusal::IsContainer => Answer::IsContainer,
            TreeRefusal::MethodsFull(limit) => Answer::MethodsFull(limit),
            TreeRefusal::NodesFull(room) => Answer::NodesFull(room),
        }
    }
}
