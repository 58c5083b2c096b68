// A line that may be told with others of its address.
ghost use Rattle.std.specs.Prelude.{◌≡◌, IfOk, option_map};
ghost use Rattle.osc_message.specs.Left.{left};
ghost use Rattle.osc_message.specs.Shown.{shown};
ghost use Rattle.osc_record.specs.Shown.{answer_of};
ghost use Rattle.osc_report.specs.Entries.{late_tag};
ghost use Rattle.osc_report.specs.Kept.{IsMovedLine};
ghost use Rattle.osc_report.specs.Steps as spec;

use crate::front::Front;
use crate::moved_line::MovedLine;
use crate::release::{collected, late_tag};
use crate::stretch::shown_moment;
use osc_message::{Arg, Args, Message};
use osc_record::Answer;
use osc_shown::argument_words;
use osc_story::{Call, Story, Waiting};
use std::alloc::{AllocError, Global};

/// What of an entry may be told with others, by its answer, before it is seen.
pub(crate) fn moved_line(
    alloc: Global,
    front: Front,
    story: &Story,
    answer: Answer<'_>,
) -> Result<Option<MovedLine>, AllocError>
    ensures { IfOk result (λ line. IsMovedLine front.look.whole
        (spec.moved story.now front.moment (answer_of answer.entry)) line) }
{
    if shown_moment(front.moment).is_none() {
        return Ok(None);
    }
    let calls = collected(alloc, story.calls(answer))?;
    match story.waiting().first() {
        Some(first) => line_of(alloc, front.look.whole, first, &calls),
        None => Ok(None),
    }
}

/// The same of a unit that makes these calls.
fn line_of(
    alloc: Global,
    whole: bool,
    unit: &Waiting,
    calls: &[Call<'_>],
) -> Result<Option<MovedLine>, AllocError>
    ensures { IfOk result (λ line. IsMovedLine whole (spec.moved_in unit.now.2.caller
        unit.now.2.unit.messages (late_tag unit.now) calls.now) line) }
{
    match unit.messages() {
        [message] => {
            let message = message.message();
            message_line(alloc, whole, unit.caller(), &message, late_tag(unit), calls)
        }
        _ => Ok(None),
    }
}

/// The same of a message that was handed in by a caller.
fn message_line(
    alloc: Global,
    whole: bool,
    caller: u32,
    message: &Message<'_>,
    late: Option<u64>,
    calls: &[Call<'_>],
) -> Result<Option<MovedLine>, AllocError>
    ensures { IfOk result (λ line. IsMovedLine whole (spec.moved_by caller message.now
        (spec.plain_argument message.now late calls.now)) line) }
{
    match plain_argument(message, late, calls) {
        Some(argument) => Ok(Some(MovedLine {
            caller,
            address: Vec::from_slice(alloc, message.pattern().bytes())?,
            words: argument_words(alloc, whole, argument)?,
        })),
        None => Ok(None),
    }
}

/// The argument of a message, where it has one alone, called just its own address, and came late for
/// no time tag.
fn plain_argument<'a>(
    message: &Message<'a>,
    late: Option<u64>,
    calls: &[Call<'_>],
) -> Option<Arg<'a>>
    ensures { option_map shown result ≡ spec.plain_argument message.now late calls.now }
{
    match (late, calls) {
        (None, [call]) if call.address() == message.pattern().bytes() => {
            one_argument(message.args())
        }
        _ => None,
    }
}

/// The argument, where there is one alone.
fn one_argument(args: Args<'_>) -> Option<Arg<'_>>
    ensures { option_map shown result ≡ spec.one_argument (left args.entry) }
{
    let mut args = args;
    match (args.next(), args.next()) {
        (Some(argument), None) => Some(argument),
        _ => None,
    }
}
