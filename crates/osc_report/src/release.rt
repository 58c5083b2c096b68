// The lines of a unit that is called.
ghost use Rattle.std.specs.Prelude.{◌≡◌, ◌++◌, IfOk, OnOk};
ghost use Rattle.osc_record.specs.Shown.{answer_of};
ghost use Rattle.osc_story.specs.Standings.{calls_told};
ghost use Rattle.osc_report.specs.Entries.{late_tag, empty_text, AddsRelease, AddsReleased};

use crate::Options;
use crate::front::Front;
use crate::note::add_unnamed;
use crate::stretch::shown_moment;
use crate::told::{Told, add_all_told};
use osc_record::Answer;
use osc_shown::late_tail;
use osc_story::{Call, Calls, Story, Waiting};
use std::alloc::{AllocError, Global};

/// Adds the lines of the first unit that waits, where an answer says that it was released. They are
/// those of the caller that has handed it in.
pub(crate) fn add_release(
    out: &mut Vec<u8>,
    options: &Options,
    front: Front,
    story: &Story,
    answer: Answer<'_>,
) -> Result<(), AllocError>
    ensures { OnOk result (AddsRelease options.now front story.now.waiting
        (calls_told story.now (answer_of answer.entry)) (answer_of answer.entry) out.old.items
        out.new.items) }
{
    let Answer::Released { .. } = answer else {
        return Ok(());
    };
    let Some(first) = story.waiting().first() else {
        return Ok(());
    };
    let alloc: Global = *out.allocator();
    let calls = collected(alloc, story.calls(answer))?;
    add_released(
        out,
        options,
        options.front_by(front, first.caller()),
        first,
        &calls,
    )
}

/// All that are left.
pub(crate) fn collected<'a>(alloc: Global, left: Calls<'a>) -> Result<Vec<Call<'a>>, AllocError>
    ensures { IfOk result (λ calls. calls.items ≡ left.entry) }
{
    let mut calls = Vec::new(alloc);
    for call in left {
        calls.push(call)?;
    }
    Ok(calls)
}

fn add_released(
    out: &mut Vec<u8>,
    options: &Options,
    front: Front,
    unit: &Waiting,
    calls: &[Call<'_>],
) -> Result<(), AllocError>
    ensures { OnOk result (AddsReleased options.now front unit.now calls.now out.old.items
        out.new.items) }
{
    let late = late_tag(unit);
    if unit.messages().is_empty() {
        return add_empty(out, options, front, late);
    }
    let told = Told::Called { calls, late };
    add_all_told(out, options, front, told, unit.messages())
}

/// The time tag of a unit, where it came late for it.
pub(crate) fn late_tag(unit: &Waiting) -> Option<u64>
    ensures { result ≡ late_tag unit.now }
{
    if unit.is_late() {
        Some(unit.tag())
    } else {
        None
    }
}

/// Adds the line of a unit that has no message, if it is shown.
fn add_empty(
    out: &mut Vec<u8>,
    options: &Options,
    front: Front,
    late: Option<u64>,
) -> Result<(), AllocError>
    ensures { OnOk result (out.new.items ≡ out.old.items ++
        empty_text options.now front late) }
{
    let alloc: Global = *out.allocator();
    let tail = late_tail(alloc, shown_moment(front.moment), late)?;
    add_unnamed(out, options, front, b' ', b"(no message)", &tail)
}
