// The lines of an entry.
ghost use Rattle.std.specs.Prelude.{◌≡◌, OnOk, IfOk, None};
ghost use Rattle.osc_record.specs.Left.{placed_of};
ghost use Rattle.osc_record.specs.Shown.{event_of, answer_of};
ghost use Rattle.osc_story.specs.Standings.{disagreement, fault_of};
ghost use Rattle.osc_report.specs.Entries.{AddsEvent, AreEntryLines};

use crate::Options;
use crate::front::Front;
use crate::note::{add_add, add_enrol, add_remove, add_tick};
use crate::release::add_release;
use crate::submit::add_submit;
use osc_record::{Answer, Entry, Event};
use osc_story::Story;
use std::alloc::{AllocError, Global};

/// The lines of an entry, before it is seen, if it agrees. They look so, but for its caller.
pub(crate) fn entry_lines(
    alloc: Global,
    options: &Options,
    front: Front,
    story: &Story,
    entry: &Entry<'_>,
) -> Result<Vec<u8>, AllocError>
    ensures { IfOk result (λ lines. disagreement story.now (placed_of entry.now).entry ≡ None
        → AreEntryLines options.now front story.now (placed_of entry.now).entry lines.items) }
{
    let mut lines = Vec::new(alloc);
    add_event(
        &mut lines,
        options,
        options.front_by(front, entry.caller),
        story,
        entry.event,
        entry.answer,
    )?;
    Ok(lines)
}

fn add_event(
    out: &mut Vec<u8>,
    options: &Options,
    front: Front,
    story: &Story,
    event: Event<'_>,
    answer: Answer<'_>,
) -> Result<(), AllocError>
    ensures { OnOk result (fault_of story.now (event_of event.entry) (answer_of answer.entry) ≡ None
        → AddsEvent options.now front story.now (event_of event.entry) (answer_of answer.entry)
        out.old.items out.new.items) }
{
    match event {
        Event::Enrol => add_enrol(out, options, front, answer),
        Event::Submit(packet) => add_submit(out, options, front, story, packet, answer),
        Event::Add(address) => add_add(out, options, front, story.methods(), address, answer),
        Event::Remove(address) => add_remove(out, options, front, address, answer),
        Event::Tick(now) => add_tick(out, options, front, now, answer),
        Event::Release => add_release(out, options, front, story, answer),
    }
}
