// The lines after those of all entries.
ghost use Rattle.std.specs.Prelude.{◌≡◌, ◌++◌, [], OnOk, IfOk};
ghost use Rattle.osc_shown.specs.Columns.{painted};
ghost use Rattle.osc_report.specs.Endings as spec;
ghost use Rattle.osc_report.specs.Endings.{AddsQueued, AddsWaiting, IsEnd};

use crate::front::Front;
use crate::page::page_of;
use crate::stretch::shown_moment;
use crate::told::{Told, add_all_told};
use crate::{Options, Span};
use osc_shown::{Look, Sums, totals_line, whole_totals_line};
use osc_story::{Story, Waiting};
use std::alloc::{AllocError, Global};

/// The lines of each message that waits and is shown, and of how much was told.
pub(crate) fn end_lines(
    alloc: Global,
    options: &Options,
    story: &Story,
    span: Span,
) -> Result<Vec<u8>, AllocError>
    ensures { IfOk result (λ text. IsEnd options.now story.now span text.items) }
{
    let mut lines = Vec::new(alloc);
    let front = options.front_at(span.first, story.clock());
    add_waiting(&mut lines, options, front, story.waiting())?;
    let moment = shown_moment(story.clock());
    let (mut page, _) = page_of(alloc, options, span, moment, &lines)?;
    add_totals(
        &mut page,
        options.look,
        options.is_part(),
        sums_of(story, span),
    )?;
    Ok(page)
}

fn add_totals(out: &mut Vec<u8>, look: Look, is_part: bool, sums: Sums) -> Result<(), AllocError>
    ensures { OnOk result (out.new.items
        ≡ out.old.items ++ painted look.colours 126 (spec.ending_words is_part sums) []) }
{
    if is_part {
        return whole_totals_line(out, look, sums);
    }
    totals_line(out, look, sums)
}

/// Adds the lines of the units that wait, where the clock stands at their moment.
fn add_waiting(
    out: &mut Vec<u8>,
    options: &Options,
    front: Front,
    units: &[Waiting],
) -> Result<(), AllocError>
    ensures { OnOk result (AddsWaiting options.now front units.now out.old.items out.new.items) }
{
    let mut rest = units;
    while let Some((unit, others)) = rest.split_first() {
        add_queued(out, options, front, unit)?;
        rest = others;
    }
    Ok(())
}

fn add_queued(
    out: &mut Vec<u8>,
    options: &Options,
    front: Front,
    unit: &Waiting,
) -> Result<(), AllocError>
    ensures { OnOk result (AddsQueued options.now front unit.now out.old.items out.new.items) }
{
    let told = Told::Queued {
        due: unit.due(),
        is_due: unit.due() <= front.moment,
    };
    let front = options.front_by(front, unit.caller());
    add_all_told(out, options, front, told, unit.messages())
}

fn sums_of(story: &Story, span: Span) -> Sums
    ensures { result ≡ spec.sums_of story.now span }
{
    let totals = story.totals();
    Sums {
        first: span.first.unwrap_or(story.clock()),
        last: story.clock(),
        messages: totals.messages,
        calls: totals.calls,
        unheard: totals.unheard,
        discarded: totals.discarded,
        refused: totals.refused,
        waiting: count_waiting(story.waiting()),
    }
}

/// How many messages wait.
fn count_waiting(units: &[Waiting]) -> u64
    ensures { result ≡ spec.more_waiting 0 units.now }
{
    let mut count: u64 = 0;
    let mut rest = units;
    while let Some((unit, others)) = rest.split_first() {
        count = count.saturating_add(unit.messages().len() as u64);
        rest = others;
    }
    count
}
