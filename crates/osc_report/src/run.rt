// Lines that are told as runs.
ghost use Rattle.std.specs.Prelude.{◌≡◌, [], IfOk};
ghost use Rattle.osc_report.specs.Kept.{plain_of, TellsMoved};
ghost use Rattle.osc_report.specs.Runs as spec;
ghost use Rattle.osc_report.specs.Runs.{AddsAt, AddsRow, AddsRows, GathersPlain, TellsThen};

use crate::moved_line::MovedLine;
use crate::news::RunNews;
use crate::page::page_of;
use crate::stretch::shown_moment;
use crate::{Options, Span};
use osc_runs::{Row, Runs, Step};
use osc_shown::{WallClock, day_number};
use std::alloc::{AllocError, Global};

/// Gathers a line. Answers what is told then, of lines that it doesn't join.
fn gather_page(
    alloc: Global,
    options: &Options,
    span: Span,
    run: &mut Runs,
    step: &Step<'_>,
) -> Result<(Vec<u8>, Span), AllocError>
    ensures { IfOk result (λ page. GathersPlain options.now (record { span = span; run = run.old })
        step.now page.0.items page.1 run.new) }
{
    if joins(options.look.clock, run, step.moment) {
        run.gather(step)?;
        return Ok((Vec::new(alloc), span));
    }
    let told = rows_page(alloc, options, span, run.rows())?;
    run.clear();
    run.gather(step)?;
    Ok(told)
}

/// What is told at an entry. Answers when the last line was shown then, too.
pub(crate) fn run_page(
    alloc: Global,
    options: &Options,
    span: Span,
    run: &mut Runs,
    lines: &[u8],
    news: &RunNews,
) -> Result<(Vec<u8>, Span), AllocError>
    ensures { IfOk result (λ page. TellsMoved options.now (record { span = span; run = run.old })
        lines.now news.now news.now.moved page.0.items page.1 run.new) }
{
    match &news.moved {
        Some(moved) => {
            let step = step_of(options, news, moved);
            gather_page(alloc, options, span, run, &step)
        }
        None if news.all.is_empty() => Ok((Vec::new(alloc), span)),
        None => {
            let moment = shown_moment(news.front.moment);
            other_page(alloc, options, span, run, moment, lines)
        }
    }
}

/// The line of an entry that may be told with others.
fn step_of<'a>(options: &Options, news: &'a RunNews, moved: &'a MovedLine) -> Step<'a>
    ensures { result ≡ plain_of options.now news.now moved.now }
{
    Step {
        look: options.front_by(news.front, moved.caller).look,
        moment: news.front.moment,
        address: &moved.address,
        words: &moved.words,
        line: &news.all,
    }
}

/// What was gathered, and then other lines of a moment.
fn other_page(
    alloc: Global,
    options: &Options,
    span: Span,
    run: &mut Runs,
    moment: Option<u64>,
    lines: &[u8],
) -> Result<(Vec<u8>, Span), AllocError>
    ensures { IfOk result (λ page. TellsThen options.now (record { span = span; run = run.old })
        moment lines.now page.0.items page.1 run.new) }
{
    let (mut told, mid) = rows_page(alloc, options, span, run.rows())?;
    run.clear();
    let (page, after) = page_of(alloc, options, mid, moment, lines)?;
    told.extend_from_slice(&page)?;
    Ok((told, after))
}

/// What is told of rows that were gathered, and when the last line was shown then.
pub(crate) fn rows_page(
    alloc: Global,
    options: &Options,
    span: Span,
    rows: &[Row],
) -> Result<(Vec<u8>, Span), AllocError>
    ensures { IfOk result
        (λ page. AddsRows options.now span rows.now [] page.0.items page.1) }
{
    let mut told = Vec::new(alloc);
    let mut now = span;
    let mut rest = rows;
    while let Some((row, others)) = rest.split_first() {
        now = add_row(&mut told, options, now, row)?;
        rest = others;
    }
    Ok((told, now))
}

/// Adds what is told of one of them.
fn add_row(told: &mut Vec<u8>, options: &Options, span: Span, row: &Row) -> Result<Span, AllocError>
    ensures { IfOk result (λ after. AddsRow options.now span row.now told.old.items
        told.new.items after) }
{
    if row.is_many() {
        let mut text = Vec::new(*told.allocator());
        row.add_text(&mut text)?;
        return add_at(told, options, span, row.since(), row.address(), &text);
    }
    let between = add_at(told, options, span, row.since(), row.address(), row.line())?;
    add_at(
        told,
        options,
        between,
        row.till(),
        row.address(),
        row.second(),
    )
}

/// Adds lines of an address that are of one moment, those that are shown.
fn add_at(
    told: &mut Vec<u8>,
    options: &Options,
    span: Span,
    moment: u64,
    address: &[u8],
    lines: &[u8],
) -> Result<Span, AllocError>
    ensures { IfOk result (λ after. AddsAt options.now span moment address.now lines.now
        told.old.items told.new.items after) }
{
    let alloc: Global = *told.allocator();
    let lines = named_lines(options, address, lines);
    let (page, after) = page_of(alloc, options, span, Some(moment), lines)?;
    told.extend_from_slice(&page)?;
    Ok(after)
}

/// Lines of an address, if they are shown.
fn named_lines<'a>(options: &Options, address: &[u8], lines: &'a [u8]) -> &'a [u8]
    ensures { result.now ≡ spec.named_lines options.now address.now lines.now }
{
    if options.has_named(address) {
        lines
    } else {
        b""
    }
}

/// Whether a line joins those that were gathered: soon after the last of them, and on the same day.
fn joins(clock: WallClock, run: &Runs, moment: u64) -> bool
    ensures { result ≡ spec.joins clock run.now moment }
{
    run.goes_on(moment) && is_same_day(clock, run.latest(), moment)
}

fn is_same_day(clock: WallClock, latest: Option<u64>, moment: u64) -> bool
    ensures { result ≡ spec.is_same_day clock latest moment }
{
    match latest {
        Some(latest) => day_number(clock, latest) == day_number(clock, moment),
        None => true,
    }
}
