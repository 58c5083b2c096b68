// Lines of one moment, after the line of the day where it is another one.
ghost use Rattle.std.specs.Prelude.{◌≡◌, [], IfOk, OnOk};
ghost use Rattle.osc_report.specs.Pages.{begins_day, is_new_day, IsPage, IsPageAt, IsDatedPage};
ghost use Rattle.osc_report.specs.Pages.{AddsDated};

use crate::{Options, Span};
use osc_shown::{WallClock, day_line, day_number};
use std::alloc::{AllocError, Global};

/// The lines, after the line of a day where they are the first of it that is shown and have the time
/// of day, unless none of
/// their moment are; and when the last line was shown then.
pub(crate) fn page_of(
    alloc: Global,
    options: &Options,
    span: Span,
    moment: Option<u64>,
    lines: &[u8],
) -> Result<(Vec<u8>, Span), AllocError>
    ensures { IfOk result
        (λ page. IsPage options.now span moment lines.now page.0.items page.1) }
{
    let mut page = Vec::new(alloc);
    if lines.is_empty() {
        return Ok((page, span));
    }
    let after = add_page(&mut page, options, span, moment, lines)?;
    Ok((page, after))
}

fn add_page(
    page: &mut Vec<u8>,
    options: &Options,
    span: Span,
    moment: Option<u64>,
    lines: &[u8],
) -> Result<Span, AllocError>
    requires { page.old.items ≡ [] }
    ensures { IfOk result
        (λ after. IsPageAt options.now span moment lines.now page.new.items after) }
{
    match moment {
        Some(moment) => add_within(page, options, span, moment, lines),
        None => {
            page.extend_from_slice(lines)?;
            Ok(span)
        }
    }
}

fn add_within(
    page: &mut Vec<u8>,
    options: &Options,
    span: Span,
    moment: u64,
    lines: &[u8],
) -> Result<Span, AllocError>
    requires { page.old.items ≡ [] }
    ensures { IfOk result
        (λ after. IsDatedPage options.now span moment lines.now page.new.items after) }
{
    if !options.has(moment) {
        return Ok(span);
    }
    add_dated(page, options, span.last, moment, lines)?;
    Ok(span.with(moment))
}

fn add_dated(
    page: &mut Vec<u8>,
    options: &Options,
    last: Option<u64>,
    moment: u64,
    lines: &[u8],
) -> Result<(), AllocError>
    ensures { OnOk result (AddsDated options.now last moment lines.now page.old.items
        page.new.items) }
{
    if begins_day(options, last, moment) {
        day_line(page, options.look, moment)?;
    }
    page.extend_from_slice(lines)
}

/// Whether the line of a day stands before lines of a moment.
fn begins_day(options: &Options, last: Option<u64>, moment: u64) -> bool
    ensures { result ≡ begins_day options.now last moment }
{
    !options.is_relative() && is_new_day(options.look.clock, last, moment)
}

/// Whether a moment is on another day than the last one that was shown, if any was.
fn is_new_day(clock: WallClock, last: Option<u64>, moment: u64) -> bool
    ensures { result ≡ is_new_day clock last moment }
{
    match last {
        Some(last) => day_number(clock, last) != day_number(clock, moment),
        None => true,
    }
}
