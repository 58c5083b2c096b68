// A row, as it is drawn.
ghost use Rattle.std.specs.Prelude.{◌≡◌, ◌≤◌, ◌++◌, ◌<◌, ◌^◌, OnOk, IfOk};
ghost use Rattle.osc_picture.specs.Columns.{IsLow};
ghost use Rattle.osc_picture.specs.Strips as spec;

use crate::caption::add_captions;
use crate::column::{Mark, add_marks};
use crate::curve::add_curve;
use crate::element::{add, add_path, add_rect, add_text};
use crate::frame::Frame;
use crate::row::{Row, Sort};
use crate::shelf::{Shelf, first_name};
use crate::stay::Stay;
use crate::wait::add_waits;
use std::alloc::{AllocError, Global};

/// How many characters a label may have.
const MOST_LABEL: usize = 16;

/// Adds the rows, each on its shelf.
pub(crate) fn add_strips(
    out: &mut Vec<u8>,
    frame: Frame,
    shelves: &[Shelf],
    rows: &[Row],
) -> Result<(), AllocError>
    ensures { OnOk result
        (out.new.items ≡ out.old.items ++ spec.strips frame shelves.now rows.now) }
{
    let mut places = shelves;
    let mut rest = rows;
    while let (Some((shelf, lower)), Some((row, others))) = (
        places.split_first(),
        rest.split_first(),
    ) {
        add_strip(out, frame, *shelf, row)?;
        places = lower;
        rest = others;
    }
    Ok(())
}

/// Adds a row: its label, what waited, its calls, what was performed and called nothing, and what
/// was discarded or refused.
#[tactic(auto, unfolding(crate::specs::Strips::strip))]
fn add_strip(out: &mut Vec<u8>, frame: Frame, shelf: Shelf, row: &Row) -> Result<(), AllocError>
    ensures { OnOk result (out.new.items ≡ out.old.items ++ spec.strip frame shelf row.now) }
{
    let top = u64::from(shelf.top);
    add_label(out, top, shelf.shared, row)?;
    add_waits(out, frame, top + middle_of(row.sort), &row.waits)?;
    add_calls(out, frame, top, row)?;
    add_others(out, frame, top, row)
}

/// How far below its top the label of a row stands, the upper and the lower end of its marks, and
/// their middle.
fn label_of(sort: Sort) -> u64
    ensures value { result ≡ spec.label_of sort }
    ensures small { result ≤ 400 }
{
    match sort {
        Sort::Curve => 215,
        Sort::Texts => 160,
        Sort::Marks => 130,
    }
}

fn over_of(sort: Sort) -> u64
    ensures value { result ≡ spec.over_of sort }
    ensures small { result ≤ 400 }
{
    match sort {
        Sort::Curve => 270,
        Sort::Texts => 160,
        Sort::Marks => 35,
    }
}

fn under_of(sort: Sort) -> u64
    ensures value { result ≡ spec.under_of sort }
    ensures small { result ≤ 400 }
{
    match sort {
        Sort::Curve => 320,
        Sort::Texts => 210,
        Sort::Marks => 135,
    }
}

fn middle_of(sort: Sort) -> u64
    ensures value { result ≡ spec.middle_of sort }
    ensures small { result ≤ 400 }
{
    match sort {
        Sort::Curve => 295,
        Sort::Texts => 185,
        Sort::Marks => 85,
    }
}

#[tactic(auto, unfolding(crate::specs::Strips::label_text))]
fn add_label(out: &mut Vec<u8>, top: u64, shared: bool, row: &Row) -> Result<(), AllocError>
    requires { top < 2 ^ 32 }
    ensures { OnOk result (out.new.items ≡ out.old.items ++ spec.label_text top shared row.now) }
{
    let words = label_words(*out.allocator(), shared, row.address.as_slice())?;
    add_text(out, b"a", 150, top + label_of(row.sort), &words)
}

/// An address, or what follows its first name, or the end of that.
fn label_words(alloc: Global, shared: bool, address: &[u8]) -> Result<Vec<u8>, AllocError>
    ensures { IfOk result (λ words. words.items ≡ spec.label_words shared address.now) }
{
    let whole = if shared { after_name(address) } else { address };
    let mut words = Vec::new(alloc);
    if whole.len() > MOST_LABEL {
        add(&mut words, b"..")?;
        add(&mut words, &whole[whole.len() - (MOST_LABEL - 2)..])?;
        return Ok(words);
    }
    add(&mut words, whole)?;
    Ok(words)
}

fn after_name(address: &[u8]) -> &[u8]
    ensures { result.now ≡ spec.after_name address.now }
{
    &address[first_name(address).len()..]
}

/// Adds the marks of calls, and their numbers or texts.
#[tactic(auto, unfolding(crate::specs::Strips::calls_text))]
fn add_calls(out: &mut Vec<u8>, frame: Frame, top: u64, row: &Row) -> Result<(), AllocError>
    requires { top < 2 ^ 32 }
    ensures { OnOk result (out.new.items ≡ out.old.items ++ spec.calls_text frame top row.now) }
{
    let mark = Mark::Upright {
        top: top + over_of(row.sort),
        end: top + under_of(row.sort),
    };
    add_marked(
        out,
        kind_of(row.sort),
        frame,
        frame.width(),
        mark,
        &row.calls,
    )?;
    match row.sort {
        Sort::Curve => add_curve(out, frame, top, row),
        Sort::Texts => add_captions(out, frame, top + 130, &row.texts),
        Sort::Marks => Ok(()),
    }
}

fn kind_of(sort: Sort) -> &'static [u8]
    ensures { result.now ≡ spec.kind_of sort }
{
    match sort {
        Sort::Curve => b"class=\"k\" ",
        _ => b"",
    }
}

/// Adds a path of marks.
fn add_marked(
    out: &mut Vec<u8>,
    kind: &[u8],
    frame: Frame,
    width: u64,
    mark: Mark,
    moments: &[u64],
) -> Result<(), AllocError>
    requires width { 1 ≤ width }
    requires low { IsLow mark }
    ensures { OnOk result (out.new.items
        ≡ out.old.items ++ spec.marked kind.now frame width mark moments.now) }
{
    let alloc: Global = *out.allocator();
    let mut steps = Vec::new(alloc);
    add_marks(&mut steps, frame, width, mark, moments)?;
    add_path(out, kind, &steps)
}

/// Adds what was performed and called nothing, and what was discarded or refused.
#[tactic(auto, unfolding(crate::specs::Strips::others_text))]
fn add_others(out: &mut Vec<u8>, frame: Frame, top: u64, row: &Row) -> Result<(), AllocError>
    requires { top < 2 ^ 32 }
    ensures { OnOk result (out.new.items ≡ out.old.items ++ spec.others_text frame top row.now) }
{
    let open = Mark::Open {
        top: top + over_of(row.sort),
        end: top + under_of(row.sort),
    };
    let cross = Mark::Cross {
        middle: top + middle_of(row.sort),
    };
    add_marked(out, b"class=\"o\" ", frame, 20, open, &row.unheard)?;
    add_marked(out, b"class=\"x\" ", frame, 20, cross, &row.crosses)
}

/// Adds a rectangle after each row for each time in which the method was there.
pub(crate) fn add_lives(
    out: &mut Vec<u8>,
    frame: Frame,
    shelves: &[Shelf],
    rows: &[Row],
) -> Result<(), AllocError>
    ensures { OnOk result (out.new.items ≡ out.old.items ++ spec.lives frame shelves.now rows.now) }
{
    let mut places = shelves;
    let mut rest = rows;
    while let (Some((shelf, lower)), Some((row, others))) = (
        places.split_first(),
        rest.split_first(),
    ) {
        add_row_lives(out, frame, *shelf, &row.lives)?;
        places = lower;
        rest = others;
    }
    Ok(())
}

fn add_row_lives(
    out: &mut Vec<u8>,
    frame: Frame,
    shelf: Shelf,
    lives: &[Stay],
) -> Result<(), AllocError>
    ensures { OnOk result (out.new.items ≡ out.old.items ++ spec.row_lives frame shelf lives.now) }
{
    let mut rest = lives;
    while let Some((life, others)) = rest.split_first() {
        add_life(out, frame, shelf, *life)?;
        rest = others;
    }
    Ok(())
}

fn add_life(out: &mut Vec<u8>, frame: Frame, shelf: Shelf, life: Stay) -> Result<(), AllocError>
    ensures { OnOk result (out.new.items ≡ out.old.items ++ spec.life_text frame shelf life) }
{
    let left = frame.x(life.from);
    let width = frame.end(life.to).saturating_sub(left).max(10);
    let height = u64::from(shelf.height).saturating_sub(40);
    add_rect(out, b"l", left, u64::from(shelf.top), width, height)
}

/// Adds the names that rows share, each above the first of them.
pub(crate) fn add_heads(
    out: &mut Vec<u8>,
    shelves: &[Shelf],
    rows: &[Row],
) -> Result<(), AllocError>
    ensures { OnOk result (out.new.items ≡ out.old.items ++ spec.heads shelves.now rows.now) }
{
    let mut places = shelves;
    let mut rest = rows;
    while let (Some((shelf, lower)), Some((row, others))) = (
        places.split_first(),
        rest.split_first(),
    ) {
        add_head(out, *shelf, row)?;
        places = lower;
        rest = others;
    }
    Ok(())
}

fn add_head(out: &mut Vec<u8>, shelf: Shelf, row: &Row) -> Result<(), AllocError>
    ensures { OnOk result (out.new.items ≡ out.old.items ++ spec.head_text shelf row.now) }
{
    if !shelf.headed {
        return Ok(());
    }
    let y = u64::from(shelf.top).saturating_sub(50);
    add_text(out, b"g", 150, y, first_name(row.address.as_slice()))
}
