// How calls are thinned.
ghost use Rattle.std.specs.Prelude.{◌≡◌, ◌++◌, OnOk, IfOk, None, option_map};
ghost use Rattle.osc_picture.specs.Thinnings as spec;

use crate::column::is_same;
use crate::element::{add, add_decimal};
use crate::frame::Frame;
use crate::picture::Picture;
use crate::row::Row;
use crate::scale::digit;
use osc_shown::number_words;
use std::alloc::{AllocError, Global};

/// How many calls there may be that each are a mark.
const MOST_MARKS: u64 = 2000;

/// The frame of the picture, thinned where it has too many calls.
pub(crate) fn frame_of(picture: &Picture) -> Frame
    ensures { result ≡ spec.frame_of picture.now }
{
    Frame {
        thinned: count_calls(&picture.rows) > MOST_MARKS,
        ..picture.frame
    }
}

/// How many calls the rows have.
fn count_calls(rows: &[Row]) -> u64
    ensures { result ≡ spec.more_calls 0 rows.now }
{
    let mut count: u64 = 0;
    let mut rest = rows;
    while let Some((row, others)) = rest.split_first() {
        count = count.saturating_add(row.calls.len() as u64);
        rest = others;
    }
    count
}

/// How many marks they are.
fn count_marks(frame: Frame, rows: &[Row]) -> u64
    ensures { result ≡ spec.more_marks frame 0 rows.now }
{
    let mut count: u64 = 0;
    let mut rest = rows;
    while let Some((row, others)) = rest.split_first() {
        count = more_columns(frame, count, &row.calls);
        rest = others;
    }
    count
}

fn more_columns(frame: Frame, begun: u64, moments: &[u64]) -> u64
    ensures { result ≡ spec.more_columns frame begun None moments.now }
{
    let mut count = begun;
    let mut before: Option<u64> = None;
    let mut rest = moments;
    while let Some((at, others)) = rest.split_first() {
        let column = frame.column(*at);
        count = one_more(count, before, column);
        before = Some(column);
        rest = others;
    }
    count
}

/// One more, unless the one before was in the same column.
fn one_more(count: u64, before: Option<u64>, column: u64) -> u64
    ensures { result ≡ spec.one_more count before column }
{
    if is_same(before, column) {
        return count;
    }
    count.saturating_add(1)
}

/// What is said of it: nothing, unless calls are thinned.
#[tactic(auto, unfolding(crate::specs::Thinnings::thinned_words))]
pub(crate) fn thinned_words(
    alloc: Global,
    frame: Frame,
    picture: &Picture,
) -> Result<Option<Vec<u8>>, AllocError>
    ensures { IfOk result (λ words. option_map (λ words. words.items) words
        ≡ spec.thinned_words frame picture.now) }
{
    if !frame.thinned {
        return Ok(None);
    }
    let mut words = Vec::new(alloc);
    add(&mut words, b"thinned: ")?;
    add(
        &mut words,
        &number_words(alloc, count_marks(frame, &picture.rows))?,
    )?;
    add(&mut words, b" marks for ")?;
    add(
        &mut words,
        &number_words(alloc, count_calls(&picture.rows))?,
    )?;
    add(&mut words, b" calls, one for all of a row in ")?;
    add_seconds(&mut words, column_millis(frame))?;
    Ok(Some(words))
}

/// How many milliseconds a column has.
fn column_millis(frame: Frame) -> u64
    ensures { result ≡ spec.column_millis frame }
{
    ((u128::from(frame.length()) * 14 + 6039) / 6040) as u64
}

fn add_seconds(out: &mut Vec<u8>, millis: u64) -> Result<(), AllocError>
    ensures { OnOk result (out.new.items ≡ out.old.items ++ spec.seconds_text millis) }
{
    add_decimal(out, millis / 1000)?;
    add(
        out,
        &[b'.', digit(millis / 100), digit(millis / 10), digit(millis)],
    )?;
    add(out, b" s")
}
