// The curves of numbers.
ghost use Rattle.std.specs.Prelude.{◌≡◌, ◌++◌, ◌<◌, ◌^◌, OnOk};
ghost use Rattle.osc_picture.specs.Curves as spec;

use crate::element::{add_path, add_point, add_step, add_text};
use crate::frame::Frame;
use crate::row::{Call, Row};
use crate::stay::Stay;
use std::alloc::{AllocError, Global};

/// Which range of numbers a curve has, and between which heights it stands.
#[derive(Clone, Copy)]
pub(crate) struct Range {
    pub(crate) low: u64,
    pub(crate) high: u64,
    pub(crate) under: u64,
}

/// The heights of the calls of a column.
#[derive(Clone, Copy)]
pub(crate) struct Bend {
    pub(crate) column: u64,
    /// The place of the last call.
    pub(crate) x: u64,
    pub(crate) first: u64,
    pub(crate) least: u64,
    pub(crate) most: u64,
    pub(crate) last: u64,
}

/// Adds a curve from the first call to the end or the last removal, and the ends of its range.
#[tactic(auto, unfolding(crate::specs::Curves::curve_text))]
pub(crate) fn add_curve(
    out: &mut Vec<u8>,
    frame: Frame,
    top: u64,
    row: &Row,
) -> Result<(), AllocError>
    requires { top < 2 ^ 33 }
    ensures { OnOk result (out.new.items ≡ out.old.items ++ spec.curve_text frame top row.now) }
{
    let range = Range {
        low: row.low.number(),
        high: row.high.number(),
        under: top + 240,
    };
    let edge = edge_of(frame, &row.lives);
    let alloc: Global = *out.allocator();
    let mut steps = Vec::new(alloc);
    add_steps(&mut steps, frame, range, edge, &row.numbers)?;
    add_path(out, b"class=\"c\" ", &steps)?;
    add_text(out, b"v e", 1660, top + 100, row.high.words())?;
    add_text(out, b"v e", 1660, top + 240, row.low.words())
}

/// Where the last of them ends.
fn edge_of(frame: Frame, lives: &[Stay]) -> u64
    ensures { result ≡ spec.edge_of frame 0 lives.now }
{
    let mut edge = 0;
    let mut rest = lives;
    while let Some((life, others)) = rest.split_first() {
        edge = frame.end(life.to).max(edge);
        rest = others;
    }
    edge
}

fn add_steps(
    out: &mut Vec<u8>,
    frame: Frame,
    range: Range,
    edge: u64,
    calls: &[Call],
) -> Result<(), AllocError>
    ensures { OnOk result (out.new.items
        ≡ out.old.items ++ spec.curve_steps frame range edge calls.now) }
{
    match calls.split_first() {
        Some((first, others)) => {
            let bend = bend_of(frame, range, *first);
            add_point(out, b'M', bend.x, bend.first)?;
            add_steps_after(out, frame, range, (edge, bend), others)
        }
        None => Ok(()),
    }
}

/// Adds the steps after the first call of a column.
fn add_steps_after(
    out: &mut Vec<u8>,
    frame: Frame,
    range: Range,
    begun: (u64, Bend),
    calls: &[Call],
) -> Result<(), AllocError>
    ensures { OnOk result (out.new.items
        ≡ out.old.items ++ spec.steps_after frame range begun.0 begun.1 calls.now) }
{
    let mut bend = begun.1;
    let mut rest = calls;
    while let Some((call, others)) = rest.split_first() {
        let next = bend_of(frame, range, *call);
        add_between(out, bend, next)?;
        bend = joined(bend, next);
        rest = others;
    }
    add_turns(out, bend)?;
    add_step(out, b'H', bend.x.max(begun.0))
}

/// The bend of one call.
fn bend_of(frame: Frame, range: Range, call: Call) -> Bend
    ensures { result ≡ spec.bend_of frame range call }
{
    let y = height(range, call.number);
    Bend {
        column: frame.column(call.at),
        x: frame.x(call.at),
        first: y,
        least: y,
        most: y,
        last: y,
    }
}

/// How high a number stands.
fn height(range: Range, number: u64) -> u64
    ensures { result ≡ spec.height_of range number }
{
    let length = range.high.saturating_sub(range.low).max(1);
    let part = number.saturating_sub(range.low);
    let up = (u128::from(part) * 200 / u128::from(length)).min(200) as u64;
    range.under.saturating_sub(up)
}

/// Adds all steps from one column to the next, and none within one.
fn add_between(out: &mut Vec<u8>, bend: Bend, next: Bend) -> Result<(), AllocError>
    ensures { OnOk result (out.new.items ≡ out.old.items ++ spec.between bend next) }
{
    if bend.column == next.column {
        return Ok(());
    }
    add_turns(out, bend)?;
    add_step(out, b'H', next.x)?;
    add_step(out, b'V', next.first)
}

/// The bend of both, if they share a column, else the next one.
fn joined(bend: Bend, next: Bend) -> Bend
    ensures { result ≡ spec.joined bend next }
{
    if bend.column != next.column {
        return next;
    }
    Bend {
        column: bend.column,
        x: next.x,
        first: bend.first,
        least: bend.least.min(next.least),
        most: bend.most.max(next.most),
        last: next.last,
    }
}

/// Adds the steps from the first height of a column over its least and its greatest to its last.
fn add_turns(out: &mut Vec<u8>, bend: Bend) -> Result<(), AllocError>
    ensures { OnOk result (out.new.items ≡ out.old.items ++ spec.turns bend) }
{
    add_turn(out, bend.first, bend.least)?;
    add_turn(out, bend.least, bend.most)?;
    add_turn(out, bend.most, bend.last)
}

fn add_turn(out: &mut Vec<u8>, from: u64, to: u64) -> Result<(), AllocError>
    ensures { OnOk result (out.new.items ≡ out.old.items ++ spec.turn from to) }
{
    if from == to {
        return Ok(());
    }
    add_step(out, b'V', to)
}
