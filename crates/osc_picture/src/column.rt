// Marks, one for all of a column.
ghost use Rattle.std.specs.Prelude.{◌≡◌, ◌≤◌, ◌<◌, ◌^◌, ◌++◌, OnOk, None};
ghost use Rattle.osc_picture.specs.Columns as spec;

use crate::element::{add_point, add_step};
use crate::frame::Frame;
use std::alloc::AllocError;

/// The form of a mark, and how high it stands.
#[derive(Clone, Copy)]
pub(crate) enum Mark {
    Upright { top: u64, end: u64 },
    Open { top: u64, end: u64 },
    Cross { middle: u64 },
}

/// Adds a mark at each moment, but none that shares a column so wide with the one before it.
pub(crate) fn add_marks(
    out: &mut Vec<u8>,
    frame: Frame,
    width: u64,
    mark: Mark,
    moments: &[u64],
) -> Result<(), AllocError>
    requires width { 1 ≤ width }
    requires low { spec.IsLow mark }
    ensures { OnOk result (out.new.items
        ≡ out.old.items ++ spec.marks frame width mark None moments.now) }
{
    let mut before: Option<u64> = None;
    let mut rest = moments;
    while let Some((at, others)) = rest.split_first() {
        let x = frame.x(*at);
        add_unless_same(out, before, x / width, x, mark)?;
        before = Some(x / width);
        rest = others;
    }
    Ok(())
}

/// Adds a mark, unless the one before it was in the same column.
fn add_unless_same(
    out: &mut Vec<u8>,
    before: Option<u64>,
    column: u64,
    x: u64,
    mark: Mark,
) -> Result<(), AllocError>
    requires x { x ≤ 7740 }
    requires low { spec.IsLow mark }
    ensures { OnOk result (out.new.items
        ≡ out.old.items ++ spec.unless_same before column (spec.mark_steps mark x)) }
{
    if is_same(before, column) {
        return Ok(());
    }
    add_mark(out, mark, x)
}

/// Whether the column is that of the one before.
pub(crate) fn is_same(before: Option<u64>, column: u64) -> bool
    ensures { result ≡ spec.is_same before column }
{
    match before {
        Some(before) => before == column,
        None => false,
    }
}

fn add_mark(out: &mut Vec<u8>, mark: Mark, x: u64) -> Result<(), AllocError>
    requires x { x ≤ 7740 }
    requires low { spec.IsLow mark }
    ensures { OnOk result (out.new.items ≡ out.old.items ++ spec.mark_steps mark x) }
{
    match mark {
        Mark::Upright { top, end } => add_upright(out, x, top, end),
        Mark::Open { top, end } => add_open(out, x, top, end),
        Mark::Cross { middle } => add_cross(out, x, middle),
    }
}

/// Adds the steps of an upright line.
pub(crate) fn add_upright(out: &mut Vec<u8>, x: u64, top: u64, end: u64) -> Result<(), AllocError>
    ensures { OnOk result (out.new.items ≡ out.old.items ++ spec.upright x top end) }
{
    add_point(out, b'M', x, top)?;
    add_step(out, b'V', end)
}

/// Adds the steps of an open mark.
pub(crate) fn add_open(out: &mut Vec<u8>, x: u64, top: u64, end: u64) -> Result<(), AllocError>
    requires { x < 2 ^ 33 }
    ensures { OnOk result (out.new.items ≡ out.old.items ++ spec.open_mark x top end) }
{
    add_point(out, b'M', x.saturating_sub(20), top)?;
    add_step(out, b'H', x + 20)?;
    add_step(out, b'V', end)?;
    add_step(out, b'H', x.saturating_sub(20))?;
    add_step(out, b'V', top.saturating_sub(5))
}

/// Adds the steps of a cross.
#[tactic(auto, unfolding(crate::specs::Columns::cross))]
pub(crate) fn add_cross(out: &mut Vec<u8>, x: u64, middle: u64) -> Result<(), AllocError>
    requires x { x < 2 ^ 33 }
    requires y { middle < 2 ^ 33 }
    ensures { OnOk result (out.new.items ≡ out.old.items ++ spec.cross x middle) }
{
    add_point(out, b'M', x.saturating_sub(30), middle.saturating_sub(30))?;
    add_point(out, b'L', x + 30, middle + 30)?;
    add_point(out, b'M', x.saturating_sub(30), middle + 30)?;
    add_point(out, b'L', x + 30, middle.saturating_sub(30))
}
