// What waited.
ghost use Rattle.std.specs.Prelude.{◌≡◌, ◌++◌, ◌/◌, ◌<◌, ◌^◌, OnOk, IfOk, None};
ghost use Rattle.osc_picture.specs.Columns.{unless_same};
ghost use Rattle.osc_picture.specs.Waits as spec;

use crate::column::is_same;
use crate::element::{add_path, add_point, add_rect, add_step};
use crate::frame::Frame;
use crate::stay::Stay;
use std::alloc::{AllocError, Global};

/// Adds a line from where each message came to where it was called, and a square where it came.
#[tactic(auto, unfolding(crate::specs::Waits::waits_text))]
pub(crate) fn add_waits(
    out: &mut Vec<u8>,
    frame: Frame,
    y: u64,
    waits: &[Stay],
) -> Result<(), AllocError>
    requires { y < 2 ^ 33 }
    ensures { OnOk result (out.new.items ≡ out.old.items ++ spec.waits_text frame y waits.now) }
{
    let alloc: Global = *out.allocator();
    let mut steps = Vec::new(alloc);
    add_lines(&mut steps, frame, y, waits)?;
    add_path(out, b"class=\"w\" ", &steps)?;
    add_squares(out, frame, y, waits)
}

/// Adds the lines, none over another.
fn add_lines(out: &mut Vec<u8>, frame: Frame, y: u64, waits: &[Stay]) -> Result<(), AllocError>
    ensures { OnOk result (out.new.items ≡ out.old.items ++ spec.wait_lines frame y 0 waits.now) }
{
    let mut edge = 0;
    let mut rest = waits;
    while let Some((wait, others)) = rest.split_first() {
        let left = frame.x(wait.from);
        let right = frame.end(wait.to);
        add_line(out, y, edge, left, right)?;
        edge = edge.max(right);
        rest = others;
    }
    Ok(())
}

/// Adds a line as far as it goes over the edge of those before.
fn add_line(out: &mut Vec<u8>, y: u64, edge: u64, left: u64, right: u64) -> Result<(), AllocError>
    ensures { OnOk result (out.new.items ≡ out.old.items ++ spec.wait_line y edge left right) }
{
    if right <= edge {
        return Ok(());
    }
    add_point(out, b'M', left.max(edge), y)?;
    add_step(out, b'H', right)
}

fn add_squares(out: &mut Vec<u8>, frame: Frame, y: u64, waits: &[Stay]) -> Result<(), AllocError>
    requires { y < 2 ^ 33 }
    ensures { OnOk result (out.new.items
        ≡ out.old.items ++ spec.wait_squares frame y None waits.now) }
{
    let mut before: Option<u64> = None;
    let mut rest = waits;
    while let Some((wait, others)) = rest.split_first() {
        let x = frame.x(wait.from);
        add_unless_same(out, before, x, y)?;
        before = Some(x / 50);
        rest = others;
    }
    Ok(())
}

/// Adds a square, unless the one before it was in the same column.
fn add_unless_same(out: &mut Vec<u8>, before: Option<u64>, x: u64, y: u64) -> Result<(), AllocError>
    requires x { x < 2 ^ 33 }
    requires y { y < 2 ^ 33 }
    ensures { OnOk result (out.new.items
        ≡ out.old.items ++ unless_same before (x / 50) (spec.square x y)) }
{
    if is_same(before, x / 50) {
        return Ok(());
    }
    add_square(out, x, y)
}

/// Adds an open square: something came here, and waits.
#[tactic(auto, unfolding(crate::specs::Waits::square))]
pub(crate) fn add_square(out: &mut Vec<u8>, x: u64, y: u64) -> Result<(), AllocError>
    requires x { x < 2 ^ 33 }
    requires y { y < 2 ^ 33 }
    ensures { OnOk result (out.new.items ≡ out.old.items ++ spec.square x y) }
{
    add_rect(
        out,
        b"p",
        x.saturating_sub(25),
        y.saturating_sub(25),
        50,
        50,
    )?;
    let steps = square_steps(*out.allocator(), x, y)?;
    add_path(out, b"class=\"o\" ", &steps)
}

fn square_steps(alloc: Global, x: u64, y: u64) -> Result<Vec<u8>, AllocError>
    requires x { x < 2 ^ 33 }
    requires y { y < 2 ^ 33 }
    ensures { IfOk result (λ steps. steps.items ≡ spec.square_steps x y) }
{
    let mut steps = Vec::new(alloc);
    add_point(&mut steps, b'M', x.saturating_sub(25), y.saturating_sub(25))?;
    add_step(&mut steps, b'H', x + 25)?;
    add_step(&mut steps, b'V', y + 25)?;
    add_step(&mut steps, b'H', x.saturating_sub(25))?;
    add_step(&mut steps, b'V', y.saturating_sub(30))?;
    Ok(steps)
}
