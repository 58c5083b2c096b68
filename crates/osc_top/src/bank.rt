// Deals a script's lines and a bank to lanes.
ghost use Rattle.std.specs.Prelude.{◌≡◌, ◌++◌, ◌∷◌, [], ◌<◌, ◌≤◌, length, map, take, drop};
ghost use Rattle.std.specs.Prelude.{replicate, IfOk, OnOk};
ghost use Rattle.std.specs.Vec.Iter.{into_iter_items};
ghost use Rattle.osc_lanes.specs.Performs.{part_of};
ghost use Rattle.osc_script.specs.Adds.{count_adds, adds_of};
ghost use Rattle.osc_top.specs.Lanes.{parts_of};
ghost use Rattle.osc_top.specs.Dealt.{dealt_at, no_part};

use crate::counts::{is_add, lane_count};
use osc_lanes::LanePart;
use osc_script::{Act, Line};
use std::alloc::{AllocError, Global};
use std::vec::IntoIter;

/// The lines and the boxes lane by lane, the k-th box for the k-th line that adds a method; and the
/// boxes that no line takes. An `Err` means out of memory.
pub(crate) fn deal<M: Drop>(
    alloc: Global,
    lines: Vec<Line>,
    bank: Vec<M>,
) -> Result<(Vec<LanePart<M>>, IntoIter<M>), AllocError>
    requires enough { count_adds lines.items ≤ length bank.items }
    ensures parts { IfOk result
        (λ dealt. map part_of dealt.0.items ≡ parts_of lines.items bank.items) }
    ensures rest { IfOk result
        (λ dealt. into_iter_items dealt.1 ≡ drop (count_adds lines.items) bank.items) }
{
    let mut parts = empty_parts(alloc, lane_count(&lines))?;
    let mut boxes = bank.into_iter();
    for line in lines {
        deal_line(&mut parts, line, &mut boxes)?;
    }
    Ok((parts, boxes))
}

fn empty_parts<M: Drop>(alloc: Global, count: usize) -> Result<Vec<LanePart<M>>, AllocError>
    ensures { IfOk result (λ parts. map part_of parts.items ≡ replicate count no_part) }
{
    let mut parts = Vec::with_capacity(alloc, count)?;
    for _made in 0..count {
        parts.push(LanePart {
            lines: Vec::new(alloc),
            boxes: Vec::new(alloc),
        })?;
    }
    Ok(parts)
}

/// Puts a line, and where it adds a method the next box, after those of its lane.
fn deal_line<M: Drop>(
    parts: &mut Vec<LanePart<M>>,
    line: Line,
    boxes: &mut IntoIter<M>,
) -> Result<(), AllocError>
    requires lane { line.lane < length parts.old.items }
    requires handed { adds_of line.act ≤ length (into_iter_items boxes.old) }
    ensures parts { OnOk result (map part_of parts.new.items
        ≡ dealt_at line.lane line (take (adds_of line.act) (into_iter_items boxes.old))
        (map part_of parts.old.items)) }
    ensures rest { OnOk result
        (into_iter_items boxes.new ≡ drop (adds_of line.act) (into_iter_items boxes.old)) }
{
    let lane = line.lane as usize;
    put_line(&mut parts[lane], line, boxes)?;
    Ok(())
}

fn put_line<M: Drop>(
    part: &mut LanePart<M>,
    line: Line,
    boxes: &mut IntoIter<M>,
) -> Result<(), AllocError>
    requires { adds_of line.act ≤ length (into_iter_items boxes.old) }
    ensures lines { OnOk result (part.new.lines.items ≡ part.old.lines.items ++ line ∷ []) }
    ensures boxes { OnOk result (part.new.boxes.items
        ≡ part.old.boxes.items ++ take (adds_of line.act) (into_iter_items boxes.old)) }
    ensures rest { OnOk result
        (into_iter_items boxes.new ≡ drop (adds_of line.act) (into_iter_items boxes.old)) }
{
    put_box(&mut part.boxes, &line.act, boxes)?;
    part.lines.push(line)?;
    Ok(())
}

fn put_box<M: Drop>(held: &mut Vec<M>, act: &Act, boxes: &mut IntoIter<M>) -> Result<(), AllocError>
    requires { adds_of act.now ≤ length (into_iter_items boxes.old) }
    ensures held { OnOk result
        (held.new.items ≡ held.old.items ++ take (adds_of act.now) (into_iter_items boxes.old)) }
    ensures rest { OnOk result
        (into_iter_items boxes.new ≡ drop (adds_of act.now) (into_iter_items boxes.old)) }
{
    if !is_add(act) {
        return Ok(());
    }
    let Some(method) = boxes.next() else {
        unreachable!()
    };
    held.push(method)?;
    Ok(())
}
