//! The picture of a sketch.
ghost use Rattle.std.specs.Prelude.{◌≡◌, IfOk};
ghost use Rattle.osc_drawing.specs.Pictures.{IsPicture};

use crate::address::{all_rows, all_unheard, most_rows};
use crate::heading::Heading;
use crate::row::rows_of;
use crate::sketch::Sketch;
use crate::tie::bundles_of;
use crate::view::View;
use osc_picture::{Frame, Picture};
use std::alloc::{AllocError, Global};

/// The picture of a sketch in a frame, as `Sketch::frame` gives it or a part of that, below these
/// words. An `Err` means out of memory.
pub fn picture_of(
    alloc: Global,
    sketch: &Sketch,
    frame: Frame,
    heading: Heading,
) -> Result<Picture, AllocError>
    ensures { IfOk result (λ picture. IsPicture sketch.now frame heading picture) }
{
    let view = View {
        frame,
        begin: sketch.begin(),
        end: sketch.end_stamp(),
    };
    let marks = sketch.marks();
    let rows = all_rows(alloc, marks)?;
    let unheard = all_unheard(alloc, &rows, marks)?;
    let upper = most_rows(&rows);
    let lower = most_rows(&unheard);
    Ok(Picture {
        frame,
        title: heading.title,
        sums: heading.sums,
        notes: heading.notes,
        rows: rows_of(alloc, view, marks, upper)?,
        unheard: rows_of(alloc, view, marks, lower)?,
        bundles: bundles_of(alloc, view, upper, lower, marks)?,
    })
}
