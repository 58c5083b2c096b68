//! What stands above a picture.
ghost use Rattle.std.specs.Prelude.{◌≡◌, IfOk};
ghost use Rattle.osc_drawing.specs.Headings as spec;

use crate::note::notes_of;
use crate::sketch::Sketch;
use crate::sum::sums_of;
use crate::title::title_of;
use osc_atoms::Bytes;
use osc_shown::WallClock;
use std::alloc::{AllocError, Global};

/// The words above a picture: its title, how much was told, and notes.
#[derive(Drop)]
pub struct Heading {
    pub title: Bytes,
    pub sums: Vec<Bytes>,
    pub notes: Vec<Bytes>,
}

/// The words above the whole picture of a sketch, of a recording that is cut off at a place or
/// isn't, by a clock on the wall. An `Err` means out of memory.
pub fn heading_of(
    alloc: Global,
    clock: WallClock,
    sketch: &Sketch,
    cut: Option<u32>,
) -> Result<Heading, AllocError>
    ensures { IfOk result (λ heading. spec.IsHeading clock sketch.now cut heading) }
{
    Ok(Heading {
        title: title(alloc, clock, sketch)?,
        sums: sums_of(alloc, clock, sketch)?,
        notes: notes_of(alloc, sketch.marks(), cut)?,
    })
}

fn title(alloc: Global, clock: WallClock, sketch: &Sketch) -> Result<Bytes, AllocError>
    ensures { IfOk result (λ title. spec.IsTitleOf clock sketch.now title) }
{
    if sketch.is_in_order() {
        return Bytes::copied(alloc, b"In order: the clock doesn't move");
    }
    title_of(alloc, clock, first_of(sketch), sketch.story().clock())
}

/// The first moment after a tick, or where the clock stands.
pub(crate) fn first_of(sketch: &Sketch) -> u64
    ensures { result ≡ spec.first_of sketch.now }
{
    sketch.first().unwrap_or(sketch.story().clock())
}
