// Draws a picture of a recording, or of a show in several.
ghost use Rattle.std.specs.Prelude.{◌≤◌, length};
ghost use Rattle.osc_model.specs.Limits.{max_recording};

use crate::asked::Showing;
use crate::files::read_recording;
use crate::recording::{Judged, judge, offset_for, window_for};
use crate::window::Window;
use jiff_core::Offset;
use osc_drawing::{DrawFault, Heading, Sketch, entries_of, heading_of, picture_of, title_of};
use osc_edge::StdSink;
use osc_ends::status::{DONE, REFUSED, USAGE};
use osc_ends::write_text;
use osc_picture::add_svg;
use osc_record::{Entry, Late, Unread};
use osc_shown::WallClock;
use std::alloc::{AllocError, Global};

/// The days by which a clock on the wall is counted ahead, in seconds, so that it is no negative number.
const AHEAD: i32 = 172_800;

/// What is drawn, and where the last recording of it is cut.
#[derive(Drop)]
struct Drawing {
    sketch: Sketch,
    cut: Option<u32>,
}

/// Writes a picture of the recordings, which go on from one another, each as far as it is whole,
/// unless one is refused.
pub fn draw_recordings(rt: &HostRuntime, showing: &Showing) -> Result<u8, AllocError> {
    let mut drawn = None;
    for file in &showing.files {
        match draw_recording(rt, file, drawn)? {
            Ok(drawing) => drawn = Some(drawing),
            Err(status) => return Ok(status),
        }
    }
    match drawn {
        Some(drawing) => write_picture(rt, showing, &drawing),
        None => Ok(USAGE),
    }
}

/// What is drawn, with one recording more. The `Err` inside is the status, where it is refused,
/// which is reported.
fn draw_recording(
    rt: &HostRuntime,
    file: &str,
    drawn: Option<Drawing>,
) -> Result<Result<Drawing, u8>, AllocError> {
    let recording = match read_recording(rt, file)? {
        Ok(recording) => recording,
        Err(status) => return Ok(Err(status)),
    };
    match judge(rt, file, &recording)? {
        Judged::Whole | Judged::CutAt(_) => draw_bytes(rt.alloc(), &recording, drawn),
        Judged::Refused => Ok(Err(REFUSED)),
    }
}

/// The same with the whole entries of these bytes.
fn draw_bytes(
    alloc: Global,
    recording: &[u8],
    drawn: Option<Drawing>,
) -> Result<Result<Drawing, u8>, AllocError>
    requires { length recording.now ≤ max_recording }
{
    let Ok(mut unread) = Unread::open(recording) else {
        return Ok(Err(REFUSED));
    };
    let late = unread.caps().late();
    let (entries, cut) = entries_of(alloc, &mut unread)?;
    match sketch_with(alloc, drawn, late, &entries) {
        Ok(sketch) => Ok(Ok(Drawing { sketch, cut })),
        Err(DrawFault::NoMemory) => Err(AllocError),
        Err(DrawFault::Disagrees { .. }) => Ok(Err(REFUSED)),
    }
}

fn sketch_with(
    alloc: Global,
    drawn: Option<Drawing>,
    late: Late,
    entries: &[Entry<'_>],
) -> Result<Sketch, DrawFault> {
    match drawn {
        Some(Drawing { mut sketch, .. }) => {
            sketch.go_on(late, entries)?;
            Ok(sketch)
        }
        None => Sketch::of(alloc, late, entries),
    }
}

/// Writes the picture, from one time to another where they are said.
fn write_picture(rt: &HostRuntime, showing: &Showing, drawing: &Drawing) -> Result<u8, AllocError> {
    let alloc = rt.alloc();
    let sketch = &drawing.sketch;
    let offset = offset_for(rt, showing, sketch.first());
    let Some(window) = window_for(rt, showing, sketch.first()) else {
        return Ok(USAGE);
    };
    let Window { from, to } = window;
    let frame = sketch.part(ahead_of(offset), from, to);
    let heading = heading_for(alloc, WallClock::at(offset), drawing, window)?;
    let picture = picture_of(alloc, sketch, frame, heading)?;
    let mut text = Vec::new(alloc);
    add_svg(&mut text, &picture)?;
    Ok(write_text(DONE, &text, &mut StdSink::open(rt)))
}

/// What stands above the picture, whose title says from when to when it goes.
fn heading_for(
    alloc: Global,
    clock: WallClock,
    drawing: &Drawing,
    Window { from, to }: Window,
) -> Result<Heading, AllocError> {
    let sketch = &drawing.sketch;
    let heading = heading_of(alloc, clock, sketch, drawing.cut)?;
    if sketch.is_in_order() || (from.is_none() && to.is_none()) {
        return Ok(heading);
    }
    let last = sketch.story().clock();
    let from = from.unwrap_or(sketch.first().unwrap_or(last));
    let title = title_of(alloc, clock, from, to.unwrap_or(last))?;
    Ok(Heading { title, ..heading })
}

/// How far a clock on the wall is ahead, in milliseconds.
fn ahead_of(offset: Offset) -> u64 {
    (i64::from(offset.seconds + AHEAD) as u64).saturating_mul(1000)
}
