// What stands above the rows.
ghost use Rattle.std.specs.Prelude.{◌≡◌, ◌++◌, OnOk, IfOk};
ghost use Rattle.osc_picture.specs.Headings as spec;
ghost use Rattle.osc_picture.specs.Thinnings.{thinned_words};

use crate::element::add_text;
use crate::frame::Frame;
use crate::picture::Picture;
use crate::shelf::lower;
use crate::thinning::thinned_words;
use osc_atoms::Bytes;
use std::alloc::{AllocError, Global};

/// Where the first row stands: below all lines.
pub(crate) fn top_of(frame: Frame, picture: &Picture) -> u32
    ensures { result ≡ spec.top_of frame picture.now }
{
    let thinned: u128 = if frame.thinned { 1 } else { 0 };
    let notes = thinned + picture.sums.len() as u128 + picture.notes.len() as u128;
    (950 + 190 * notes).min(0xFFFF_FFFF) as u32
}

/// Adds the title, and a line for each note.
#[tactic(auto, unfolding(crate::specs::Headings::heading_text))]
pub(crate) fn add_heading(
    out: &mut Vec<u8>,
    frame: Frame,
    picture: &Picture,
) -> Result<(), AllocError>
    ensures { OnOk result (out.new.items ≡ out.old.items ++ spec.heading_text frame picture.now) }
{
    add_text(out, b"t", 150, 330, picture.title.as_slice())?;
    let y = add_notes(out, 560, &picture.sums)?;
    let y = add_thinned(out, y, frame, picture)?;
    add_notes(out, y, &picture.notes)?;
    Ok(())
}

/// Adds a line for each, from a height on, and tells where the next would stand.
fn add_notes(out: &mut Vec<u8>, begin: u32, notes: &[Bytes]) -> Result<u32, AllocError>
    ensures text { OnOk result (out.new.items ≡ out.old.items ++ spec.notes_text begin notes.now) }
    ensures end { IfOk result (λ y. y ≡ spec.after_notes begin notes.now) }
{
    let mut y = begin;
    let mut rest = notes;
    while let Some((note, others)) = rest.split_first() {
        add_text(out, b"", 150, u64::from(y), note.as_slice())?;
        y = lower(y, 190);
        rest = others;
    }
    Ok(y)
}

/// Adds the line that says how calls are thinned, if they are.
fn add_thinned(
    out: &mut Vec<u8>,
    y: u32,
    frame: Frame,
    picture: &Picture,
) -> Result<u32, AllocError>
    ensures text { OnOk result (out.new.items
        ≡ out.old.items ++ spec.note_text y (thinned_words frame picture.now)) }
    ensures end { IfOk result (λ next. next ≡ spec.after_note y (thinned_words frame picture.now)) }
{
    match thinned_words(*out.allocator(), frame, picture)? {
        Some(words) => {
            add_text(out, b"", 150, u64::from(y), &words)?;
            Ok(lower(y, 190))
        }
        None => Ok(y),
    }
}
