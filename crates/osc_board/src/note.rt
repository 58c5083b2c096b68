// What is noted of calls.
ghost use Rattle.std.specs.Prelude.{◌≡◌, map, IfOk};
ghost use Rattle.osc_board.specs.Sights.{note_of};

use crate::words::words_of;
use osc_atoms::Bytes;
use osc_story::{Call, Calls};
use std::alloc::{AllocError, Global};

/// What is noted of a call: the method's id, and the words of the message's arguments.
#[derive(Drop)]
pub(crate) struct Note {
    pub(crate) id: u32,
    pub(crate) words: Bytes,
}

/// What is noted of each call.
pub(crate) fn notes_of(alloc: Global, calls: Calls<'_>) -> Result<Vec<Note>, AllocError>
    ensures { IfOk result (λ notes. notes.items ≡ map note_of calls.entry) }
{
    let mut notes = Vec::new(alloc);
    for call in calls {
        notes.push(note_of(alloc, &call)?)?;
    }
    Ok(notes)
}

fn note_of(alloc: Global, call: &Call<'_>) -> Result<Note, AllocError>
    ensures { IfOk result (λ note. note ≡ note_of call.now) }
{
    Ok(Note {
        id: call.id(),
        words: words_of(alloc, call.message())?,
    })
}
