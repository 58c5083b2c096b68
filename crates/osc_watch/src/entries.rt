//! How the edits of entries are noted.
ghost use Rattle.std.specs.Prelude.{◌≡◌, ◌≤◌, ◌++◌, ◌∷◌, [], length, IfOk, MatchResult};
ghost use Rattle.std.specs.Option.{option_map};
ghost use Rattle.osc_model.specs.Limits.{header_size, max_recording};
ghost use Rattle.osc_record.specs.Shown.{event_of, answer_of};
ghost use Rattle.osc_record.specs.Left.{placed_of};
ghost use Rattle.osc_watch.specs.Listing.{edit_of};
ghost use Rattle.osc_watch.specs.Edits.{edit_by, edits_of};
ghost use Rattle.osc_watch.specs.Watching.{noted, published, IsSameBoard};
ghost use Rattle.osc_watch.specs.Notes.{NotesNext, Notes, IsPlaceIn, StandWithin};

use crate::board::Board;
use crate::row::{MethodRow, RowEdit};
use osc_atoms::Bytes;
use osc_record::{Answer, Entry, Event, Unread};
use std::alloc::{AllocError, Global};

/// Where reading entries stopped.
#[derive(Clone, Copy)]
pub enum Stop {
    /// All bytes were read.
    AtEnd,
    /// The entry at the place isn't whole.
    At(u32),
    /// There was no memory for the edit of the entry at the place.
    NoMemory(u32),
}

/// Notes the edits of the entries that stand after a header, as many as are whole.
pub(crate) fn note_all(board: &mut Board, bytes: &[u8]) -> Stop
    requires long { header_size ≤ length bytes.now }
    requires small { length bytes.now ≤ max_recording }
    requires within { StandWithin bytes.now }
    ensures board { IsSameBoard board.old board.new }
    ensures published { published board.new ≡ published board.old }
    ensures place { IsPlaceIn (length bytes.now) result }
    ensures notes { Notes bytes.now (noted board.old) (noted board.new) result }
{
    osc_record::laws::a_written_entry_is_read_again();
    osc_record::laws::sizes();
    osc_record::laws::headers_differ();
    let Ok(mut unread) = Unread::open(bytes) else {
        unreachable!()
    };
    loop {
        match note_next(board, &mut unread) {
            Some(stop) => return stop,
            None => {}
        }
    }
}

/// Notes the edit of the next entry.
fn note_next(board: &mut Board, unread: &mut Unread<'_>) -> Option<Stop>
    ensures board { IsSameBoard board.old board.new }
    ensures published { published board.new ≡ published board.old }
    ensures notes { NotesNext unread.old unread.new (noted board.old) (noted board.new) result }
{
    match unread.next_entry() {
        Ok(Some(entry)) => match note_entry(board, &entry) {
            Ok(()) => None,
            Err(_) => Some(Stop::NoMemory(entry.at)),
        },
        Ok(None) => Some(Stop::AtEnd),
        Err(malformed) => Some(Stop::At(malformed.at)),
    }
}

fn note_entry(board: &mut Board, entry: &Entry<'_>) -> Result<(), AllocError>
    ensures board { IsSameBoard board.old board.new }
    ensures published { published board.new ≡ published board.old }
    ensures noted { MatchResult result
        (λ _. noted board.new ≡ noted board.old ++ edits_of ((placed_of entry.now).entry ∷ []))
        (λ _. noted board.new ≡ noted board.old) }
{
    match edit_in(board.alloc, entry)? {
        Some(edit) => board.note(edit),
        None => Ok(()),
    }
}

/// The edit that an entry makes, if it makes one.
fn edit_in(alloc: Global, entry: &Entry<'_>) -> Result<Option<RowEdit>, AllocError>
    ensures { IfOk result (λ edit. option_map edit_of edit
        ≡ edit_by (event_of entry.now.event) (answer_of entry.now.answer)) }
{
    match (entry.event, entry.answer) {
        (Event::Add(address), Answer::Added(id)) => {
            Ok(Some(row_edit(alloc, id, address, true)?))
        }
        (Event::Remove(address), Answer::Removed(id)) => {
            Ok(Some(row_edit(alloc, id, address, false)?))
        }
        _ => Ok(None),
    }
}

fn row_edit(alloc: Global, id: u32, address: &[u8], enters: bool) -> Result<RowEdit, AllocError>
    ensures { IfOk result (λ edit. edit_of edit
        ≡ record { id = id; address = address.now; enters = enters }) }
{
    let row = MethodRow {
        id,
        address: Bytes::copied(alloc, address)?,
    };
    Ok(RowEdit { row, enters })
}
