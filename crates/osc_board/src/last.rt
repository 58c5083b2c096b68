// The last calls of methods.
ghost use Rattle.std.specs.Prelude.{◌≡◌, ◌≤◌, ◌<◌, ◌+◌, option_map, not, ◌==◌};
ghost use Rattle.std.specs.Vec.{vec_len, vec_capacity};
ghost use Rattle.osc_board.specs.Sights.{noted, all_noted, count_of, others};
ghost use Rattle.osc_board.specs.Sights as spec;

use crate::note::Note;
use osc_atoms::Bytes;

/// The last call of a method.
pub(crate) struct Last {
    /// The method's id.
    pub(crate) id: u32,
    /// How often it was called.
    pub(crate) count: u64,
    /// The clock at its last call.
    pub(crate) at: u64,
    /// The words of that call's arguments.
    pub(crate) words: Bytes,
}

impl Drop for Last {
    fn drop(self) {
        let Last {
            id: _,
            count: _,
            at: _,
            words: _,
        } = self;
    }
}

/// The last call of the method with an id, if it was called.
pub(crate) fn last_of(lasts: &[Last], id: u32) -> Option<&Last>
    ensures { option_map (λ last. last.now) result ≡ spec.last_of lasts.now id }
{
    lasts.iter().find(|last| last.id == id)
}

/// How often the method with an id was called.
fn count_of(lasts: &[Last], id: u32) -> u64
    ensures { result ≡ count_of lasts.now id }
{
    match last_of(lasts, id) {
        Some(last) => last.count,
        None => 0,
    }
}

/// The last calls of the other methods stay.
fn keep_others(lasts: &mut Vec<Last>, id: u32)
    ensures items { lasts.new.items ≡ others lasts.old.items id }
    ensures len { vec_len lasts.new ≤ vec_len lasts.old }
    ensures capacity { vec_capacity lasts.new ≡ vec_capacity lasts.old }
{
    lasts.retain(|last| last.id != id);
}

/// One call more, at a moment. There is room for it.
fn note(lasts: &mut Vec<Last>, at: u64, note: Note)
    requires { vec_len lasts.old < vec_capacity lasts.old }
    ensures items { lasts.new.items ≡ noted at note lasts.old.items }
    ensures len { vec_len lasts.new ≤ vec_len lasts.old + 1 }
    ensures capacity { vec_capacity lasts.old ≤ vec_capacity lasts.new }
{
    let Note { id, words } = note;
    let count = count_of(lasts, id).saturating_add(1);
    keep_others(lasts, id);
    lasts.push_reserved(Last {
        id,
        count,
        at,
        words,
    });
}

/// Calls one after another, at a moment. There is room for all.
pub(crate) fn note_all(lasts: &mut Vec<Last>, at: u64, notes: Vec<Note>)
    requires { vec_len lasts.old + vec_len notes ≤ vec_capacity lasts.old }
    ensures { lasts.new.items ≡ all_noted at notes.items lasts.old.items }
{
    for one in notes {
        note(lasts, at, one);
    }
}
