// The entries of the recording of a history, each read once.
ghost use Rattle.std.specs.Prelude.{◌≡◌, ◌≤◌, length};
ghost use Rattle.osc_live.specs.Left.{AreRows};

use osc_record::{Caps, Entry, Unread};
use std::marker::Model;

/// The entries of a recording that aren't read yet, in order. None is looked at before its turn. A
/// contract sees each at its place.
#[derive(Drop)]
pub(crate) struct Rows<'a> {
    unread: Unread<'a>,
}

impl<'a> Model for Rows<'a> {
    ghost use Rattle.std.specs.Prelude.{List};
    ghost use Rattle.osc_record.specs.Reading.{Placed};
    ghost use Rattle.osc_live.specs.Left.{AreRows, rows_in};

    ghost Value = { List Placed };

    ghost view = { λ r. rows_in r.unread };

    ghost invariant = { λ r. AreRows r.unread };
}

impl<'a> Rows<'a> {
    ghost use Rattle.std.specs.Prelude.{◌≡◌, ◌≤◌, List, length};
    ghost use Rattle.osc_model.specs.Limits.{Limits, header_size, max_recording};
    ghost use Rattle.osc_model.specs.Events.{Entry as Recorded};
    ghost use Rattle.osc_model.specs.Recordings.{record_text};
    ghost use Rattle.osc_record.specs.Reading.{IsRecord, placed_from};
    ghost use Rattle.osc_live.specs.Left.{AreRows};

    /// The limits of a recording, and its entries. Takes no memory.
    pub(crate) fn open(recording: &'a [u8]) -> (Caps, Rows<'a>)
        requires small { length recording.now ≤ max_recording }
        requires recording { (caps : Limits) × (history : List Recorded) × IsRecord caps history
            × (recording.now ≡ record_text caps history) }
        ensures { (caps : Limits) (history : List Recorded) → IsRecord caps history
            → recording.now ≡ record_text caps history
            → (result.0 ≡ caps) × (result.1 ≡ placed_from header_size history) }
    {
        let Ok(unread) = Unread::open(recording) else {
            unreachable!()
        };
        (unread.caps(), Rows { unread })
    }
}

impl<'a> Iterator for Rows<'a> {
    type Item = Entry<'a>;

    ghost use Rattle.std.specs.Iterator.{YieldsFirstBy, item_count};
    ghost use Rattle.osc_record.specs.Left.{placed_of};

    ghost next_gives = { YieldsFirstBy placed_of (λ left. left) };

    ghost remaining = { item_count (λ left. left) };

    fn next(&mut self) -> Option<Entry<'a>> {
        match self.unread.next_entry() {
            Ok(next) => next,
            Err(_) => unreachable!(),
        }
    }
}
