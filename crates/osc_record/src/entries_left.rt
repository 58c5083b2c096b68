//! The entries of a recording, one after another.
ghost use Rattle.osc_model.specs.Limits.{max_recording};
ghost use Rattle.std.specs.Prelude.{◌≡◌, ◌≤◌, length, drop, IsTrue, is_ok};
ghost use Rattle.osc_record.specs.Reading.{entries_at};

use crate::event::Entry;
use crate::sized_messages::{first_entry, header_size};
use crate::version::Version;

/// The entries of a recording that are left, in order.
#[derive(Drop)]
pub struct Entries<'a> {
    version: Version,
    bytes: &'a [u8],
    limit: u32,
    at: u32,
    ghost small: { length bytes.now ≤ max_recording },
    ghost inside: { at ≤ length bytes.now },
    ghost readable: { IsTrue (is_ok (entries_at version limit at (drop at bytes.now))) },
}

impl<'a> Entries<'a> {
    ghost use Rattle.osc_model.specs.Limits.{max_recording};
    ghost use Rattle.std.specs.Prelude.{◌≡◌, ◌≤◌, length, drop, IsTrue, is_ok};
    ghost use Rattle.osc_record.specs.Versions.{header_size_of};
    ghost use Rattle.osc_record.specs.Reading.{entries_at, placed_in};
    ghost use Rattle.osc_record.specs.Left.{entries_left};

    /// The entries from the header's end on.
    pub(crate) fn new(version: Version, bytes: &'a [u8], limit: u32) -> Entries<'a>
        requires long { header_size_of version ≤ length bytes.now }
        requires small { length bytes.now ≤ max_recording }
        requires readable { IsTrue (is_ok
            (entries_at version limit (header_size_of version)
            (drop (header_size_of version) bytes.now))) }
        ensures { entries_left result
            ≡ placed_in
            (entries_at version limit (header_size_of version)
            (drop (header_size_of version) bytes.now)) }
    {
        Entries {
            version,
            bytes,
            limit,
            at: header_size(version),
        }
    }
}

impl<'a> Iterator for Entries<'a> {
    type Item = Entry<'a>;

    ghost use Rattle.std.specs.Iterator.{YieldsFirstBy, item_count};
    ghost use Rattle.osc_record.specs.Left.{placed_of, entries_left};

    ghost next_gives = { YieldsFirstBy placed_of entries_left };

    ghost remaining = { item_count entries_left };

    fn next(&mut self) -> Option<Entry<'a>> {
        if self.at as usize == self.bytes.len() {
            return None;
        }
        let at = self.at;
        match first_entry(self.version, self.limit, at, &self.bytes[at as usize..]) {
            Some((parts, size)) => {
                self.at = at + size;
                Some(Entry {
                    at,
                    caller: parts.caller,
                    event: parts.event,
                    answer: parts.answer,
                })
            }
            None => unreachable!(),
        }
    }
}
