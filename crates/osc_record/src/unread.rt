//! Recordings, read entry by entry.
ghost use Rattle.std.specs.Prelude.{◌≡◌, ◌≤◌, length};

use crate::caps::Caps;
use crate::event::Entry;
use crate::header::read_header;
use crate::limits::HEADER_SIZE;
use crate::reader::Malformed;
use crate::sized_messages::first_entry;
use crate::version::Version;
use std::marker::Model;

/// The entries of a recording that aren't read yet. No entry is looked at before it is asked for,
/// so that a malformed place is told only where it is reached. A contract sees the limits, the
/// place, and the bytes from there on.
#[derive(Drop)]
pub struct Unread<'a> {
    caps: Caps,
    at: u32,
    rest: &'a [u8],
}

impl<'a> Model for Unread<'a> {
    ghost use Rattle.osc_record.specs.Unread.{Remaining, AreBytesAt};

    ghost Value = { Remaining };

    ghost view = { λ u. record { caps = u.caps; at = u.at; rest = u.rest.now } };

    ghost invariant = { λ u. AreBytesAt u.at u.rest.now };
}

impl<'a> Unread<'a> {
    ghost use Rattle.osc_model.specs.Limits.{max_recording};
    ghost use Rattle.std.specs.Prelude.{◌≡◌, ◌≤◌, ◌+◌, [], length, drop, IfOk, IfErr, IfSome};
    ghost use Rattle.std.specs.Prelude.{IfNone, OnErr};
    ghost use Rattle.osc_record.specs.Left.{placed_of};
    ghost use Rattle.osc_record.specs.Reading.{HasNoHeader};
    ghost use Rattle.osc_record.specs.Unread.{HasHeader, Reads, HasNoNext};

    /// Reads the header alone. Takes no memory, as reading an entry takes none.
    pub fn open(bytes: &'a [u8]) -> Result<Unread<'a>, Malformed>
        requires { length bytes.now ≤ max_recording }
        ensures ok { IfOk result (λ unread. HasHeader bytes.now unread) }
        ensures err { IfErr result (λ malformed. HasNoHeader bytes.now malformed.at) }
    {
        let Some(caps) = read_header(bytes) else {
            return Err(Malformed { at: 0 });
        };
        let (_, rest) = bytes.split_at(HEADER_SIZE as usize);
        Ok(Unread {
            caps,
            at: HEADER_SIZE,
            rest,
        })
    }

    /// The limits.
    pub fn caps(&self) -> Caps
        ensures { result ≡ self.now.caps }
    {
        self.caps
    }

    /// Passes over so many bytes without reading them. The next entry is then read from the place
    /// after them: it is an entry of the recording if those bytes are whole entries.
    pub fn pass(&mut self, count: u32)
        requires { count ≤ length self.old.rest }
        ensures { self.new ≡ record self.old {
          at = self.old.at + count;
          rest = drop count self.old.rest;
        } }
    {
        let (_, rest) = self.rest.split_at(count as usize);
        self.at += count;
        self.rest = rest;
    }

    /// Reads the next entry. Packets and addresses may be any bytes that their arguments can hold.
    #[inline(always)]
    pub fn next_entry(&mut self) -> Result<Option<Entry<'a>>, Malformed>
        ensures end { IfOk result (λ next. IfNone next (self.old.rest ≡ [])) }
        ensures read { IfOk result
            (λ next. IfSome next (λ entry. Reads self.old (placed_of entry) self.new)) }
        ensures err { IfErr result (λ malformed. HasNoNext self.old malformed.at) }
        ensures still { IfOk result (λ next. IfNone next (self.new ≡ self.old)) }
        ensures unchanged { OnErr result (self.new ≡ self.old) }
    {
        if self.rest.is_empty() {
            return Ok(None);
        }
        let at = self.at;
        let Some((parts, size)) = first_entry(Version::Second, self.caps.recording(), at, self.rest)
        else {
            return Err(Malformed { at });
        };
        let (_, rest) = self.rest.split_at(size as usize);
        self.at += size;
        self.rest = rest;
        Ok(Some(Entry {
            at,
            caller: parts.caller,
            event: parts.event,
            answer: parts.answer,
        }))
    }
}
