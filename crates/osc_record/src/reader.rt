//! Recordings, read from borrowed bytes.
ghost use Rattle.std.specs.Prelude.{◌≡◌, ◌≤◌, length, Some, None};

use crate::caps::Caps;
use crate::entries_left::Entries;
use crate::header::read_header;
use crate::sized_messages::check_entries;
use crate::version::Version;
use std::marker::Model;
use thiserror::Error;

/// The bytes aren't a recording.
#[derive(Clone, Copy, Debug, PartialEq, Eq, Error)]
#[error("the recording is malformed at byte {at}")]
pub struct Malformed {
    /// The place of the header or of the first entry that doesn't read.
    pub at: u32,
}

/// A recording, borrowed from its bytes; docs/FORMATS.md, "The recording", has the format. A
/// contract sees the limits, and the entries, each at its place.
#[derive(Drop)]
pub struct Reader<'a> {
    caps: Caps,
    bytes: &'a [u8],
}

impl<'a> Model for Reader<'a> {
    ghost use Rattle.osc_record.specs.declared.version.Version.TheVariants.{Second};
    ghost use Rattle.osc_record.specs.Reading.{ReadRecord, read_of, AreRead};

    ghost Value = { ReadRecord };

    ghost view = { λ r. read_of Second r.caps r.bytes.now };

    ghost invariant = { λ r. AreRead Second r.caps r.bytes.now };
}

impl<'a> Reader<'a> {
    ghost use Rattle.std.specs.Prelude.{◌≡◌, ◌≤◌, ℕ, List, length, IfOk, IfErr, IsOkAnd, Ok, Err};
    ghost use Rattle.osc_model.specs.Limits.{Limits, header_size, max_recording};
    ghost use Rattle.osc_model.specs.Events.{Entry as Recorded};
    ghost use Rattle.osc_model.specs.Recordings.{record_text};
    ghost use Rattle.osc_record.specs.Reading.{record_read, placed_from, unplaced, IsRecord};
    ghost use Rattle.osc_record.specs.Reading.{IsMalformedAt};
    ghost use Rattle.osc_record.specs.declared.version.Version.TheVariants.{Second};
    ghost use Rattle.osc_record.specs.Left.{entries_left};

    /// Accepts exactly a recording, and borrows it. Else tells the first malformed place. Packets
    /// and addresses may be any bytes that their arguments can hold. Takes no memory.
    pub fn check(bytes: &'a [u8]) -> Result<Reader<'a>, Malformed>
        requires { length bytes.now ≤ max_recording }
        ensures ok { IfOk result
            (λ reader. record_read Second bytes.now ≡ Ok (reader.caps, reader.entries)) }
        ensures first { IfErr result (λ malformed. IsMalformedAt bytes.now malformed.at) }
        ensures err { IfErr result (λ malformed. record_read Second bytes.now ≡ Err malformed.at) }
        ensures written { IfOk result
            (λ reader. IsRecord reader.caps (unplaced reader.entries)
            × (bytes.now ≡ record_text reader.caps (unplaced reader.entries))) }
        ensures complete { (limits : Limits) (entries : List Recorded) → IsRecord limits entries
            → bytes.now ≡ record_text limits entries
            → IsOkAnd result
            (λ reader. (reader.caps ≡ limits)
            × (reader.entries ≡ placed_from header_size entries)) }
    {
        let Some(caps) = read_header(bytes) else {
            return Err(Malformed { at: 0 });
        };
        match check_entries(Version::Second, bytes, caps.recording()) {
            Ok(()) => Ok(Reader { caps, bytes }),
            Err(at) => Err(Malformed { at }),
        }
    }

    /// The limits.
    pub fn caps(&self) -> Caps
        ensures { result ≡ self.now.caps }
    {
        self.caps
    }

    /// The entries, in order.
    pub fn entries(&self) -> Entries<'a>
        ensures { entries_left result ≡ self.now.entries }
    {
        Entries::new(Version::Second, self.bytes, self.caps.recording())
    }
}
