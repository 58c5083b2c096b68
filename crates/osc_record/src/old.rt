//! Recordings of the first version of the format, read from borrowed bytes.
ghost use Rattle.std.specs.Prelude.{◌≡◌, ◌≤◌, length, is_none};
ghost use Rattle.osc_record.specs.declared.version.Version.TheVariants.{First};
ghost use Rattle.osc_record.specs.Reading.{header_read};
ghost use Rattle.osc_record.specs.Versions.{limit_fault_in};

use crate::entries_left::Entries;
use crate::header::{lawful_caps, told_header};
use crate::limits::{MAX_RECORDING, OLD_HEADER_SIZE};
use crate::reader::Malformed;
use crate::sized_messages::check_entries;
use crate::version::Version;
use osc_model::Limits;
use std::marker::Model;

/// A recording of the first version of the format, borrowed from its bytes; docs/FORMATS.md, "Old
/// recordings", has what differs. A contract sees the limits, under which late units are delivered,
/// and the entries, each at its place.
#[derive(Drop)]
pub struct Old<'a> {
    limits: Limits,
    bytes: &'a [u8],
}

impl<'a> Model for Old<'a> {
    ghost use Rattle.osc_record.specs.declared.version.Version.TheVariants.{First};
    ghost use Rattle.osc_record.specs.Reading.{ReadRecord, read_of, AreRead};

    ghost Value = { ReadRecord };

    ghost view = { λ o. read_of First o.limits o.bytes.now };

    ghost invariant = { λ o. AreRead First o.limits o.bytes.now };
}

impl<'a> Old<'a> {
    ghost use Rattle.std.specs.Prelude.{◌≡◌, ◌≤◌, List, length, IfOk, IfErr, IsOkAnd, Ok, Err};
    ghost use Rattle.osc_model.specs.Limits.{max_recording, Limits as ModelLimits};
    ghost use Rattle.osc_model.specs.Events.{Entry as Recorded};
    ghost use Rattle.osc_record.specs.declared.version.Version.TheVariants.{First};
    ghost use Rattle.osc_record.specs.Versions.{header_size_of, record_text_in};
    ghost use Rattle.osc_record.specs.Reading.{record_read, placed_by, unplaced, IsRecordIn};
    ghost use Rattle.osc_record.specs.Reading.{IsMalformedIn};
    ghost use Rattle.osc_record.specs.Left.{entries_left};

    /// Accepts exactly a recording of the first version, and borrows it. Else tells the first
    /// malformed place. Packets and addresses may be any bytes that their arguments can hold. Takes
    /// no memory.
    pub fn check(bytes: &'a [u8]) -> Result<Old<'a>, Malformed>
        requires { length bytes.now ≤ max_recording }
        ensures ok { IfOk result (λ old. record_read First bytes.now ≡ Ok (old.caps, old.entries)) }
        ensures first { IfErr result (λ malformed. IsMalformedIn First bytes.now malformed.at) }
        ensures err { IfErr result (λ malformed. record_read First bytes.now ≡ Err malformed.at) }
        ensures written { IfOk result
            (λ old. IsRecordIn First old.caps (unplaced old.entries)
            × (bytes.now ≡ record_text_in First old.caps (unplaced old.entries))) }
        ensures complete { (limits : ModelLimits) (entries : List Recorded)
            → IsRecordIn First limits entries
            → bytes.now ≡ record_text_in First limits entries
            → IsOkAnd result
            (λ old. (old.caps ≡ limits)
            × (old.entries ≡ placed_by First (header_size_of First) entries)) }
    {
        let Some(limits) = read_old_header(bytes) else {
            return Err(Malformed { at: 0 });
        };
        match check_entries(Version::First, bytes, limits.recording) {
            Ok(()) => Ok(Old { limits, bytes }),
            Err(at) => Err(Malformed { at }),
        }
    }

    /// The limits; late units are delivered.
    pub fn limits(&self) -> Limits
        ensures { result ≡ self.now.caps }
    {
        self.limits
    }

    /// How many queued units there may be.
    pub fn units(&self) -> u32
        ensures { result ≡ self.now.caps.units }
    {
        self.limits.units
    }

    /// How many blocks of 64 bytes there are for their messages.
    pub fn blocks(&self) -> u32
        ensures { result ≡ self.now.caps.blocks }
    {
        self.limits.blocks
    }

    /// How many methods there may be.
    pub fn methods(&self) -> u32
        ensures { result ≡ self.now.caps.methods }
    {
        self.limits.methods
    }

    /// How many nodes the methods' addresses may have.
    pub fn nodes(&self) -> u32
        ensures { result ≡ self.now.caps.nodes }
    {
        self.limits.nodes
    }

    /// How many callers there may be, the first among them.
    pub fn callers(&self) -> u32
        ensures { result ≡ self.now.caps.callers }
    {
        self.limits.callers
    }

    /// How many bytes the recording may have, its header among them.
    pub fn recording(&self) -> u32
        ensures { result ≡ self.now.caps.recording }
    {
        self.limits.recording
    }

    /// The entries, in order: each `Queued` has a `late` of 0, and each place is that in the old
    /// bytes.
    pub fn entries(&self) -> Entries<'a>
        ensures { entries_left result ≡ self.now.entries }
    {
        Entries::new(Version::First, self.bytes, self.limits.recording)
    }
}

/// The header that the bytes begin with, if each of its limits is in its range.
fn read_old_header(bytes: &[u8]) -> Option<Limits>
    ensures { result ≡ header_read First bytes.now }
{
    let limits = told_header(Version::First, bytes)?;
    if is_lawful(limits) {
        Some(limits)
    } else {
        None
    }
}

/// Whether each limit is in its range, where the recording has at least a header.
fn is_lawful(limits: Limits) -> bool
    ensures { result ≡ is_none (limit_fault_in First limits) }
{
    if limits.recording < OLD_HEADER_SIZE || limits.recording > MAX_RECORDING {
        return false;
    }
    lawful_caps(Limits {
        recording: MAX_RECORDING,
        ..limits
    })
    .is_some()
}
