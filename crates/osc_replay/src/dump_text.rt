//! Recordings, printed as they stand.
ghost use Rattle.std.specs.Prelude.{◌≡◌, ◌≤◌, ◌++◌, List, length, IfOk};
ghost use Rattle.osc_print.specs.Dumps.{dumped};
ghost use Rattle.osc_model.specs.Limits.{Limits, max_recording};
ghost use Rattle.osc_model.specs.Events.{Entry as Recorded};
ghost use Rattle.osc_model.specs.Recordings.{record_text};
ghost use Rattle.osc_replay.specs.declared.dump_text.DumpFault.TheVariants.{Malformed as MalformedAt};
ghost use Rattle.osc_replay.specs.declared.dump_text.DumpFault.TheVariants.{NoMemory};
ghost use Rattle.osc_replay.specs.Dumping.{OnUnformed, IsDumpUnlessShort};
ghost use Rattle.osc_replay.specs.Formed.{IsFormed, IsUnformedAt};

use crate::form::next_row;
use osc_print::{Text, dump_line, header_line};
use osc_record::{Malformed, Unread};
use std::alloc::{AllocError, Global};

/// Why a recording isn't dumped.
#[derive(Clone, Copy, Debug, PartialEq, Eq)]
pub enum DumpFault {
    /// The place of the header, or of the first entry, that is malformed (docs/FORMATS.md, "The
    /// recording").
    Malformed { at: u32 },
    NoMemory,
}

impl From<AllocError> for DumpFault {
    ghost from_gives = { λ _ fault. fault ≡ NoMemory };

    fn from(_error: AllocError) -> DumpFault {
        DumpFault::NoMemory
    }
}

impl From<Malformed> for DumpFault {
    ghost from_gives = { λ malformed fault. fault ≡ MalformedAt malformed.at };

    fn from(malformed: Malformed) -> DumpFault {
        DumpFault::Malformed { at: malformed.at }
    }
}

/// The dump of a recording (docs/FORMATS.md, "Dumps"): its limits, and all its entries as they
/// stand, whether a server would give them or not. Refuses bytes that are malformed anywhere.
pub fn dump(alloc: Global, recording: &[u8]) -> Result<Text, DumpFault>
    requires { length recording.now ≤ max_recording }
    ensures ok { IfOk result
        (λ text. (caps : Limits) × (entries : List Recorded) × IsFormed caps entries
        × (recording.now ≡ record_text caps entries) × (text ≡ dumped caps entries)) }
    ensures malformed { OnUnformed result (λ at. IsUnformedAt recording.now at) }
    ensures complete { (caps : Limits) (entries : List Recorded) → IsFormed caps entries
        → recording.now ≡ record_text caps entries
        → IsDumpUnlessShort result (dumped caps entries) }
{
    let mut unread = Unread::open(recording)?;
    let mut text = Text::open(alloc);
    header_line(&mut text, &unread.caps())?;
    while let Some(row) = next_row(&mut unread)? {
        dump_line(&mut text, &row.entry)?;
    }
    Ok(text)
}
