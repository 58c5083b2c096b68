// Whether the packets and addresses of a recording of the first version are lawful.
ghost use Rattle.std.specs.Prelude.{◌≡◌, ◌≤◌, List, length, IfOk, IfErr, IsOkAnd};
ghost use Rattle.osc_model.specs.Limits.{Limits, max_recording};
ghost use Rattle.osc_model.specs.Events.{Entry as Recorded};
ghost use Rattle.osc_record.specs.declared.version.Version.TheVariants.{First};
ghost use Rattle.osc_record.specs.Left.{entries_left};
ghost use Rattle.osc_record.specs.Reading.{unplaced, IsMalformedIn};
ghost use Rattle.osc_replay.specs.Old.{IsOldRecordingOf, IsOldUnformedAt};
ghost use Rattle.osc_replay.specs.Unlawful.{first_unlawful_in};

use crate::form::lawful_event;
use osc_record::{Entries, Malformed, Old};

/// Accepts exactly a recording of the first version whose packets are valid and whose addresses are
/// lawful, and borrows it. Else tells the first malformed place (docs/FORMATS.md, "Old
/// recordings"). Takes no memory.
pub(crate) fn well_formed_old(bytes: &[u8]) -> Result<Old<'_>, Malformed>
    requires { length bytes.now ≤ max_recording }
    ensures ok { IfOk result
        (λ old. IsOldRecordingOf bytes.now old.caps (unplaced old.entries)) }
    ensures first { IfErr result (λ malformed. IsOldUnformedAt bytes.now malformed.at) }
    ensures complete { (caps : Limits) (entries : List Recorded)
        → IsOldRecordingOf bytes.now caps entries
        → IsOkAnd result (λ old. (old.caps ≡ caps) × (unplaced old.entries ≡ entries)) }
{
    match Old::check(bytes) {
        Ok(old) => match first_unlawful(old.entries()) {
            Some(at) => Err(Malformed { at }),
            None => Ok(old),
        },
        Err(malformed) => Err(first_fault(bytes, malformed)),
    }
}

/// The place where the bytes stop being a recording, or that of an unlawful entry before it.
fn first_fault(bytes: &[u8], malformed: Malformed) -> Malformed
    requires small { length bytes.now ≤ max_recording }
    requires malformed { IsMalformedIn First bytes.now malformed.at }
    ensures { IsOldUnformedAt bytes.now result.at }
{
    let (whole, _) = bytes.split_at(malformed.at as usize);
    let Ok(old) = Old::check(whole) else {
        return malformed;
    };
    match first_unlawful(old.entries()) {
        Some(at) => Malformed { at },
        None => malformed,
    }
}

/// The place of the first entry whose packet or address is unlawful.
fn first_unlawful(entries: Entries<'_>) -> Option<u32>
    ensures { result ≡ first_unlawful_in (entries_left entries.entry) }
{
    for entry in entries {
        if lawful_event(entry.event).is_none() {
            return Some(entry.at);
        }
    }
    None
}
