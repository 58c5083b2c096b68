//! Recordings of the first version of the format, upgraded.
ghost use Rattle.std.specs.Prelude.{◌≡◌, ◌+◌, ◌<◌, ◌≤◌, ◌^◌, ◌++◌, min, List, length, IfOk};
ghost use Rattle.std.specs.List.{AllByRecursion};
ghost use Rattle.std.specs.Vec.{vec_len, vec_capacity};
ghost use Rattle.osc_model.specs.Limits.{Limits, header_size, max_recording};
ghost use Rattle.osc_model.specs.Events.{Entry as Recorded};
ghost use Rattle.osc_model.specs.Recordings.{IsRecordable, record_text};
ghost use Rattle.osc_record.specs.Left.{entries_left};
ghost use Rattle.osc_record.specs.Reading.{unplaced};
ghost use Rattle.osc_record.specs.Versions.{AreInOldRange};
ghost use Rattle.osc_replay.specs.declared.upgrade_text.UpgradeFault.TheVariants.{Malformed as At};
ghost use Rattle.osc_replay.specs.declared.upgrade_text.UpgradeFault.TheVariants.{NoMemory};
ghost use Rattle.osc_replay.specs.Old.{IsOldRecordingOf, IsOldUnformedAt, OldLegal};
ghost use Rattle.osc_replay.specs.Upgrading.{submits_in, upgraded, upgraded_text, OnOldMalformed};
ghost use Rattle.osc_replay.specs.Upgrading.{OnTooLarge, IsUpgradedUnlessShort, PrintsTheSame};
ghost use Rattle.osc_replay.specs.Upgrading.{texts_of, DisagreesThere};

use crate::old::well_formed_old;
use osc_atoms::Bytes;
use osc_record::{Caps, Entries, Event, Malformed, Old, append_header, append_recorded};
use std::alloc::{AllocError, Global};

/// Why a recording isn't upgraded.
#[derive(Clone, Copy, Debug, PartialEq, Eq)]
pub enum UpgradeFault {
    /// The place of the header, or of the first entry, that is malformed (docs/FORMATS.md, "Old
    /// recordings").
    Malformed { at: u32 },
    /// The upgraded recording needs more bytes than the limit.
    TooLarge { need: u64, limit: u32 },
    NoMemory,
}

impl From<AllocError> for UpgradeFault {
    ghost from_gives = { λ _ fault. fault ≡ NoMemory };

    fn from(_error: AllocError) -> UpgradeFault {
        UpgradeFault::NoMemory
    }
}

impl From<Malformed> for UpgradeFault {
    ghost from_gives = { λ malformed fault. fault ≡ At malformed.at };

    fn from(malformed: Malformed) -> UpgradeFault {
        UpgradeFault::Malformed { at: malformed.at }
    }
}

/// The bytes of the header and of each submit that the first version lacks.
const ADDED: u64 = 4;

/// A recording of the first version as one of today with the same entries (docs/FORMATS.md, "Old
/// recordings"). Late units are delivered; the recording's limit grows as the recording does, up to
/// `limit`.
pub fn upgrade(alloc: Global, recording: &[u8], limit: u32) -> Result<Bytes, UpgradeFault>
    requires small { length recording.now ≤ max_recording }
    requires least { header_size ≤ limit }
    requires most { limit ≤ max_recording }
    ensures ok { IfOk result
        (λ bytes. (caps : Limits) × (history : List Recorded)
        × IsOldRecordingOf recording.now caps history
        × (bytes ≡ upgraded_text limit caps history)) }
    ensures malformed { OnOldMalformed result (λ at. IsOldUnformedAt recording.now at) }
    ensures too_large { OnTooLarge result
        (λ need most. (caps : Limits) × (history : List Recorded)
        × IsOldRecordingOf recording.now caps history
        × (need ≡ length (upgraded_text limit caps history)) × (most ≡ limit)
        × (limit < need)) }
    ensures complete { (caps : Limits) (history : List Recorded)
        → IsOldRecordingOf recording.now caps history
        → IsUpgradedUnlessShort result limit caps history }
    ensures legal { (caps : Limits) (history : List Recorded)
        → IsOldRecordingOf recording.now caps history → OldLegal caps history
        → IfOk result (λ bytes. PrintsTheSame bytes limit caps history) }
    ensures illegal { (caps : Limits) (history : List Recorded)
        → IsOldRecordingOf recording.now caps history
        → IfOk result (λ bytes. DisagreesThere bytes limit caps history) }
{
    osc_model::laws::a_legal_history_is_recordable();
    osc_model::laws::a_performance_goes_on();
    let old = well_formed_old(recording)?;
    let growth = ADDED + ADDED * count_submits(old.entries());
    let need = recording.len() as u64 + growth;
    if need > limit as u64 {
        return Err(UpgradeFault::TooLarge { need, limit });
    }
    let caps = upgraded_caps(&old, limit, growth);
    let bytes = written(alloc, caps, old.entries(), need)?;
    Ok(bytes)
}

/// How many of the entries are submits.
fn count_submits(entries: Entries<'_>) -> u64
    requires { submits_in (unplaced (entries_left entries)) ≤ max_recording }
    ensures { result ≡ submits_in (unplaced (entries_left entries.entry)) }
{
    let mut count = 0;
    for entry in entries {
        if matches!(entry.event, Event::Submit(_)) {
            count += 1;
        }
    }
    count
}

/// The limits of the upgraded recording.
fn upgraded_caps(old: &Old<'_>, limit: u32, growth: u64) -> Caps
    requires range { AreInOldRange old.now.caps }
    requires least { header_size ≤ limit }
    requires most { limit ≤ max_recording }
    requires grown { 4 ≤ growth }
    requires small { growth < 2 ^ 62 }
    ensures { result
        ≡ record old.now.caps { recording = min limit (old.now.caps.recording + growth) } }
{
    let recording = (old.recording() as u64 + growth).min(limit as u64) as u32;
    match Caps::of(osc_record::Limits {
        recording,
        ..old.limits()
    }) {
        Ok(caps) => caps,
        Err(_) => unreachable!(),
    }
}

/// The recording of the entries, which has so many bytes.
fn written(alloc: Global, caps: Caps, entries: Entries<'_>, size: u64) -> Result<Bytes, AllocError>
    requires recordable { AllByRecursion
        (λ entry. IsRecordable entry.caller entry.event entry.answer)
        (unplaced (entries_left entries)) }
    requires size { size ≡ length (record_text caps (unplaced (entries_left entries))) }
    requires small { size ≤ max_recording }
    ensures { IfOk result
        (λ bytes. bytes ≡ record_text caps (unplaced (entries_left entries.entry))) }
{
    let mut out = Vec::with_capacity(alloc, size as usize)?;
    append_header(&mut out, caps);
    append_entries(&mut out, entries);
    Ok(Bytes::of(out))
}

/// Appends the entries that are left.
fn append_entries(out: &mut Vec<u8>, entries: Entries<'_>)
    requires recordable { AllByRecursion
        (λ entry. IsRecordable entry.caller entry.event entry.answer)
        (unplaced (entries_left entries)) }
    requires small { length (texts_of (unplaced (entries_left entries))) ≤ max_recording }
    requires room { vec_len out.old + length (texts_of (unplaced (entries_left entries)))
        ≤ vec_capacity out.old }
    ensures { out.new.items ≡ out.old.items
        ++ texts_of (unplaced (entries_left entries.entry)) }
{
    for entry in entries {
        append_recorded(out, entry.caller, entry.event, entry.answer);
    }
}
