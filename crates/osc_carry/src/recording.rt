// What stands at the end of a recording.
ghost use Rattle.std.specs.Prelude.{◌≡◌, ◌≤◌, List, length, IfOk, IfErr, OnOk, None};
ghost use Rattle.osc_model.specs.Limits.{Limits, max_recording};
ghost use Rattle.osc_model.specs.Events.{Entry as Recorded};
ghost use Rattle.osc_record.specs.Left.{placed_of};
ghost use Rattle.osc_record.specs.Reading.{unplaced};
ghost use Rattle.osc_replay.specs.Disagreeing.{IsRecordingOf, DisagreesAt};
ghost use Rattle.osc_replay.specs.Formed.{IsUnformedAt};
ghost use Rattle.osc_story.specs.Standings.{opened, standing_after, disagreement, AgreesAll};
ghost use Rattle.osc_story.specs.Standings as standing;
ghost use Rattle.osc_carry.specs.declared.fault.CarryFault.TheVariants.{NoMemory};
ghost use Rattle.osc_carry.specs.Answers.{OnMalformed, OnDisagrees, OnTooLong};

use crate::fault::CarryFault;
use osc_record::{Entry, Reader};
use osc_replay::check;
use osc_story::{SeeFault, Story};
use std::alloc::{AllocError, Global};

/// What stands at the end of a recording. Refuses bytes as `osc_replay::check` does.
pub(crate) fn story_of(alloc: Global, recording: &[u8]) -> Result<Story, CarryFault>
    requires { length recording.now ≤ max_recording }
    ensures ok { IfOk result
        (λ story. (caps : Limits) × (history : List Recorded)
        × IsRecordingOf recording.now caps history × (story ≡ standing_after caps.late history)) }
    ensures malformed { OnMalformed result (λ at. IsUnformedAt recording.now at) }
    ensures disagrees { OnDisagrees result
        (λ entry kept computed. DisagreesAt recording.now entry kept computed) }
    ensures short { OnTooLong result ⊥ }
    ensures complete { (caps : Limits) (history : List Recorded)
        → IsRecordingOf recording.now caps history → IfErr result (λ fault. fault ≡ NoMemory) }
{
    osc_model::laws::a_legal_history_is_recordable();
    osc_record::laws::texts_differ();
    osc_story::laws::a_legal_history_agrees();
    check(alloc, recording)?;
    match Reader::check(recording) {
        Ok(reader) => Ok(seen(alloc, &reader)?),
        Err(_) => unreachable!(),
    }
}

/// What stands after the entries that are read, which agree.
fn seen(alloc: Global, reader: &Reader<'_>) -> Result<Story, AllocError>
    requires { AgreesAll (opened reader.now.caps.late) (unplaced reader.now.entries) }
    ensures { IfOk result
        (λ story. story ≡ standing_after reader.now.caps.late (unplaced reader.now.entries)) }
{
    let mut story = Story::open(alloc, reader.caps().late());
    for entry in reader.entries() {
        see(&mut story, &entry)?;
    }
    Ok(story)
}

/// Sees an entry that agrees.
fn see(story: &mut Story, entry: &Entry<'_>) -> Result<(), AllocError>
    requires { disagreement story.old (placed_of entry.now).entry ≡ None }
    ensures { OnOk result (story.new ≡ standing.seen story.old (placed_of entry.now).entry) }
{
    match story.see(entry) {
        Ok(()) => Ok(()),
        Err(SeeFault::NoMemory) => Err(AllocError),
        Err(SeeFault::Disagrees(_)) => unreachable!(),
    }
}
