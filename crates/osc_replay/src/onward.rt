//! Recordings that are replayed, and replays that go on.
ghost use Rattle.std.specs.Prelude.{ℕ, List};
ghost use Rattle.osc_model.specs.Limits.{Limits};
ghost use Rattle.osc_model.specs.Events.{Entry as Recorded};
ghost use Rattle.osc_replay.specs.Formed.{IsFormedTo};
ghost use Rattle.osc_replay.specs.Onward.{IsPassing};

use crate::checked::Checked;
use crate::fault::ReplayFault;
use crate::played::Played;
use osc_print::Text;
use osc_record::{Caps, HEADER_SIZE, Unread};
use std::alloc::{AllocError, Global};
use std::marker::Model;

/// A recording that was played again, and its printed text. It can go on where that recording went
/// on. A contract sees the recording.
#[derive(Drop)]
pub struct Replay<'a> {
    played: Played<'a>,
    caps: Caps,
}

impl<'a> Model for Replay<'a> {
    ghost use Rattle.std.specs.Prelude.{ℕ, List};
    ghost use Rattle.osc_replay.specs.Onward.{IsReplayed};

    ghost Value = { List ℕ };

    ghost view = { λ r. r.played.recording.now };

    ghost invariant = { λ r. IsReplayed r.played.recording.now r.caps r.played.server
        r.played.calls.prints r.played.text r.played.entries r.played.adds };
}

impl<'a> Replay<'a> {
    ghost use Rattle.std.specs.Prelude.{◌≡◌, ◌≤◌, List, length, IfOk};
    ghost use Rattle.osc_model.specs.Limits.{Limits, max_recording};
    ghost use Rattle.osc_model.specs.Events.{Entry as Recorded};
    ghost use Rattle.osc_replay.specs.Answers.{OnMalformed, OnDisagrees};
    ghost use Rattle.osc_replay.specs.Checking.{IsCheckOf};
    ghost use Rattle.osc_replay.specs.Disagreeing.{IsRecordingOf, DisagreesAt};
    ghost use Rattle.osc_replay.specs.Formed.{IsUnformedAt};
    ghost use Rattle.osc_replay.specs.Onward.{GoesOnFrom, IsPlayedUnlessShort};
    ghost use Rattle.osc_replay.specs.Printed.{printed};

    /// Plays a recording again, and prints it. Refuses bytes that are malformed anywhere, and else
    /// the first entry that the server doesn't give.
    pub fn open(alloc: Global, recording: &'a [u8]) -> Result<Replay<'a>, ReplayFault>
        requires { length recording.now ≤ max_recording }
        ensures recording { IfOk result (λ replay. replay ≡ recording.now) }
        ensures ok { IfOk result (λ replay. (caps : Limits) × (history : List Recorded)
            × IsRecordingOf recording.now caps history) }
        ensures malformed { OnMalformed result (λ at. IsUnformedAt recording.now at) }
        ensures disagrees { OnDisagrees result
            (λ entry kept computed. DisagreesAt recording.now entry kept computed) }
        ensures complete { (caps : Limits) (history : List Recorded)
            → IsRecordingOf recording.now caps history → IsPlayedUnlessShort result }
    {
        osc_model::laws::a_legal_history_is_recordable();
        let unread = Unread::open(recording)?;
        let caps = unread.caps();
        let mut played = Played::open(alloc, recording, caps)?;
        played.play_rest(alloc, unread)?;
        Ok(Replay { played, caps })
    }

    /// The recording.
    pub fn recording(&self) -> &'a [u8]
        ensures { result.now ≡ self.now }
    {
        self.played.recording
    }

    /// The printed text of the recording.
    pub fn into_text(self) -> Text
        ensures { (caps : Limits) (history : List Recorded) → IsRecordingOf self.entry caps history
            → result ≡ printed caps history }
    {
        osc_model::laws::a_legal_history_is_recordable();
        let Replay { played, .. } = self;
        let Played { text, .. } = played;
        text
    }

    /// What the recording holds, as `check` answers it.
    pub fn checked(&self) -> Checked
        ensures { (caps : Limits) (history : List Recorded) → IsRecordingOf self.now caps history
            → IsCheckOf result caps history }
    {
        osc_model::laws::a_legal_history_is_recordable();
        Checked {
            entries: self.played.entries,
            adds: self.played.adds,
            callers: self.played.server.callers(),
            caps: self.caps,
        }
    }

    /// Goes on with a recording that begins with the entries of this one, and may have more bytes.
    /// The entries that were played already aren't read, played or printed again. The `Err` means
    /// out of memory.
    pub fn go_on(self, alloc: Global, recording: &'a [u8]) -> Result<Replay<'a>, AllocError>
        requires { GoesOnFrom self recording.now }
        ensures { IfOk result (λ replay. replay ≡ recording.now) }
    {
        osc_model::laws::a_legal_history_is_recordable();
        let Replay { mut played, .. } = self;
        let Ok(mut unread) = Unread::open(recording) else {
            unreachable!();
        };
        pass(&mut unread, played.recording.len());
        let caps = unread.caps();
        played.recording = recording;
        played.server.make_room(caps.recording());
        match played.play_rest(alloc, unread) {
            Ok(()) => Ok(Replay { played, caps }),
            Err(ReplayFault::NoMemory) => Err(AllocError),
            Err(_) => unreachable!(),
        }
    }
}

/// Passes over the entries of a recording up to a place, and reads none of them.
fn pass(unread: &mut Unread<'_>, end: usize)
    requires { (bytes : List ℕ) × (caps : Limits) × (before : List Recorded)
        × (since : List Recorded) × IsPassing bytes caps before since unread.old end }
    ensures { (bytes : List ℕ) (caps : Limits) (before since : List Recorded)
        → IsPassing bytes caps before since unread.old end
        → IsFormedTo bytes caps before unread.new }
{
    unread.pass(end as u32 - HEADER_SIZE);
}
