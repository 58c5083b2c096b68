// A recording, played again row by row.
ghost use Rattle.std.specs.Prelude.{◌≡◌};
ghost use Rattle.osc_model.specs.Limits.{Limits};

use crate::calls::Calls;
use crate::checked::one_more;
use crate::counts::is_added;
use crate::fault::ReplayFault;
use crate::form::{first_malformed, next_row};
use crate::replay_text::replay_row;
use crate::server::Server;
use osc_print::Text;
use osc_record::{Caps, Unread};
use std::alloc::{AllocError, Global};

/// A recording, and the result of its rows that were played so far.
#[derive(Drop)]
pub(crate) struct Played<'a> {
    pub(crate) recording: &'a [u8],
    pub(crate) server: Server<'a>,
    pub(crate) calls: Calls,
    /// The lines of the rows, and of their calls.
    pub(crate) text: Text,
    /// How many rows there are, and how many of them added a method.
    pub(crate) entries: u32,
    pub(crate) adds: u32,
}

impl<'a> Played<'a> {
    ghost use Rattle.std.specs.Prelude.{◌≡◌, ℕ, [], List, true, IfOk, OnOk};
    ghost use Rattle.osc_model.specs.Limits.{Limits};
    ghost use Rattle.osc_model.specs.Events.{Entry as Recorded};
    ghost use Rattle.osc_model.specs.State.{opening};
    ghost use Rattle.osc_replay.specs.Answers.{OnMalformed, OnDisagrees};
    ghost use Rattle.osc_replay.specs.Disagreeing.{IsRecordingOf, DisagreesAt};
    ghost use Rattle.osc_replay.specs.Formed.{IsUnformedAt};
    ghost use Rattle.osc_replay.specs.Onward.{IsReplayedTo, IsReplayed, IsPlayedUnlessShort};

    /// None of the rows, on a server with these limits.
    pub(crate) fn open(
        alloc: Global,
        recording: &'a [u8],
        caps: Caps,
    ) -> Result<Played<'a>, AllocError>
        ensures recording { IfOk result (λ played. played.recording.now ≡ recording.now) }
        ensures server { IfOk result (λ played. played.server ≡ opening caps) }
        ensures text { IfOk result (λ played. played.text ≡ []) }
        ensures printed { IfOk result (λ played. played.calls.prints ≡ true) }
        ensures counts { IfOk result (λ played. (played.entries ≡ 0) × (played.adds ≡ 0)) }
    {
        Ok(Played {
            recording,
            server: Server::open(alloc, caps)?,
            calls: Calls::printed(alloc),
            text: Text::open(alloc),
            entries: 0,
            adds: 0,
        })
    }

    /// Plays the rows that are left, and prints them. Refuses bytes that are malformed anywhere,
    /// and else the first entry that the server doesn't give.
    pub(crate) fn play_rest(
        &mut self,
        alloc: Global,
        mut unread: Unread<'a>,
    ) -> Result<(), ReplayFault>
        requires replayed { IsReplayedTo self.old.recording.now unread self.old.server self.old.text
            self.old.entries self.old.adds }
        requires printed { self.old.calls.prints ≡ true }
        ensures ok { OnOk result
            (IsReplayed self.old.recording.now unread.entry.caps self.new.server
            self.new.calls.prints self.new.text self.new.entries self.new.adds) }
        ensures recording { OnOk result (self.new.recording.now ≡ self.old.recording.now) }
        ensures malformed { OnMalformed result (λ at. IsUnformedAt self.old.recording.now at) }
        ensures disagrees { OnDisagrees result
            (λ entry kept computed. DisagreesAt self.old.recording.now entry kept computed) }
        ensures complete { (caps : Limits) (history : List Recorded)
            → IsRecordingOf self.old.recording.now caps history → IsPlayedUnlessShort result }
    {
        osc_model::laws::a_legal_history_is_recordable();
        while let Some(row) = next_row(&mut unread)? {
            let added = is_added(row.entry.answer);
            let number = self.entries;
            let (server, calls, text) = (&mut self.server, &mut self.calls, &mut self.text);
            if let Err(fault) = replay_row(alloc, server, calls, text, number, row) {
                if let Some(at) = first_malformed(unread) {
                    return Err(ReplayFault::Malformed { at });
                }
                return Err(fault);
            }
            self.entries += 1;
            self.adds = one_more(self.adds, added);
        }
        Ok(())
    }
}
