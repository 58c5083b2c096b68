//! How the recording is read.
ghost use Rattle.std.specs.Prelude.{◌≡◌};
ghost use Rattle.osc_turn.specs.Passes.{view};
ghost use Rattle.osc_live.specs.Seen.{IsTokenOf};
ghost use Rattle.osc_live.specs.Tokens.{IsOurs};
ghost use Rattle.osc_live.specs.Reads.{Reads, Writes};

use crate::caller::Caller;
use crate::live::Live;
use osc_core::Core;
use osc_method::Method;
use osc_record::Caps;
use osc_turn::{Job, Pass};
use std::snapshot::Snapshot;
use std::sync::Wait;

impl<M: Method> Live<M> {
    /// Waits for the turn, and writes the bytes of the recording from the place on, as many as
    /// there are and fit. It adds no entry and takes no memory. Answers the number of bytes, which
    /// is 0 where the place is the end or past it.
    pub fn read<W: Wait>(
        &self,
        rt: &W,
        caller: Caller,
        from: u32,
        into: &mut [u8],
    ) -> (Caller, usize)
        requires ours { IsOurs self.now caller }
        ensures ours { IsOurs self.now result.0 }
        ensures number { result.0.number ≡ caller.number }
        ensures read { Reads self.now.caps from into.old into.new result.1 (view caller.pass)
            (view result.0.pass) }
    {
        osc_model::laws::callers_are_counted();
        let Caller { pass, number } = caller;
        let mut job = Copying {
            was: Snapshot::of(&pass),
            caps: self.caps,
            from,
            into,
            count: 0,
        };
        let pass = self.copy(rt, pass, &mut job);
        let Copying {
            was: _was,
            caps: _,
            from: _,
            into: _into,
            count,
        } = job;
        (Caller { pass, number }, count)
    }

    // Copies a part of the recording in the turn.
    fn copy<W: Wait>(&self, rt: &W, pass: Pass, job: &mut Copying<'_>) -> Pass
        requires ours { IsTokenOf self.now.turn self.now.caps pass }
        requires asked { (job.old.was.value ≡ pass) × (job.old.caps ≡ self.now.caps) }
        ensures ours { IsTokenOf self.now.turn self.now.caps result }
        ensures same_reference { job.new.into.ghost_name ≡ job.old.into.ghost_name }
        ensures read { Reads self.now.caps job.old.from job.old.into.now job.new.into.now
            job.new.count (view pass) (view result) }
    {
        let (pass, _) = self.turn.act(rt, pass, job);
        pass
    }
}

/// What is copied of the recording of a server with these limits, from a place on, and how many
/// bytes were.
struct Copying<'a> {
    was: Snapshot<Pass>,
    caps: Caps,
    from: u32,
    into: &'a mut [u8],
    count: usize,
}

impl<'a, M: Method> Job<Core<M>> for Copying<'a> {
    ghost use Rattle.osc_turn.specs.History.{texts};
    ghost use Rattle.osc_turn.specs.Passes.{view};
    ghost use Rattle.osc_model.specs.Recordings.{header_text};
    ghost use Rattle.osc_live.specs.Reads.{Copied};

    ghost base_kind = { λ job. header_text job.caps };

    ghost base = { λ job. texts (view job.was.value).seen };

    ghost use Rattle.std.specs.Prelude.{◌≡◌};

    ghost did = { λ old new before after. (new.into.ghost_name ≡ old.into.ghost_name)
        × Copied old.caps old.from old.into.now new.into.now new.count before after };

    fn run(&mut self, state: &mut Core<M>) -> bool {
        osc_record::laws::headers_differ();
        // Limits are in their ranges, as each of them tells.
        let _ = self.caps.units();
        self.count = copy_part(state.bytes(), self.from, self.into);
        false
    }
}

/// Writes as many bytes as there are and fit, from a place on.
fn copy_part(text: &[u8], from: u32, into: &mut [u8]) -> usize
    ensures { Writes text.now from into.old into.new result }
{
    let from = from as usize;
    if from >= text.len() {
        return 0;
    }
    let rest = &text[from..];
    let count = rest.len().min(into.len());
    into[..count].copy_from_slice(&rest[..count]);
    count
}
