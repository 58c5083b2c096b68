//! Inputs that are all read before any of them is judged.
ghost use Rattle.osc_ends.specs.declared.status.TheConstants.{NO_MEMORY, REFUSED, SOURCE_FAILED};
ghost use Rattle.std.specs.Prelude.{◌≡◌, ◌⊎◌, ◌≤◌, ℕ, List, length, IfOk, IfErr, IsErrAnd, Ok, Err};
ghost use Rattle.osc_model.specs.Limits.{Limits, max_recording};
ghost use Rattle.osc_model.specs.Events.{Entry};
ghost use Rattle.osc_replay.specs.Answers.{OnMalformed, OnDisagrees};
ghost use Rattle.osc_replay.specs.Disagreeing.{DisagreesAt, IsRecordingOf};
ghost use Rattle.osc_replay.specs.Formed.{IsUnformedAt};
ghost use Rattle.osc_replay.specs.declared.fault.ReplayFault.TheVariants as replay_fault;
ghost use Rattle.osc_script.specs.declared.script.TheConstants.{MAX_SCRIPT};
ghost use Rattle.osc_script.specs.Scripts.{script_of, AreOf};
ghost use Rattle.osc_ends.specs.Inputs.{OfInput, ReadsInput, read_status};
ghost use Rattle.osc_ends.specs.Judging.{Empties, IsAll, IsChecked, IsReadOf, RefusesPast};
ghost use Rattle.osc_ends.specs.Printing.{refusal_text};
ghost use Rattle.osc_ends.specs.Sinks.{change, GainsUnless};

use crate::input::{read_lines, refuse_long};
use crate::prints::{disagrees, malformed};
use crate::status::{NO_MEMORY, SOURCE_FAILED};
use crate::whole::{Input, read_whole};
use osc_edge::{Sink, Source};
use osc_record::MAX_RECORDING;
use osc_replay::{Replay, ReplayFault};
use osc_script::{Line, Mode};
use std::alloc::Global;

/// What was read of an input.
#[derive(Drop)]
pub enum Whole {
    Bytes(Vec<u8>),
    /// There is one byte more than the limit.
    TooLong,
}

/// Reads an input to its end, or to one byte past the limit. The `Err` is the status with which the
/// program ends: 3, or 4 where the source failed.
pub fn read_input<S: Source>(alloc: Global, most: usize, input: &mut S) -> Result<Whole, u8>
    requires { most ≤ max_recording }
    ensures bytes { IfOk result (λ whole. OfInput (S.left input.old) (IsReadOf most whole)) }
    ensures whole { IfOk result (λ whole. Empties whole (S.left input.old) (S.left input.new)) }
    ensures known { IfErr result (λ status. (status ≡ NO_MEMORY) ⊎ (status ≡ SOURCE_FAILED)) }
    ensures input { ReadsInput S.Source most (read_status result) input.old input.new }
{
    match read_whole(alloc, most, input) {
        Input::Whole(bytes) => Ok(Whole::Bytes(bytes)),
        Input::TooLong => Ok(Whole::TooLong),
        Input::Failed => Err(SOURCE_FAILED),
        Input::NoMemory => Err(NO_MEMORY),
    }
}

/// The lines of the script that was read, or the status with which the program ends: 1, where it is
/// refused, of which a line is written, or 3. The memory of what was read is given back.
pub fn judge_script<O: Sink>(
    alloc: Global,
    mode: Mode,
    whole: Whole,
    out: &mut O,
) -> Result<Vec<Line>, u8>
    ensures lines { (script : List ℕ) → IsReadOf MAX_SCRIPT whole script
        → IfOk result (λ lines. script_of mode script ≡ Ok lines.items) }
    ensures fitting { IfOk result (λ lines. AreOf mode lines.items) }
    ensures whole { IfOk result (λ lines. IsAll whole) }
    ensures unwritten { IfOk result (λ lines. out.new ≡ out.old) }
    ensures known { IfErr result (λ status. (status ≡ REFUSED) ⊎ (status ≡ NO_MEMORY)) }
    ensures refused { (script : List ℕ) → IsReadOf MAX_SCRIPT whole script
        → IfErr result (λ status. status ≡ REFUSED → IsErrAnd (script_of mode script)
        (λ fault. GainsUnless (change O.Sink out.old out.new) (refusal_text fault))) }
{
    match whole {
        Whole::Bytes(bytes) => read_lines(alloc, mode, &bytes, out),
        Whole::TooLong => Err(refuse_long(alloc, out)),
    }
}

/// A replay of what was read, where it is the recording of a legal history, or the status with
/// which the program ends: 1, where it is refused, of which lines are written, or 3.
pub fn judge_recording<'a, O: Sink>(
    alloc: Global,
    whole: &'a Whole,
    out: &mut O,
) -> Result<Replay<'a>, u8>
    requires { (bytes : List ℕ) × IsReadOf max_recording whole.now bytes }
    ensures checked { (bytes : List ℕ) → IsReadOf max_recording whole.now bytes
        → IfOk result (λ replay. IsChecked replay bytes) }
    ensures whole { IfOk result (λ replay. IsAll whole.now) }
    ensures unwritten { IfOk result (λ replay. out.new ≡ out.old) }
    ensures known { IfErr result (λ status. (status ≡ REFUSED) ⊎ (status ≡ NO_MEMORY)) }
    ensures refused { (bytes : List ℕ) → IsReadOf max_recording whole.now bytes → IfErr result
        (λ status. status ≡ REFUSED
        → RefusesPast bytes (change O.Sink out.old out.new)) }
    ensures complete { (bytes : List ℕ) (caps : Limits) (history : List Entry)
        → IsReadOf max_recording whole.now bytes → IsRecordingOf bytes caps history
        → IfErr result (λ status. status ≡ NO_MEMORY) }
{
    osc_model::laws::a_legal_history_is_recordable();
    let Whole::Bytes(bytes) = whole else {
        return Err(malformed(alloc, MAX_RECORDING, out));
    };
    match Replay::open(alloc, bytes) {
        Ok(replay) => Ok(replay),
        Err(fault) => Err(refuse_recording(alloc, fault, out)),
    }
}

/// Writes why a recording is refused: 1, or out of memory.
pub(crate) fn refuse_recording<O: Sink>(alloc: Global, fault: ReplayFault, out: &mut O) -> u8
    ensures known { (result ≡ REFUSED) ⊎ (result ≡ NO_MEMORY) }
    ensures refused { (bytes : List ℕ) → length bytes ≤ max_recording
        → OnMalformed {X = List ℕ} (Err fault) (λ at. IsUnformedAt bytes at)
        → OnDisagrees {X = List ℕ} (Err fault)
        (λ entry kept computed. DisagreesAt bytes entry kept computed)
        → result ≡ REFUSED → RefusesPast bytes (change O.Sink out.old out.new) }
    ensures short { fault ≡ replay_fault.NoMemory → result ≡ NO_MEMORY }
{
    match fault {
        ReplayFault::Malformed { at } => malformed(alloc, at, out),
        ReplayFault::Disagrees {
            entry,
            kept,
            computed,
        } => disagrees(alloc, entry, &kept, &computed, out),
        ReplayFault::NoMemory => NO_MEMORY,
    }
}
