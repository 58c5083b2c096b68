// Takes in a past, and the script that is to be played after it.
ghost use Rattle.osc_ends.specs.declared.status.TheConstants.{NO_MEMORY, REFUSED, SOURCE_FAILED};
ghost use Rattle.std.specs.Prelude.{◌≡◌, ◌≢◌, ◌⊎◌, ℕ, List, Some, IfSome, IfOk, IfErr};
ghost use Rattle.osc_edge.specs.Faults.{Rose};
ghost use Rattle.osc_model.specs.Limits.{max_recording};
ghost use Rattle.osc_script.specs.declared.script.TheConstants.{MAX_SCRIPT};
ghost use Rattle.osc_script.specs.declared.mode.Mode.TheVariants.{Lanes};
ghost use Rattle.osc_script.specs.Scripts.{AreOf};
ghost use Rattle.osc_ends.specs.Ends.{left_behind};
ghost use Rattle.osc_ends.specs.Inputs.{read_status};
ghost use Rattle.osc_ends.specs.Judging.{Empties, IsAll, IsReadOf};
ghost use Rattle.osc_ends.specs.Sinks.{change};
ghost use Rattle.osc_top.specs.Taken.{OfInputs, TakesIn};

use osc_edge::{Sink, Source};
use osc_ends::{Whole, judge_recording, judge_script, read_input};
use osc_record::MAX_RECORDING;
use osc_replay::Replay;
use osc_script::{Line, MAX_SCRIPT, Mode};
use std::alloc::Global;

/// What is gone on from, and what is to be played on it.
#[derive(Drop)]
pub(crate) struct Taken<'a> {
    pub(crate) past: Replay<'a>,
    pub(crate) lines: Vec<Line>,
}

/// Reads a past and then a script, each to its end. The `Err` is the status with which the program
/// ends: 3 or 4. The script isn't read where the past's source failed.
pub(crate) fn read_both<P: Source, S: Source>(
    alloc: Global,
    past: &mut P,
    input: &mut S,
) -> Result<(Whole, Whole), u8>
    ensures read { IfOk result (λ both. OfInputs (P.left past.old) (S.left input.old)
        (λ bytes script. IsReadOf max_recording both.0 bytes × IsReadOf MAX_SCRIPT both.1 script)) }
    ensures past_whole { IfOk result
        (λ both. Empties both.0 (P.left past.old) (P.left past.new)) }
    ensures script_whole { IfOk result
        (λ both. Empties both.1 (S.left input.old) (S.left input.new)) }
    ensures known { IfErr result (λ status. (status ≡ NO_MEMORY) ⊎ (status ≡ SOURCE_FAILED)) }
    ensures source { read_status result ≡ SOURCE_FAILED
        → (Rose (P.faults past.old) (P.faults past.new) × (input.new ≡ input.old))
        ⊎ ((P.faults past.new ≡ P.faults past.old)
        × Rose (S.faults input.old) (S.faults input.new)) }
    ensures sound { read_status result ≢ NO_MEMORY → read_status result ≢ SOURCE_FAILED
        → (P.faults past.new ≡ P.faults past.old) × (S.faults input.new ≡ S.faults input.old) }
    ensures past_read { IfSome (P.left past.old)
        (λ all. read_status result ≢ NO_MEMORY → read_status result ≢ SOURCE_FAILED
        → P.left past.new ≡ Some (left_behind max_recording all)) }
    ensures input_read { IfSome (S.left input.old)
        (λ all. read_status result ≢ NO_MEMORY → read_status result ≢ SOURCE_FAILED
        → S.left input.new ≡ Some (left_behind MAX_SCRIPT all)) }
{
    let past = read_input(alloc, MAX_RECORDING as usize, past)?;
    let script = read_input(alloc, MAX_SCRIPT, input)?;
    Ok((past, script))
}

/// Judges a past, and then a script. The `Err` is the status with which the program ends: 1, where
/// one of them is refused, of which lines are written, or 3.
pub(crate) fn judge_both<'a, O: Sink>(
    alloc: Global,
    past: &'a Whole,
    script: Whole,
    out: &mut O,
) -> Result<Taken<'a>, u8>
    requires { (bytes : List ℕ) × IsReadOf max_recording past.now bytes }
    ensures taken { (bytes : List ℕ) (text : List ℕ) → IsReadOf max_recording past.now bytes
        → IsReadOf MAX_SCRIPT script text
        → TakesIn result bytes text (change O.Sink out.old out.new) }
    ensures known { IfErr result (λ status. (status ≡ REFUSED) ⊎ (status ≡ NO_MEMORY)) }
    ensures fitting { IfOk result (λ taken. AreOf Lanes taken.lines.items) }
    ensures whole { IfOk result (λ taken. IsAll past.now × IsAll script) }
    ensures unwritten { IfOk result (λ taken. out.new ≡ out.old) }
{
    let past = judge_recording(alloc, past, out)?;
    let lines = judge_script(alloc, Mode::Lanes, script, out)?;
    Ok(Taken { past, lines })
}
