//! Reads the input of a program to its end.
ghost use Rattle.osc_ends.specs.declared.status.TheConstants.{DONE, NO_MEMORY, REFUSED};
ghost use Rattle.osc_ends.specs.declared.status.TheConstants.{SOURCE_FAILED};
ghost use Rattle.std.specs.Prelude.{◌≡◌, ◌⊎◌, ◌≤◌, ◌<◌, ℕ, List, [], length, IfOk, IfErr, IfSome};
ghost use Rattle.std.specs.Prelude.{IsErrAnd, Some, Ok};
ghost use Rattle.osc_model.specs.Limits.{max_recording};
ghost use Rattle.osc_script.specs.declared.script.TheConstants.{MAX_SCRIPT};
ghost use Rattle.osc_script.specs.Scripts.{script_of, AreOf};
ghost use Rattle.osc_ends.specs.Inputs.{OfInput, ReadsInput, RefusesLength, RefusesScript};
ghost use Rattle.osc_ends.specs.Inputs.{read_status};
ghost use Rattle.osc_ends.specs.Printing.{refusal_text};
ghost use Rattle.osc_ends.specs.Sinks.{change, GainsUnless};

use crate::prints::{malformed, refuse};
use crate::status::{NO_MEMORY, SOURCE_FAILED};
use crate::whole::{Input, read_whole};
use osc_edge::{Sink, Source};
use osc_record::MAX_RECORDING;
use osc_script::{Line, MAX_SCRIPT, Mode, Script, ScriptFault, ScriptFaultKind, ScriptRefusal};
use std::alloc::Global;

/// The lines of the script that the input is, or the status with which the program ends: 1, where
/// the script is refused, of which a line is written, 3 or 4. The memory of the input is given
/// back.
pub fn read_script<S: Source, O: Sink>(
    alloc: Global,
    mode: Mode,
    input: &mut S,
    out: &mut O,
) -> Result<Vec<Line>, u8>
    ensures lines { IfOk result (λ lines. OfInput (S.left input.old)
        (λ script. script_of mode script ≡ Ok lines.items)) }
    ensures fitting { IfOk result (λ lines. AreOf mode lines.items) }
    ensures whole { IfOk result
        (λ lines. IfSome (S.left input.old) (λ all. S.left input.new ≡ Some [])) }
    ensures refused { IfErr result (λ status. RefusesScript mode status (S.left input.old)
        (change O.Sink out.old out.new)) }
    ensures input { ReadsInput S.Source MAX_SCRIPT (read_status result) input.old input.new }
    ensures unwritten { (read_status result ≡ DONE) ⊎ (read_status result ≡ SOURCE_FAILED)
        → out.new ≡ out.old }
{
    match read_whole(alloc, MAX_SCRIPT, input) {
        Input::Whole(bytes) => read_lines(alloc, mode, &bytes, out),
        Input::TooLong => Err(refuse_long(alloc, out)),
        Input::Failed => Err(SOURCE_FAILED),
        Input::NoMemory => Err(NO_MEMORY),
    }
}

/// The lines of a script, or the status with which the program ends.
pub(crate) fn read_lines<O: Sink>(
    alloc: Global,
    mode: Mode,
    script: &[u8],
    out: &mut O,
) -> Result<Vec<Line>, u8>
    ensures lines { IfOk result (λ lines. script_of mode script.now ≡ Ok lines.items) }
    ensures fitting { IfOk result (λ lines. AreOf mode lines.items) }
    ensures unwritten { IfOk result (λ lines. out.new ≡ out.old) }
    ensures known { IfErr result (λ status. (status ≡ REFUSED) ⊎ (status ≡ NO_MEMORY)) }
    ensures refused { IfErr result (λ status. status ≡ REFUSED
        → IsErrAnd (script_of mode script.now)
        (λ fault. GainsUnless (change O.Sink out.old out.new) (refusal_text fault))) }
{
    match Script::read(alloc, script, mode) {
        Ok(script) => Ok(script.into_lines()),
        Err(ScriptRefusal::Fault(fault)) => Err(refuse(alloc, fault, out)),
        Err(ScriptRefusal::NoMemory) => Err(NO_MEMORY),
    }
}

/// Refuses a script that is too long.
pub(crate) fn refuse_long<O: Sink>(alloc: Global, out: &mut O) -> u8
    ensures known { (result ≡ REFUSED) ⊎ (result ≡ NO_MEMORY) }
    ensures refused { (mode : Mode) (script : List ℕ) → MAX_SCRIPT < length script
        → result ≡ REFUSED → IsErrAnd (script_of mode script)
        (λ fault. GainsUnless (change O.Sink out.old out.new) (refusal_text fault)) }
{
    let fault = ScriptFault {
        line: 0,
        kind: ScriptFaultKind::TooLong.number(),
    };
    refuse(alloc, fault, out)
}

/// The bytes of the recording that the input is, or the status with which the program ends: 1,
/// where there are too many, of which a line is written, 3 or 4.
pub fn read_recording<S: Source, O: Sink>(
    alloc: Global,
    input: &mut S,
    out: &mut O,
) -> Result<Vec<u8>, u8>
    ensures bytes { IfOk result
        (λ bytes. IfSome (S.left input.old) (λ all. bytes.items ≡ all)) }
    ensures few { IfOk result (λ bytes. length bytes.items ≤ max_recording) }
    ensures whole { IfOk result
        (λ bytes. IfSome (S.left input.old) (λ all. S.left input.new ≡ Some [])) }
    ensures refused { IfErr result (λ status. RefusesLength status (S.left input.old)
        (change O.Sink out.old out.new)) }
    ensures input { ReadsInput S.Source max_recording (read_status result) input.old input.new }
    ensures unwritten { (read_status result ≡ DONE) ⊎ (read_status result ≡ SOURCE_FAILED)
        → out.new ≡ out.old }
{
    match read_whole(alloc, MAX_RECORDING as usize, input) {
        Input::Whole(bytes) => Ok(bytes),
        Input::TooLong => Err(malformed(alloc, MAX_RECORDING, out)),
        Input::Failed => Err(SOURCE_FAILED),
        Input::NoMemory => Err(NO_MEMORY),
    }
}
