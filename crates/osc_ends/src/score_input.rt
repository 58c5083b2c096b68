//! Reads the score that the input of a program is.
ghost use Rattle.osc_score.specs.declared.limits.TheConstants.{MAX_SCORE};
ghost use Rattle.osc_ends.specs.declared.status.TheConstants.{DONE, NO_MEMORY, REFUSED};
ghost use Rattle.osc_ends.specs.declared.status.TheConstants.{SOURCE_FAILED};
ghost use Rattle.std.specs.Prelude.{◌≡◌, ◌⊎◌, ◌≤◌, ◌<◌, ℕ, List, [], length, IfOk, IfErr, IfSome};
ghost use Rattle.std.specs.Prelude.{IsErrAnd, Some, Ok};
ghost use Rattle.osc_score.specs.Scores.{Note};
ghost use Rattle.osc_score.specs.Plans.{plan_of};
ghost use Rattle.osc_score.specs.Reading.{score_of};
ghost use Rattle.osc_ends.specs.Inputs.{OfInput, ReadsInput, RefusesScore, read_status};
ghost use Rattle.osc_ends.specs.Printing.{score_fault_text};
ghost use Rattle.osc_ends.specs.Sinks.{change, GainsUnless};

use crate::prints::refuse_score;
use crate::status::{NO_MEMORY, SOURCE_FAILED};
use crate::whole::{Input, read_whole};
use osc_edge::{Sink, Source};
use osc_score::{MAX_SCORE, Score, ScoreFault, ScoreFaultKind, ScoreRefusal};
use std::alloc::Global;

/// The score that the input is, or the status with which the program ends: 1, where the score is
/// refused, of which a line is written, 3 or 4. The memory of the input is given back.
pub fn read_score<S: Source, O: Sink>(
    alloc: Global,
    input: &mut S,
    out: &mut O,
) -> Result<Score, u8>
    ensures score { IfOk result (λ score. OfInput (S.left input.old)
        (λ bytes. (notes : List Note) × (score_of bytes ≡ Ok notes)
        × (score ≡ plan_of notes))) }
    ensures whole { IfOk result
        (λ score. IfSome (S.left input.old) (λ all. S.left input.new ≡ Some [])) }
    ensures refused { IfErr result (λ status. RefusesScore status (S.left input.old)
        (change O.Sink out.old out.new)) }
    ensures input { ReadsInput S.Source MAX_SCORE (read_status result) input.old input.new }
    ensures unwritten { (read_status result ≡ DONE) ⊎ (read_status result ≡ SOURCE_FAILED)
        → out.new ≡ out.old }
{
    match read_whole(alloc, MAX_SCORE, input) {
        Input::Whole(bytes) => read_notes(alloc, &bytes, out),
        Input::TooLong => Err(refuse_long(alloc, out)),
        Input::Failed => Err(SOURCE_FAILED),
        Input::NoMemory => Err(NO_MEMORY),
    }
}

/// The score of the bytes, or the status with which the program ends.
fn read_notes<O: Sink>(alloc: Global, bytes: &[u8], out: &mut O) -> Result<Score, u8>
    ensures score { IfOk result (λ score. (notes : List Note) × (score_of bytes.now ≡ Ok notes)
        × (score ≡ plan_of notes)) }
    ensures unwritten { IfOk result (λ score. out.new ≡ out.old) }
    ensures known { IfErr result (λ status. (status ≡ REFUSED) ⊎ (status ≡ NO_MEMORY)) }
    ensures refused { IfErr result (λ status. status ≡ REFUSED → IsErrAnd (score_of bytes.now)
        (λ fault. GainsUnless (change O.Sink out.old out.new) (score_fault_text fault))) }
{
    match Score::read(alloc, bytes) {
        Ok(score) => Ok(score),
        Err(ScoreRefusal::Fault(fault)) => Err(refuse_score(alloc, fault, out)),
        Err(ScoreRefusal::NoMemory) => Err(NO_MEMORY),
    }
}

/// Refuses a score that is too long.
fn refuse_long<O: Sink>(alloc: Global, out: &mut O) -> u8
    ensures known { (result ≡ REFUSED) ⊎ (result ≡ NO_MEMORY) }
    ensures refused { (score : List ℕ) → MAX_SCORE < length score → result ≡ REFUSED
        → IsErrAnd (score_of score)
        (λ fault. GainsUnless (change O.Sink out.old out.new) (score_fault_text fault)) }
{
    let fault = ScoreFault {
        line: 0,
        kind: ScoreFaultKind::TooLong.number(),
    };
    refuse_score(alloc, fault, out)
}
