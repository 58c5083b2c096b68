//! Scores.
use crate::added_note::all_runs;
use crate::fault::{ScoreFault, ScoreFaultKind, ScoreRefusal};
use crate::limits::MAX_SCORE;
use crate::reader::Reader;
use crate::run::Run;
use crate::score_lines::read_lines;
use crate::script::{put_adds, put_batches};
use osc_atoms::Bytes;
use osc_pattern::Address;
use std::alloc::{AllocError, Global};
use std::marker::Model;

/// A score: which messages are played, and when. A contract sees the distinct addresses in the
/// order of their first use, and the runs of notes with one tag, each as the bundle that plays it.
#[derive(Drop)]
pub struct Score {
    addresses: Vec<Address>,
    runs: Vec<Run>,
    alloc: Global,
}

impl Model for Score {
    ghost use Rattle.osc_score.specs.Plans.{Plan};

    ghost Value = { Plan };

    ghost view = { λ s. record { addresses = s.addresses.items; runs = s.runs.items } };
}

impl Score {
    ghost use Rattle.osc_score.specs.declared.limits.TheConstants.{MAX_SCORE};
    ghost use Rattle.std.specs.Prelude.{◌≡◌, ◌<◌, ◌≤◌, ℕ, List, length, Err, IfOk};
    ghost use Rattle.osc_score.specs.declared.fault.ScoreFault.{ScoreFault};
    ghost use Rattle.osc_score.specs.declared.fault.ScoreFaultKind.TheVariants as kinds;
    ghost use Rattle.osc_score.specs.Kinds.{kind_number};
    ghost use Rattle.osc_score.specs.Scores.{Note};
    ghost use Rattle.osc_score.specs.Reading.{score_of};
    ghost use Rattle.osc_score.specs.Plans.{plan_of, plan_script};
    ghost use Rattle.osc_score.specs.Keeping.{Keeps};
    ghost use Rattle.osc_score.specs.Answers.{Reads, IsFirstFault};

    /// The score of the bytes, or the first fault (docs/FORMATS.md, "Scores"); `NoMemory` where
    /// memory runs out before one is found.
    pub fn read(alloc: Global, bytes: &[u8]) -> Result<Score, ScoreRefusal>
        ensures reads { Reads result (score_of bytes.now) }
        ensures first { (fault : ScoreFault) → result ≡ Err (ScoreRefusal.Fault fault)
            → 0 < fault.line → IsFirstFault bytes.now fault }
        ensures long { MAX_SCORE < length bytes.now → result
            ≡ Err (ScoreRefusal.Fault (record { line = 0; kind = kind_number kinds.TooLong })) }
        ensures short { IfOk result (λ _. length bytes.now ≤ MAX_SCORE) }
    {
        if bytes.len() > MAX_SCORE {
            return Err(ScoreRefusal::Fault(ScoreFault {
                line: 0,
                kind: ScoreFaultKind::TooLong.number(),
            }));
        }
        match read_lines(alloc, bytes) {
            Ok(reader) => Ok(Score::of(reader)?),
            Err(refusal) => Err(refusal),
        }
    }

    /// The score of the notes that a reader has read.
    fn of(reader: Reader) -> Result<Score, AllocError>
        ensures { (notes : List Note) → Keeps reader notes
            → IfOk result (λ score. score ≡ plan_of notes) }
    {
        Ok(Score {
            addresses: reader.addresses,
            runs: all_runs(reader.runs, reader.last, reader.least)?,
            alloc: reader.alloc,
        })
    }

    /// The script that plays the score: an `add` for each address; then, for each 16 runs, a `send`
    /// of each bundle, and for each of them a `tick` to its tag and a `pump`. An `Err` means out of
    /// memory.
    pub fn script(&self) -> Result<Bytes, AllocError>
        ensures { IfOk result (λ bytes. bytes ≡ plan_script self.now) }
    {
        let mut script = Vec::new(self.alloc);
        put_adds(&mut script, &self.addresses)?;
        put_batches(self.alloc, &mut script, &self.runs)?;
        Ok(Bytes::of(script))
    }
}
