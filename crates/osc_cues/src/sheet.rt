//! Sheets, read whole.
ghost use Rattle.osc_cues.specs.declared.limits.TheConstants.{MAX_SHEET};
ghost use Rattle.std.specs.Prelude.{◌≡◌, ◌≤◌, IfOk, IfSome, None, length};
ghost use Rattle.osc_cues.specs.Faults.{made};
ghost use Rattle.osc_cues.specs.Moments.{moment_read, tag_of, IsTempo};
ghost use Rattle.osc_cues.specs.Words.{lines_of};
ghost use Rattle.osc_cues.specs.Sheets.{read_from, unread, IsReading};
ghost use Rattle.osc_cues.specs.Order.{IsSound};

use crate::bundle::{Bundle, bundles_of};
use crate::cue::{Cue, Cues};
use crate::draft::Draft;
use crate::fault::Fault;
use crate::limits::MAX_SHEET;
use crate::moment::{read_moment, tag_of};
use crate::scan::{cut_lines, without_return};
use crate::setting::{Setting, Tempo};
use crate::wrong_line::SheetError;
use osc_pattern::Address;
use std::alloc::{AllocError, Global};
use std::marker::Model;

/// The cues of a sheet, in order. A contract sees the list, and the first tempo.
pub struct Sheet {
    cues: Cues,
    tempo: Option<Tempo>,
}

impl Drop for Sheet {
    fn drop(self) {
        let Sheet { cues: _, tempo: _ } = self;
    }
}

impl Model for Sheet {
    ghost use Rattle.std.specs.Prelude.{IfSome};
    ghost use Rattle.osc_cues.specs.Moments.{IsTempo};
    ghost use Rattle.osc_cues.specs.Plans.{Plan};
    ghost use Rattle.osc_cues.specs.Bundles.{IsSheet};

    ghost Value = { Plan };

    ghost view = { λ s. record { cues = s.cues; tempo = s.tempo } };

    ghost invariant = { λ s. IsSheet s.cues × IfSome s.tempo IsTempo };
}

impl Sheet {
    ghost use Rattle.std.specs.Prelude.{◌≡◌, None, IfOk};
    ghost use Rattle.std.specs.List.{AllByRecursion};
    ghost use Rattle.osc_cues.specs.Faults.{made};
    ghost use Rattle.osc_cues.specs.Moments.{moment_read, tag_of};
    ghost use Rattle.osc_cues.specs.Bundles.{IsSheet, IsSendable};
    ghost use Rattle.osc_cues.specs.Bundles;
    ghost use Rattle.osc_cues.specs.Sheets.{sheet_of};
    ghost use Rattle.osc_cues.specs.SheetAnswers.{Reads};

    /// The cues of a sheet, each with an address that one of these methods answers; or all lines
    /// that are wrong, each with its first fault, in their order. `NoMemory` where memory runs
    /// out.
    pub fn read(
        alloc: Global,
        bytes: &[u8],
        methods: &[Address],
        setting: Setting,
    ) -> Result<Sheet, SheetError>
        ensures { Reads result (sheet_of methods.now setting bytes.now) }
    {
        if bytes.len() > MAX_SHEET {
            return Err(SheetError::TooLong);
        }
        let draft = read_lines(alloc, bytes, methods, setting)?;
        if draft.wrong.as_slice().is_empty() {
            Ok(Sheet {
                cues: draft.cues,
                tempo: draft.first,
            })
        } else {
            Err(SheetError::Lines(draft.wrong))
        }
    }

    /// The cues. Takes no memory.
    pub fn cues(&self) -> &[Cue]
        ensures value { result.now ≡ self.now.cues }
        ensures lawful { IsSheet self.now.cues }
    {
        self.cues.as_slice()
    }

    /// What is sent, a bundle for each moment, in order.
    pub fn bundles(&self, alloc: Global) -> Result<Vec<Bundle>, AllocError>
        ensures value { IfOk result (λ bundles. bundles.items ≡ Bundles.bundles_of self.now.cues) }
        ensures packets { IfOk result (λ bundles. AllByRecursion IsSendable bundles.items) }
    {
        bundles_of(alloc, self.cues.as_slice())
    }

    /// The time tag of a moment to play from. Bars and beats are counted by the first tempo.
    pub fn start(&self, setting: Setting, word: &[u8]) -> Result<u64, Fault>
        ensures { result ≡ made tag_of (moment_read setting None self.now.tempo word.now) }
    {
        tag_at(setting, self.tempo, word)
    }
}

/// The time tag of a moment.
fn tag_at(setting: Setting, tempo: Option<Tempo>, word: &[u8]) -> Result<u64, Fault>
    requires { IfSome tempo IsTempo }
    ensures { result ≡ made tag_of (moment_read setting None tempo word.now) }
{
    match read_moment(setting, None, tempo, word) {
        Ok(moment) => Ok(tag_of(moment)),
        Err(fault) => Err(fault),
    }
}

/// What all lines say together.
fn read_lines(
    alloc: Global,
    bytes: &[u8],
    methods: &[Address],
    setting: Setting,
) -> Result<Draft, AllocError>
    requires { length bytes.now ≤ MAX_SHEET }
    ensures value { IfOk result
        (λ draft. draft ≡ read_from methods.now setting 1 unread (lines_of bytes.now)) }
    ensures reading { IfOk result IsReading }
    ensures sound { IfOk result IsSound }
{
    let lines = cut_lines(alloc, bytes)?;
    let mut draft = Draft::new(alloc);
    let mut number = 1;
    for text in &lines {
        draft.read_line(alloc, methods, setting, number, without_return(text))?;
        number += 1;
    }
    Ok(draft)
}
