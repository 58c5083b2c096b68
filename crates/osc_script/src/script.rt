//! Scripts, read whole.
use crate::drawn_script::script_of_seed;
use crate::fault::{ScriptFault, ScriptFaultKind, ScriptRefusal};
use crate::line::Line;
use crate::mode::Mode;
use crate::script_lines::read_lines;
use osc_atoms::Bytes;
use std::alloc::{AllocError, Global};
use std::marker::Model;

/// The most bytes of a script, 64 MiB.
pub const MAX_SCRIPT: usize = 67_108_864;

/// The lines of a lawful script that say something, in order. A contract sees the list.
#[derive(Drop)]
pub struct Script {
    items: Vec<Line>,
}

impl Model for Script {
    ghost use Rattle.std.specs.Prelude.{List};
    ghost use Rattle.osc_script.specs.declared.line.Line.{Line};

    ghost Value = { List Line };

    ghost view = { λ s. s.items.items };
}

impl Script {
    ghost use Rattle.osc_script.specs.declared.script.TheConstants.{MAX_SCRIPT};
    ghost use Rattle.osc_script.specs.declared.drawn_script.TheConstants.{MAX_GENERATED_LINES};
    ghost use Rattle.std.specs.Prelude.{◌≡◌, ◌≤◌, ◌<◌, length, Err, IfOk};
    ghost use Rattle.osc_script.specs.Scripts.{script_of, AreLawful, AreOf};
    ghost use Rattle.osc_script.specs.Generated.{generated_script};
    ghost use Rattle.osc_script.specs.Answers.{Reads};
    ghost use Rattle.osc_script.specs.Kinds.{kind_number};
    ghost use Rattle.osc_script.specs.declared.fault.ScriptFaultKind.TheVariants as kinds;
    ghost use Rattle.osc_script.specs.Faults.{IsFirstFault};
    ghost use Rattle.osc_script.specs.declared.fault.ScriptFault.{ScriptFault};

    /// The lines of the bytes, or the first fault; `NoMemory` where memory runs out before one is
    /// found.
    pub fn read(alloc: Global, bytes: &[u8], mode: Mode) -> Result<Script, ScriptRefusal>
        ensures reads { Reads result (script_of mode bytes.now) }
        ensures first { (fault : ScriptFault) → result ≡ Err (ScriptRefusal.Fault fault)
            → 0 < fault.line → IsFirstFault mode bytes.now fault }
        ensures long { MAX_SCRIPT < length bytes.now → result
            ≡ Err (ScriptRefusal.Fault (record { line = 0; kind = kind_number kinds.TooLong })) }
        ensures lawful { IfOk result AreLawful }
        ensures fitting { IfOk result (AreOf mode) }
        ensures few { IfOk result (λ lines. length lines ≤ length bytes.now) }
        ensures short { IfOk result (λ _. length bytes.now ≤ MAX_SCRIPT) }
    {
        if bytes.len() > MAX_SCRIPT {
            return Err(ScriptRefusal::Fault(ScriptFault {
                line: 0,
                kind: ScriptFaultKind::TooLong.number(),
            }));
        }
        read_lines(alloc, bytes, mode)
    }

    /// The bytes of the script of so many lines that is drawn from the seed (docs/FORMATS.md,
    /// "Generated scripts"). An `Err` means out of memory.
    pub fn generate(alloc: Global, seed: u64, lines: u32) -> Result<Bytes, AllocError>
        requires few { lines ≤ MAX_GENERATED_LINES }
        ensures { IfOk result (λ bytes. bytes ≡ generated_script seed lines) }
    {
        Ok(Bytes::of(script_of_seed(alloc, seed, lines)?))
    }

    /// The script of these lines.
    pub(crate) fn of(lines: Vec<Line>) -> Script
        ensures { result ≡ lines.items }
    {
        Script { items: lines }
    }

    /// The lines. Takes no memory.
    pub fn lines(&self) -> &[Line]
        ensures { result.now ≡ self.now }
    {
        &self.items
    }

    /// The lines, handed out. Takes no memory.
    pub fn into_lines(self) -> Vec<Line>
        ensures { result.items ≡ self }
    {
        self.items
    }
}
