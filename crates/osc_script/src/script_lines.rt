// Reads the lines of a script.
ghost use Rattle.osc_script.specs.declared.script.TheConstants.{MAX_SCRIPT};
ghost use Rattle.std.specs.Prelude.{◌≡◌, ◌≤◌, length, IfOk, Ok, Some};
ghost use Rattle.osc_script.specs.Words.{lines_of};
ghost use Rattle.osc_script.specs.Scripts.{script_from, line_from, line_says, AreLawful, AreOf};
ghost use Rattle.osc_script.specs.Answers.{Reads, AddsLine};

use crate::fault::{LineRefusal, ScriptFault, ScriptRefusal};
use crate::line::Line;
use crate::mode::Mode;
use crate::said::{Said, read_line};
use crate::script::Script;
use crate::words::first_line;
use std::alloc::Global;

/// The lines of bytes that aren't too many.
pub(crate) fn read_lines(alloc: Global, bytes: &[u8], mode: Mode) -> Result<Script, ScriptRefusal>
    requires { length bytes.now ≤ MAX_SCRIPT }
    ensures reads { Reads result (script_from mode 1 (lines_of bytes.now)) }
    ensures lawful { IfOk result AreLawful }
    ensures fitting { IfOk result (AreOf mode) }
    ensures few { IfOk result (λ lines. length lines ≤ length bytes.now) }
{
    let mut lines = Vec::new(alloc);
    let mut number = 1;
    let mut rest = bytes;
    while !rest.is_empty() {
        let (text, after) = first_line(rest);
        if let Err(refusal) = push_line(alloc, mode, number, text, &mut lines) {
            return Err(refusal);
        }
        number += 1;
        rest = after;
    }
    Ok(Script::of(lines))
}

/// Adds what the line says to the lines before it.
fn push_line(
    alloc: Global,
    mode: Mode,
    number: u32,
    text: &[u8],
    lines: &mut Vec<Line>,
) -> Result<(), ScriptRefusal>
    ensures { AddsLine result (line_from number (line_says mode text.now)) lines.old.items
        lines.new.items }
{
    match read_line(alloc, mode, text) {
        Ok(Some(Said { lane, act })) => match lines.push(Line { number, lane, act }) {
            Ok(()) => Ok(()),
            Err(_) => Err(ScriptRefusal::NoMemory),
        },
        Ok(None) => Ok(()),
        Err(LineRefusal::Kind(kind)) => Err(ScriptRefusal::Fault(ScriptFault {
            line: number,
            kind: kind.number(),
        })),
        Err(LineRefusal::NoMemory) => Err(ScriptRefusal::NoMemory),
    }
}
