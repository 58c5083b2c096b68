// Draws a script, which is then played.
ghost use Rattle.osc_script.specs.declared.drawn_script.TheConstants.{MAX_GENERATED_LINES};
ghost use Rattle.std.specs.Prelude.{◌≡◌, ◌≤◌, IfOk, IsOk, Ok};
ghost use Rattle.osc_script.specs.declared.mode.Mode.TheVariants.{Plain};
ghost use Rattle.osc_script.specs.Scripts.{script_of};
ghost use Rattle.osc_plain.specs.Commands as commands;

use osc_script::{Line, Mode, Script, ScriptRefusal};
use std::alloc::{AllocError, Global};

/// The lines of the script that is drawn from the seed. An `Err` means out of memory.
pub(crate) fn drawn_lines(alloc: Global, seed: u64, lines: u32) -> Result<Vec<Line>, AllocError>
    requires { lines ≤ MAX_GENERATED_LINES }
    ensures { IfOk result (λ drawn. drawn.items ≡ commands.drawn_lines seed lines) }
{
    osc_script::laws::generated_scripts_are_read_again();
    let script = Script::generate(alloc, seed, lines)?;
    read_again(alloc, script.as_slice())
}

/// The lines of a script that was made here. An `Err` means out of memory.
pub(crate) fn read_again(alloc: Global, script: &[u8]) -> Result<Vec<Line>, AllocError>
    requires { IsOk (script_of Plain script.now) }
    ensures { IfOk result (λ lines. script_of Plain script.now ≡ Ok lines.items) }
{
    match Script::read(alloc, script, Mode::Plain) {
        Ok(script) => Ok(script.into_lines()),
        Err(ScriptRefusal::Fault(_)) => unreachable!(),
        Err(ScriptRefusal::NoMemory) => Err(AllocError),
    }
}
