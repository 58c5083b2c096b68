//! Scripts that are drawn from a seed.
ghost use Rattle.osc_script.specs.declared.drawn_script.TheConstants.{MAX_GENERATED_LINES};
ghost use Rattle.std.specs.Prelude.{◌≡◌, ◌≤◌, ◌++◌, ◌<◌, ◌+◌, ◌^◌, IfOk, OnOk};
ghost use Rattle.osc_script.specs.Draws.{after, drawn};
ghost use Rattle.osc_script.specs.Written.{act_line, written};
ghost use Rattle.osc_script.specs.Generated.{act_of_kind, draws_of, drawn_acts, first_acts};
ghost use Rattle.osc_script.specs.Generated.{generated_script, kind_of, moment_after};

use crate::drawn_lines::{put_drawn_line, put_line};
use crate::draws::Draws;
use crate::line_kind::LineKind;
use crate::patterns::member_of;
use std::alloc::{AllocError, Global};

/// The most lines of a generated script.
pub const MAX_GENERATED_LINES: u32 = 100_000;

/// How many lines of a generated script are adds at the most, before what is drawn.
const FIRST_ADDS: u32 = 64;

/// The script of so many lines that is drawn from the seed.
pub(crate) fn script_of_seed(alloc: Global, seed: u64, lines: u32) -> Result<Vec<u8>, AllocError>
    requires { lines ≤ MAX_GENERATED_LINES }
    ensures { IfOk result (λ script. script.items ≡ generated_script seed lines) }
{
    let mut script = Vec::new(alloc);
    put_first(alloc, &mut script, lines.min(FIRST_ADDS))?;
    put_drawn(alloc, &mut script, seed, lines.saturating_sub(FIRST_ADDS))?;
    Ok(script)
}

/// Adds so many adds.
fn put_first(alloc: Global, script: &mut Vec<u8>, lines: u32) -> Result<(), AllocError>
    ensures { OnOk result (script.new.items ≡ script.old.items ++ written (first_acts lines 0)) }
{
    for k in 0..lines {
        let address = member_of(alloc, u64::from(k % 8), u64::from(k / 8))?;
        put_line(script, b"add", address.as_bytes())?;
    }
    Ok(())
}

/// Adds so many lines that are drawn.
fn put_drawn(alloc: Global, script: &mut Vec<u8>, seed: u64, lines: u32) -> Result<(), AllocError>
    ensures { OnOk result
        (script.new.items ≡ script.old.items ++ written (drawn_acts lines 2 seed)) }
{
    let mut draws = Draws { number: seed };
    let mut moment = 2;
    for _k in 0..lines {
        moment = put_next(alloc, script, moment, &mut draws)?;
    }
    Ok(())
}

/// Draws a kind and adds a line of it, and gives the moment of the last tick after it.
fn put_next(
    alloc: Global,
    script: &mut Vec<u8>,
    moment: u64,
    draws: &mut Draws,
) -> Result<u64, AllocError>
    requires { moment < 2 ^ 63 }
    ensures line { OnOk result
        (script.new.items
        ≡ script.old.items
        ++ act_line
        (act_of_kind (kind_of (drawn 1 32 draws.old.number)) moment
        (after 1 draws.old.number))) }
    ensures draws { OnOk result
        (draws.new.number
        ≡ after (draws_of (kind_of (drawn 1 32 draws.old.number))) (after 1 draws.old.number)) }
    ensures moment { IfOk result
        (λ next. next
        ≡ moment_after (kind_of (drawn 1 32 draws.old.number)) moment
        (after 1 draws.old.number)) }
    ensures within { IfOk result (λ next. next < moment + 1024) }
{
    let kind = LineKind::of(draws.below(32));
    put_drawn_line(alloc, script, kind, moment, draws)
}
