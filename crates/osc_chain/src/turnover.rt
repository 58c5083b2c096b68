//! From a stage to the next one.
ghost use Rattle.std.specs.Prelude.{◌≡◌, List, map, Ok, IfOk};
ghost use Rattle.osc_lanes.specs.Performs.{part_of, IsWhole};
ghost use Rattle.osc_script.specs.declared.line.Line.{Line};
ghost use Rattle.osc_script.specs.declared.mode.Mode.TheVariants.{Plain};
ghost use Rattle.osc_script.specs.Scripts.{script_of};
ghost use Rattle.osc_stage.specs.Stages.{carried_on, AddsAtOwn};
ghost use Rattle.osc_chain.specs.Seams.{Turns, Reads};

use crate::relays::relays_of;
use crate::room::has_room;
use crate::seam::{Seam, SeamFault};
use osc_carry::{CarryFault, carry};
use osc_chain_laws::laws::a_stage_turns_over;
use osc_edge::Link;
use osc_links::{Bounds, LinksPart};
use osc_method::Method;
use osc_model::laws::a_legal_history_is_recordable;
use osc_record::{Caps, MAX_RECORDING};
use osc_relay::{Outlet, Relay};
use osc_script::{Line, Mode, Script, ScriptRefusal};
use osc_stage::{Stage, Staged, carried_on};
use std::alloc::{AllocError, Global};

/// The stage that carries another on, under the same limits and with the same relays and links: what
/// it plays first brings its server to where the other one ended. An `Err` means out of memory, and
/// the relays and the links are gone then.
pub fn turn_over<O: Outlet, L: Link + Drop>(
    alloc: Global,
    caps: Caps,
    bounds: Bounds,
    staged: Staged<O, L>,
) -> Result<Seam<O, L>, AllocError>
    ensures turns { IfOk result (λ seam. Turns ⟦<Relay<O> as Method>⟧.keep
        ⟦<Relay<O> as Method>⟧.heard L.left L.faults O.sent O.losses caps bounds staged seam) }
{
    a_stage_turns_over::<O, L>();
    if !has_room(caps) {
        return Ok(Seam::Ends(staged, SeamFault::NoRoom));
    }
    let lines = match carried_lines(alloc, &staged.recording)? {
        Ok(lines) => lines,
        Err(fault) => return Ok(Seam::Ends(staged, fault)),
    };
    Ok(Seam::GoesOn(carry_on(alloc, caps, bounds, staged, lines)?))
}

/// The lines that carry a recording on; the `Err` inside says why there are none.
fn carried_lines(
    alloc: Global,
    recording: &[u8],
) -> Result<Result<Vec<Line>, SeamFault>, AllocError>
    ensures { IfOk result (λ read. Reads (λ lines. lines.items) recording.now read) }
{
    a_legal_history_is_recordable();
    if recording.len() > MAX_RECORDING as usize {
        return Ok(Err(SeamFault::Unlike));
    }
    match carry(alloc, recording) {
        Ok(script) => Ok(Ok(lines_of(alloc, &script)?)),
        Err(CarryFault::NoMemory) => Err(AllocError),
        Err(CarryFault::TooLong) => Ok(Err(SeamFault::TooLong)),
        Err(_) => Ok(Err(SeamFault::Unlike)),
    }
}

/// The lines of a script that has no fault.
fn lines_of(alloc: Global, script: &[u8]) -> Result<Vec<Line>, AllocError>
    requires { (lines : List Line) × (script_of Plain script.now ≡ Ok lines) }
    ensures { IfOk result (λ lines. script_of Plain script.now ≡ Ok lines.items) }
{
    match Script::read(alloc, script, Mode::Plain) {
        Ok(script) => Ok(script.into_lines()),
        Err(ScriptRefusal::NoMemory) => Err(AllocError),
        Err(ScriptRefusal::Fault(_)) => unreachable!(),
    }
}

/// The stage whose opening adds the relays and does what else these lines do.
fn carry_on<O: Outlet, L: Drop>(
    alloc: Global,
    caps: Caps,
    bounds: Bounds,
    staged: Staged<O, L>,
    lines: Vec<Line>,
) -> Result<Stage<O, L>, AllocError>
    ensures caps { IfOk result (λ stage. stage.caps ≡ caps) }
    ensures links { IfOk result (λ stage. stage.links.from.items ≡ staged.links.items) }
    ensures bounds { IfOk result (λ stage. stage.links.bounds ≡ bounds) }
    ensures opening { IfOk result (λ stage. part_of stage.opening
        ≡ carried_on (map (λ one. one.1) staged.relays.items) lines.items) }
    ensures whole { IfOk result (λ stage. IsWhole (part_of stage.opening)) }
    ensures own { IfOk result (λ stage. AddsAtOwn (part_of stage.opening)) }
{
    let opening = carried_on(alloc, relays_of(alloc, staged.relays)?, lines)?;
    Ok(Stage {
        caps,
        opening,
        links: LinksPart {
            from: staged.links,
            bounds,
        },
    })
}
