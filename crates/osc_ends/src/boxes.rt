//! The boxes of a program.
ghost use Rattle.osc_ends.specs.declared.boxes.TheConstants.{BOXES, KEPT};
ghost use Rattle.std.specs.Prelude.{◌≡◌, Some, [], All, length, IfOk};

use osc_method::{Method, Trace};
use std::alloc::{AllocError, Global};

/// How many methods a script of the program can add.
const BOXES: usize = 8192;

/// How many bytes each of its boxes reports.
const KEPT: u32 = 64;

/// The boxes that a program hands to its top call. An `Err` means out of memory.
pub fn traces(alloc: Global) -> Result<Vec<Trace>, AllocError>
    ensures count { IfOk result (λ traces. length traces.items ≡ BOXES) }
    ensures keep { IfOk result (λ traces. All
        (λ trace. ⟦<Trace as Method>⟧.keep trace ≡ record { most = KEPT; name = []; outlets = [] })
        traces.items) }
    ensures heard { IfOk result
        (λ traces. All (λ trace. ⟦<Trace as Method>⟧.heard trace ≡ Some []) traces.items) }
{
    let mut traces = Vec::with_capacity(alloc, BOXES)?;
    while traces.len() < BOXES {
        traces.push(Trace::open(alloc, KEPT)?)?;
    }
    Ok(traces)
}
