//! Plays many lanes on a new server, with a display next to them, and closes it.
ghost use Rattle.std.specs.Prelude.{◌<◌, length, map, All, IfOk};
ghost use Rattle.std.specs.Option.{option_map};
ghost use Rattle.osc_record.specs.Shown.{room_of};
ghost use Rattle.osc_lanes.specs.Performs.{part_of, told_of, IsWhole};
ghost use Rattle.osc_display.specs.Displays.{Displays};

use crate::display::{close, open};
use crate::watch::Watch;
use osc_lanes::{Gate, LanePart, Performed, perform_beside};
use osc_life::Life;
use osc_method::Method;
use osc_record::Caps;
use osc_watch::Methods;
use std::alloc::{AllocError, Global};
use std::sync::Wait;
use std::thread::Threads;

/// The result of all lanes, and the methods that stand after them.
#[derive(Drop)]
pub struct Displayed<M> {
    pub performed: Performed<M>,
    pub methods: Methods,
}

/// Plays the parts as lanes at the same time on a new server with these limits, as
/// [`run_lanes`](osc_lanes::run_lanes) does. While they play, caller 0 refreshes a board of the
/// server's methods, and its watcher reads it, again and again; the gate is called round each read,
/// with [`WATCHER_LANE`](crate::WATCHER_LANE) and the number of the read, from 1. The last list
/// calls no gate. An `Err` means out of memory.
pub fn display_lanes<M: Method + Send, W: Threads + Wait + Sync, G: Gate + Sync>(
    rt: &W,
    alloc: Global,
    caps: Caps,
    parts: Vec<LanePart<M>>,
    gate: &G,
) -> Result<Displayed<M>, AllocError>
    requires callers { length parts.items < caps.callers }
    requires whole { All (λ part. IsWhole (part_of part)) parts.items }
    ensures { IfOk result (λ displayed. Displays M.keep M.heard caps (map part_of parts.items)
        displayed.performed.closed.bytes.items displayed.performed.closed.kept.items
        (map told_of displayed.performed.lanes.items)
        (option_map room_of displayed.performed.unenrolled) displayed.methods) }
{
    // Limits are in their ranges, as each of them tells.
    let _ = caps.callers();
    let life = Life::open(alloc, caps)?;
    let mut display = open(rt, alloc)?;
    let watch = Watch { reads: 1 };
    let both = perform_beside(rt, life, parts, watch, &mut display, gate);
    close(display, rt);
    let (performed, listed) = both?;
    let methods = listed?;
    Ok(Displayed { performed, methods })
}
