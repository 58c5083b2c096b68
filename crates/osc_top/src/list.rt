// Plays lanes, and lists the methods of their server where they are watched.
ghost use Rattle.std.specs.Prelude.{◌≡◌, ◌++◌, ◌<◌, List, length, map, All, IfOk, OnOk};
ghost use Rattle.std.specs.Option.{option_map};
ghost use Rattle.osc_model.specs.Events.{Entry};
ghost use Rattle.osc_record.specs.Shown.{room_of};
ghost use Rattle.osc_lanes.specs.Performs.{part_of, told_of, IsWhole};
ghost use Rattle.osc_display.specs.Displays.{Lists};
ghost use Rattle.osc_top.specs.Watched as watched;
ghost use Rattle.osc_top.specs.Staged.{PerformsWatched};
ghost use Rattle.osc_top.specs.Watched.{rows_text};

use crate::venue::Venue;
use osc_display::{Displayed, display_lanes};
use osc_lanes::{Gate, LanePart, Performed, run_lanes};
use osc_method::Method;
use osc_print::{Text, list_line, method_line};
use osc_record::Caps;
use osc_watch::{MethodRow, Methods};
use std::alloc::{AllocError, Global};
use std::sync::Wait;
use std::thread::Threads;

/// The result of lanes that may have been watched.
#[derive(Drop)]
pub(crate) struct Listed<M> {
    pub(crate) performed: Performed<M>,
    /// The lines of the methods that stand after the lanes; none where nobody watched.
    pub(crate) list: Text,
}

/// Plays the parts as lanes at the same time on a new server, with a watcher of its methods next to
/// them if `watch` says so. An `Err` means out of memory.
pub(crate) fn play_parts<M: Method + Send, W: Threads + Wait + Sync, G: Gate + Sync>(
    venue: &Venue<'_, W, G>,
    caps: Caps,
    watch: bool,
    parts: Vec<LanePart<M>>,
) -> Result<Listed<M>, AllocError>
    requires callers { length parts.items < caps.callers }
    requires whole { All (λ part. IsWhole (part_of part)) parts.items }
    ensures { IfOk result (λ played. PerformsWatched M.keep M.heard caps watch
        (map part_of parts.items) played.performed.closed.bytes.items
        played.performed.closed.kept.items (map told_of played.performed.lanes.items)
        (option_map room_of played.performed.unenrolled) played.list) }
{
    let Venue { rt, alloc, gate } = *venue;
    if watch {
        let displayed = display_lanes(rt, alloc, caps, parts, gate)?;
        let Displayed { performed, methods } = displayed;
        let list = methods_text(alloc, &methods)?;
        Ok(Listed { performed, list })
    } else {
        let performed = run_lanes(rt, alloc, caps, parts, gate)?;
        let list = Text::open(alloc);
        Ok(Listed { performed, list })
    }
}

/// The lines of a list of methods.
fn methods_text(alloc: Global, methods: &Methods) -> Result<Text, AllocError>
    ensures { (history : List Entry) → Lists history methods.now
        → IfOk result (λ text. text ≡ watched.methods_text history) }
{
    let mut text = Text::open(alloc);
    list_line(&mut text, methods.edits)?;
    method_lines(&mut text, &methods.rows)?;
    Ok(text)
}

fn method_lines(text: &mut Text, rows: &[MethodRow]) -> Result<(), AllocError>
    ensures { OnOk result (text.new ≡ text.old ++ rows_text rows.now) }
{
    for row in rows {
        method_line(text, row.id, row.address.as_slice())?;
    }
    Ok(())
}
