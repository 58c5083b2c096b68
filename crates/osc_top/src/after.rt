// Plays the lanes of a script after a past, on the server that goes on from its recording.
ghost use Rattle.osc_ends.specs.declared.status.TheConstants.{NO_MEMORY, SINK_FAILED};
ghost use Rattle.std.specs.Prelude.{◌≡◌, ◌≢◌, ◌⊎◌, ◌≤◌, ◌<◌, ◌^◌, ℕ, List, length, Ok, IfOk};
ghost use Rattle.std.specs.Prelude.{IfSome, None};
ghost use Rattle.osc_model.specs.Events.{Entry};
ghost use Rattle.osc_model.specs.Limits.{Limits, header_size, max_recording};
ghost use Rattle.osc_script.specs.declared.mode.Mode.TheVariants.{Lanes};
ghost use Rattle.osc_script.specs.Scripts.{AreOf, script_of};
ghost use Rattle.osc_live.specs.Resuming.{roomier};
ghost use Rattle.osc_ends.specs.Sinks.{change, Fails};
ghost use Rattle.osc_top.specs.After.{CanGoOn, HandsBackAll, Reaches, boxes_told, callers_told};
ghost use Rattle.osc_top.specs.EndsResumed.{EndsResumed, IsUnresumed};
ghost use Rattle.osc_top.specs.Resumed.{PlaysResumed};
ghost use Rattle.osc_top.specs.Staged.{IsStaged};
ghost use Rattle.osc_top.specs.Taken.{IsPast};

use crate::bank::deal;
use crate::counts::lane_count;
use crate::intake::Taken;
use crate::lanes::settle;
use crate::live::unplayed;
use crate::outputs::end;
use crate::played::Played;
use crate::venue::Venue;
use osc_edge::Sink;
use osc_ends::status::NO_MEMORY;
use osc_ends::{Ended, bank_short, callers_full, count_adds};
use osc_growing::Growth;
use osc_lanes::{Gate, resume_lanes};
use osc_live::{Live, LiveResumed};
use osc_method::Method;
use osc_replay::Checked;
use osc_script::Line;
use std::alloc::{AllocError, Global};
use std::sync::Wait;
use std::thread::Threads;

/// Plays the lines after the past, if there are boxes and callers enough, with room for so many
/// bytes of recording at least.
pub(crate) fn play_after<O: Sink, R: Sink, W: Threads + Wait + Sync, G: Gate + Sync>(
    venue: &Venue<'_, W, G>,
    room: u32,
    taken: Taken<'_>,
    bank: Vec<Box<dyn Method + Send>>,
    out: &mut O,
    rec: &mut R,
) -> Ended
    requires room { (header_size ≤ room) × (room ≤ max_recording) }
    requires past { IsPast taken.past }
    requires lanes { AreOf Lanes taken.lines.items }
    ensures ends { (script : List ℕ) → script_of Lanes script ≡ Ok taken.entry.lines.items
        → EndsResumed (λ caps before lines. PlaysResumed (λ box. keep box) (λ box. heard box)
        (roomier caps room) before bank.items result.heard.items result.left.items lines)
        result.status taken.entry.past script (length bank.items)
        (change R.Sink rec.old rec.new) (change O.Sink out.old out.new) }
    ensures back { HandsBackAll result.status bank.items result.heard.items result.left.items }
    ensures unrecorded { IsUnresumed result.status → rec.new ≡ rec.old }
    ensures sink { result.status ≡ SINK_FAILED
        → Fails (change O.Sink out.old out.new) ⊎ (out.new ≡ out.old) }
{
    osc_model::laws::a_server_stays_sound();
    osc_model::laws::callers_are_counted();
    let alloc = venue.alloc;
    let Taken { past, lines } = taken;
    let checked = past.checked();
    if let Some(status) = refuse_short(alloc, checked, &lines, bank.len(), out) {
        return unplayed(alloc, status, bank);
    }
    match stage_after(venue, past.recording(), room, lines, bank) {
        Ok(played) => end(alloc, played, Growth::Written(0), Some(past), out, rec),
        Err(_) => unplayed(alloc, NO_MEMORY, Vec::new(alloc)),
    }
}

/// The status with which the program ends where there are too few boxes or callers, of which a line
/// is written: 8, 9 or out of memory.
fn refuse_short<O: Sink>(
    alloc: Global,
    checked: Checked,
    lines: &[Line],
    boxes: usize,
    out: &mut O,
) -> Option<u8>
    requires few { (boxes_told checked lines.now < 2 ^ 64)
        × (callers_told checked lines.now < 2 ^ 64) }
    ensures reaches { Reaches result checked lines.now boxes (change O.Sink out.old out.new) }
    ensures unwritten { result ≡ None → out.new ≡ out.old }
    ensures decided { IfSome result (λ status. status ≢ SINK_FAILED) }
{
    let need = checked.adds as usize + count_adds(lines);
    if boxes < need {
        return Some(bank_short(alloc, need, boxes, out));
    }
    let need = checked.callers as usize + lane_count(lines);
    let have = checked.caps.callers() as usize;
    if have < need {
        return Some(callers_full(alloc, need, have, out));
    }
    None
}

/// Plays the lanes of the lines at the same time on the server that goes on from the past. The k-th
/// method that the past adds has the k-th box, and the k-th add of the lines the k-th after these.
/// An `Err` means out of memory.
fn stage_after<M: Method + Send, W: Threads + Wait + Sync, G: Gate + Sync>(
    venue: &Venue<'_, W, G>,
    past: &[u8],
    room: u32,
    lines: Vec<Line>,
    bank: Vec<M>,
) -> Result<Played<M>, AllocError>
    requires room { (header_size ≤ room) × (room ≤ max_recording) }
    requires enough { (caps : Limits) × (before : List Entry)
        × CanGoOn past.now lines.items (length bank.items) caps before }
    ensures { (caps : Limits) (before : List Entry)
        → CanGoOn past.now lines.items (length bank.items) caps before →
        IfOk result (λ played. IsStaged
        (PlaysResumed M.keep M.heard (roomier caps room) before bank.items played.heard.items
        played.left.items lines.items)
        (roomier caps room) played.recorded.bytes.items played.recorded.faults
        played.recorded.outcome) }
{
    osc_model::laws::a_method_is_called_while_it_is_registered();
    let Venue { rt, alloc, gate } = *venue;
    let LiveResumed {
        live,
        callers,
        removed,
        left,
    } = match Live::resume(alloc, past, room, bank) {
        Ok(resumed) => resumed,
        Err((none, _)) => return Err(none),
    };
    let (parts, rest) = deal(alloc, lines, left)?;
    let performed = resume_lanes(rt, alloc, live, callers, parts, gate)?;
    let played = settle(alloc, performed, removed, rest)?;
    Ok(played)
}
