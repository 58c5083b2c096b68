// Plays the lanes of a script on a server, which records them.
ghost use Rattle.osc_top.specs.declared.caps.TheConstants.{LIVE_CALLERS};
ghost use Rattle.std.specs.Prelude.{◌≡◌, ◌++◌, ◌≤◌, map, length, IfOk, OnOk};
ghost use Rattle.std.specs.Option.{option_map, option_or};
ghost use Rattle.std.specs.List.{flat_map};
ghost use Rattle.std.specs.List.Sorted.{IsPermutation, IsNonDecreasingBy};
ghost use Rattle.std.specs.Vec.Iter.{into_iter_items};
ghost use Rattle.osc_record.specs.Shown.{room_of};
ghost use Rattle.osc_lanes.specs.Performs.{told_of};
ghost use Rattle.osc_print.specs.Lines.{fault_text};
ghost use Rattle.osc_script.specs.declared.mode.Mode.TheVariants.{Lanes};
ghost use Rattle.osc_script.specs.Scripts.{AreOf};
ghost use Rattle.osc_script.specs.Adds.{count_adds};
ghost use Rattle.osc_top.specs.Lanes.{PlaysLanes, first_stop, lane_faults};
ghost use Rattle.osc_ends.specs.Outcomes as outcomes;
ghost use Rattle.osc_top.specs.Staged.{IsStaged};

use crate::bank::deal;
use crate::list::{Listed, play_parts};
use crate::played::Played;
use crate::venue::Venue;
use osc_atoms::{Fault, Room};
use osc_ends::{Recorded, stopped};
use osc_lanes::{Gate, LaneTold, Performed};
use osc_method::Method;
use osc_player::{gather, keep_rest};
use osc_print::{Text, fault_line};
use osc_record::Caps;
use osc_script::Line;
use std::alloc::{AllocError, Global};
use std::sync::Wait;
use std::thread::Threads;
use std::vec::IntoIter;

/// Plays the lanes of the lines on a new server, at the same time, and if `watch` says so with a
/// watcher next to them, whose list stands after the lines of the faults; the k-th add gets the
/// k-th box. An `Err` means out of memory.
pub(crate) fn stage<M: Method + Send, W: Threads + Wait + Sync, G: Gate + Sync>(
    venue: &Venue<'_, W, G>,
    caps: Caps,
    watch: bool,
    lines: Vec<Line>,
    bank: Vec<M>,
) -> Result<Played<M>, AllocError>
    requires callers { caps.callers ≡ LIVE_CALLERS }
    requires enough { count_adds lines.items ≤ length bank.items }
    requires lanes { AreOf Lanes lines.items }
    ensures { IfOk result
        (λ played. IsStaged
        (PlaysLanes M.keep M.heard caps watch bank.items played.heard.items
        played.left.items lines.items)
        caps played.recorded.bytes.items played.recorded.faults played.recorded.outcome) }
{
    let alloc = venue.alloc;
    let (parts, rest) = deal(alloc, lines, bank)?;
    let listed = play_parts(venue, caps, watch, parts)?;
    let Listed { performed, list } = listed;
    let mut played = settle(alloc, performed, Vec::new(alloc), rest)?;
    played.recorded.faults.word(list.bytes())?;
    Ok(played)
}

/// Puts together what the lanes report. The boxes that were removed before are among those that
/// heard, and the boxes that no lane got among those that are left.
pub(crate) fn settle<M: Method>(
    alloc: Global,
    performed: Performed<M>,
    mut gone: Vec<(u32, M)>,
    rest: IntoIter<M>,
) -> Result<Played<M>, AllocError>
    ensures bytes { IfOk result
        (λ played. played.recorded.bytes.items ≡ performed.closed.bytes.items) }
    ensures faults { IfOk result (λ played. played.recorded.faults
        ≡ lane_faults (map told_of performed.lanes.items)) }
    ensures outcome { IfOk result (λ played. played.recorded.outcome
        ≡ outcomes.stopped (option_or (option_map room_of performed.unenrolled)
        (first_stop (map told_of performed.lanes.items)))) }
    ensures each { IfOk result (λ played. IsPermutation (performed.closed.kept.items
        ++ (gone.items
        ++ flat_map (λ account. account.removed) (map told_of performed.lanes.items)))
        played.heard.items) }
    ensures ascending { IfOk result
        (λ played. IsNonDecreasingBy (λ one. one.0) played.heard.items) }
    ensures left { IfOk result (λ played. played.left.items
        ≡ flat_map (λ account. account.back) (map told_of performed.lanes.items)
        ++ into_iter_items rest) }
{
    let Performed {
        closed,
        lanes,
        unenrolled,
    } = performed;
    let Gathered {
        mut removed,
        mut left,
        faults,
        stop,
    } = gather_lanes(alloc, lanes)?;
    gone.append(&mut removed)?;
    let heard = gather(closed.kept, gone)?;
    keep_rest(&mut left, rest)?;
    let recorded = Recorded {
        bytes: closed.bytes,
        faults,
        outcome: stopped(unenrolled.or(stop)),
    };
    Ok(Played {
        recorded,
        heard,
        left,
    })
}

/// What lanes reported, one lane after another.
#[derive(Drop)]
struct Gathered<M> {
    removed: Vec<(u32, M)>,
    left: Vec<M>,
    /// The lines of the faults.
    faults: Text,
    /// That of the first lane that stopped.
    stop: Option<Room>,
}

fn gather_lanes<M: Method>(
    alloc: Global,
    lanes: Vec<LaneTold<M>>,
) -> Result<Gathered<M>, AllocError>
    ensures removed { IfOk result (λ gathered. gathered.removed.items
        ≡ flat_map (λ account. account.removed) (map told_of lanes.items)) }
    ensures left { IfOk result (λ gathered. gathered.left.items
        ≡ flat_map (λ account. account.back) (map told_of lanes.items)) }
    ensures faults { IfOk result
        (λ gathered. gathered.faults ≡ lane_faults (map told_of lanes.items)) }
    ensures stop { IfOk result (λ gathered. option_map room_of gathered.stop
        ≡ first_stop (map told_of lanes.items)) }
{
    let mut gathered = Gathered {
        removed: Vec::new(alloc),
        left: Vec::new(alloc),
        faults: Text::open(alloc),
        stop: None,
    };
    for lane in lanes {
        gather_lane(&mut gathered, lane)?;
    }
    Ok(gathered)
}

fn gather_lane<M: Method>(gathered: &mut Gathered<M>, lane: LaneTold<M>) -> Result<(), AllocError>
    ensures removed { OnOk result
        (gathered.new.removed.items ≡ gathered.old.removed.items ++ lane.removed.items) }
    ensures left { OnOk result
        (gathered.new.left.items ≡ gathered.old.left.items ++ lane.back.items) }
    ensures faults { OnOk result (gathered.new.faults ≡ gathered.old.faults
        ++ flat_map (λ one. fault_text one.0 one.1) lane.faults.items) }
    ensures stop { OnOk result (gathered.new.stop ≡ option_or gathered.old.stop lane.stop) }
{
    let LaneTold {
        faults,
        mut removed,
        mut back,
        stop,
    } = lane;
    gathered.removed.append(&mut removed)?;
    gathered.left.append(&mut back)?;
    fault_lines(&mut gathered.faults, &faults)?;
    gathered.stop = gathered.stop.or(stop);
    Ok(())
}

fn fault_lines(text: &mut Text, faults: &[(u32, Fault)]) -> Result<(), AllocError>
    ensures { OnOk result
        (text.new ≡ text.old ++ flat_map (λ one. fault_text one.0 one.1) faults.now) }
{
    for (line, fault) in faults {
        fault_line(text, *line, *fault)?;
    }
    Ok(())
}
