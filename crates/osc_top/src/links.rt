// Serves links on a server, which records them.
ghost use Rattle.osc_links.specs.declared.limits.TheConstants.{MAX_LINKS};
ghost use Rattle.osc_top.specs.declared.caps.TheConstants.{LIVE_CALLERS};
ghost use Rattle.std.specs.Prelude.{◌≡◌, ◌++◌, ◌≤◌, ◌<◌, length, IfOk};
ghost use Rattle.std.specs.Option.{option_map, option_or};
ghost use Rattle.std.specs.List.Sorted.{IsPermutation, IsNonDecreasingBy};
ghost use Rattle.osc_record.specs.Shown.{room_of};
ghost use Rattle.osc_ends.specs.Sinks.{change};
ghost use Rattle.osc_growing.specs.Growing.{HasGrown};
ghost use Rattle.osc_links.specs.Ticks.{clock_read};
ghost use Rattle.osc_script.specs.Adds.{count_adds};
ghost use Rattle.osc_top.specs.Served as ends;
ghost use Rattle.osc_top.specs.Served.{PlaysLinks, link_faults};
ghost use Rattle.osc_top.specs.Staged.{IsStaged};

use crate::played::Played;
use crate::venue::Venue;
use osc_atoms::{Fault, Room};
use osc_edge::{Clock, Link, Sink};
use osc_ends::{Outcome, Recorded, count_adds, stopped};
use osc_growing::Growth;
use osc_lanes::{Gate, LanePart, LaneTold};
use osc_links::{HostPart, Hosted, run_links};
use osc_method::Method;
use osc_player::gather;
use osc_print::{Text, link_fault_line};
use std::alloc::{AllocError, Global};
use std::sync::Wait;
use std::thread::Threads;

/// Plays the opening on a new server as caller 0, its k-th add with its k-th box, of which it may
/// have too many, and serves the links at the same time. While the links are served, what is
/// recorded is written to `rec`. The links come back in their order. An `Err` means out of memory.
pub(crate) fn stage_links<
    M: Method + Send,
    L: Link + Send + Drop,
    C: Clock + Send,
    W: Threads + Wait + Sync,
    G: Gate + Sync,
    R: Sink,
>(
    venue: &Venue<'_, W, G>,
    host: HostPart<M, L>,
    clock: &mut C,
    rec: &mut R,
) -> Result<(Played<M>, Vec<L>, Growth), AllocError>
    requires callers { host.caps.callers ≡ LIVE_CALLERS }
    requires enough { count_adds host.opening.lines.items ≤ length host.opening.boxes.items }
    requires few { length host.links.from.items ≤ MAX_LINKS }
    requires count { 0 < host.links.bounds.count }
    requires idle { 0 < host.links.bounds.idle }
    ensures staged { IfOk result (λ staged. IsStaged
        (PlaysLinks M.keep M.heard L.left L.faults host.caps host.links.bounds
        host.opening.boxes.items host.links.from.items
        (clock_read C.left C.faults clock.old clock.new) staged.0.heard.items
        staged.0.left.items staged.1.items host.opening.lines.items)
        host.caps staged.0.recorded.bytes.items staged.0.recorded.faults
        staged.0.recorded.outcome) }
    ensures grown { IfOk result (λ staged. HasGrown staged.2
        (change R.Sink rec.old rec.new) staged.0.recorded.bytes.items) }
{
    let HostPart {
        caps,
        opening: LanePart { lines, mut boxes },
        links,
    } = host;
    let rest = boxes.split_off(count_adds(&lines))?;
    let host = HostPart {
        caps,
        opening: LanePart { lines, boxes },
        links,
    };
    let hosted = run_links(venue.rt, venue.alloc, host, clock, rec, venue.gate)?;
    let growth = hosted.growth;
    let settled = settle_links(venue.alloc, hosted, rest)?;
    let (played, links) = settled;
    Ok((played, links, growth))
}

/// Puts together what caller 0 and the links report. The boxes that no line took are among those that
/// are left.
fn settle_links<M: Method, L: Drop>(
    alloc: Global,
    hosted: Hosted<M, L>,
    mut rest: Vec<M>,
) -> Result<(Played<M>, Vec<L>), AllocError>
    ensures bytes { IfOk result
        (λ settled. settled.0.recorded.bytes.items ≡ hosted.closed.bytes.items) }
    ensures faults { IfOk result
        (λ settled. settled.0.recorded.faults ≡ link_faults hosted.links.faults.items) }
    ensures outcome { IfOk result (λ settled. settled.0.recorded.outcome
        ≡ ends.served hosted.links.failed hosted.links.clock_failed
        (option_map room_of (option_or hosted.opening.stop
        (option_or hosted.unenrolled hosted.links.stop)))) }
    ensures each { IfOk result (λ settled. IsPermutation
        (hosted.closed.kept.items ++ hosted.opening.removed.items) settled.0.heard.items) }
    ensures ascending { IfOk result
        (λ settled. IsNonDecreasingBy (λ one. one.0) settled.0.heard.items) }
    ensures left { IfOk result
        (λ settled. settled.0.left.items ≡ hosted.opening.back.items ++ rest.items) }
    ensures links { IfOk result (λ settled. settled.1.items ≡ hosted.links.links.items) }
{
    let Hosted {
        closed,
        opening,
        unenrolled,
        links: told,
        ..
    } = hosted;
    let LaneTold {
        removed,
        back: mut left,
        stop,
        ..
    } = opening;
    left.append(&mut rest)?;
    let heard = gather(closed.kept, removed)?;
    let faults = fault_text(alloc, &told.faults)?;
    let stop = stop.or(unenrolled.or(told.stop));
    let recorded = Recorded {
        bytes: closed.bytes,
        faults,
        outcome: served(told.failed, told.clock_failed, stop),
    };
    let played = Played {
        recorded,
        heard,
        left,
    };
    Ok((played, told.links))
}

/// A failed link goes before a failed clock, and both before a full recording.
fn served(failed: Option<u32>, clock_failed: bool, stop: Option<Room>) -> Outcome
    ensures { result ≡ ends.served failed clock_failed (option_map room_of stop) }
{
    match failed {
        Some(link) => Outcome::LinkFailed(link),
        None if clock_failed => Outcome::ClockFailed,
        None => stopped(stop),
    }
}

/// The lines of the faults of the links' datagrams.
fn fault_text(alloc: Global, faults: &[(u32, u32, Fault)]) -> Result<Text, AllocError>
    ensures { IfOk result (λ text. text ≡ link_faults faults.now) }
{
    let mut text = Text::open(alloc);
    for (link, number, fault) in faults {
        link_fault_line(&mut text, *link, *number, *fault)?;
    }
    Ok(text)
}
