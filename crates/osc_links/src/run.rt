//! Serves links on a new server, and closes it.
ghost use Rattle.std.specs.Prelude.{◌≡◌, ◌<◌, ◌≤◌, ◌+◌, false, [], length, IfOk, None};
ghost use Rattle.osc_ends.specs.Sinks.{change};
ghost use Rattle.osc_growing.specs.Growing.{HasGrown};
ghost use Rattle.osc_lanes.specs.Performs.{part_of, IsWhole};
ghost use Rattle.osc_links.specs.Hosts.{Hosts};
ghost use Rattle.osc_links.specs.Ticks.{clock_read};
ghost use Rattle.osc_links.specs.declared.limits.TheConstants.{MAX_LINKS};

use crate::link_ends::gather;
use crate::link_work::{LinkWork, links_back, number_links};
use crate::served::{LinksPart, LinksTold};
use crate::ticker::Round;
use osc_atoms::Room;
use osc_core::Closed;
use osc_edge::{Clock, Link, Sink};
use osc_growing::{Growth, Writer, growth_of};
use osc_lanes::{LanePart, LaneTold, LaneWork};
use osc_life::{Gate, Life, Lived, Nobody, OpenGate, Played, Tasks, live_on, live_under};
use osc_method::Method;
use osc_record::Caps;
use std::alloc::{AllocError, Global};
use std::sync::Wait;
use std::thread::Threads;

/// The result of a server and of its links.
#[derive(Drop)]
pub struct Hosted<M, L> {
    /// The recording of the one history, and the methods that are registered at its end.
    pub closed: Closed<M>,
    /// What caller 0's lines told. Where they found the recording full, no link was started.
    pub opening: LaneTold<M>,
    /// Where the recording had no room for the enrolment of a link or of the ticker. No link was
    /// started then.
    pub unenrolled: Option<Room>,
    /// What the links and the ticker told.
    pub links: LinksTold<L>,
    /// How far the recording was written while the links were served.
    pub growth: Growth,
}

/// What [`run_links`] serves: the server's limits, what caller 0 plays before the links are served,
/// and the links.
#[derive(Drop)]
pub struct HostPart<M, L> {
    pub caps: Caps,
    pub opening: LanePart<M>,
    pub links: LinksPart<L>,
}

/// Opens a server with these limits, plays the opening as caller 0, enrols a caller for each link
/// and one for the ticker, serves the links as [`serve`](crate::serve) does, and closes the server.
/// Caller k submits for the k-th link, counted from 1. While the links are served, what is recorded
/// is written to `rec`, under caller 0's token. An `Err` means out of memory, and the links are gone
/// then.
pub fn run_links<
    M: Method + Send,
    W: Threads + Wait + Sync,
    L: Link + Send + Drop,
    C: Clock + Send,
    G: Gate + Sync,
    R: Sink,
>(
    rt: &W,
    alloc: Global,
    host: HostPart<M, L>,
    clock: &mut C,
    rec: &mut R,
    gate: &G,
) -> Result<Hosted<M, L>, AllocError>
    requires callers { length host.links.from.items + 2 ≤ host.caps.callers }
    requires few { length host.links.from.items ≤ MAX_LINKS }
    requires whole { IsWhole (part_of host.opening) }
    requires count { 0 < host.links.bounds.count }
    requires idle { 0 < host.links.bounds.idle }
    ensures hosts { IfOk result (λ hosted. Hosts L.left L.faults M.keep M.heard host.caps
        host.links.bounds (part_of host.opening) host.links.from.items
        (clock_read C.left C.faults clock.old clock.new) hosted) }
    ensures grown { IfOk result (λ hosted. HasGrown hosted.growth
        (change R.Sink rec.old rec.new) hosted.closed.bytes.items) }
{
    osc_model::laws::a_method_is_called_while_it_is_registered();
    // Limits are in their ranges, as each of them tells.
    let _ = host.caps.callers();
    let new = Life::open(alloc, host.caps)?;
    let part = host.opening;
    let (life, opening) = new.play_first(rt, LaneWork { lane: 0, part }, &OpenGate)?;
    match opening.stop {
        Some(_) => {
            let works: Vec<LinkWork<L>> = Vec::new(alloc);
            let lived = live_on(rt, life, works, Nobody, &mut (), gate)?;
            let Lived { closed, .. } = lived;
            let links = unserved(alloc, host.links.from);
            Ok(put_together(closed, opening, None, links, Growth::Written(0)))
        }
        None => {
            let works = number_links(alloc, host.links)?;
            let tasks = Tasks {
                works,
                meanwhile: Round::Played(None),
                aside: Writer,
            };
            let (lived, looked) = live_under(rt, life, tasks, clock, rec, gate)?;
            let growth = growth_of(looked);
            let Lived { closed, works, end } = lived;
            match works {
                Played::Each(ends) => {
                    let Some(end) = end else { unreachable!() };
                    let links = gather(alloc, ends, end)?;
                    Ok(put_together(closed, opening, None, links, growth))
                }
                Played::NoRoom(room, works) => {
                    let links = links_back(alloc, works)?;
                    let links = unserved(alloc, links);
                    Ok(put_together(closed, opening, Some(room), links, growth))
                }
            }
        }
    }
}

fn put_together<M, L>(
    closed: Closed<M>,
    opening: LaneTold<M>,
    unenrolled: Option<Room>,
    links: LinksTold<L>,
    growth: Growth,
) -> Hosted<M, L>
    ensures { result ≡ record {
      closed = closed;
      opening = opening;
      unenrolled = unenrolled;
      links = links;
      growth = growth;
    } }
{
    Hosted {
        closed,
        opening,
        unenrolled,
        links,
        growth,
    }
}

/// What links tell that weren't called.
fn unserved<L: Drop>(alloc: Global, links: Vec<L>) -> LinksTold<L>
    ensures links { result.links ≡ links }
    ensures faults { result.faults.items ≡ [] }
    ensures failed { result.failed ≡ None }
    ensures clock { result.clock_failed ≡ false }
    ensures stop { result.stop ≡ None }
{
    LinksTold {
        links,
        faults: Vec::new(alloc),
        failed: None,
        clock_failed: false,
        stop: None,
    }
}
