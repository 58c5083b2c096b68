//! Serves links at the same time, with a ticker next to them.
ghost use Rattle.std.specs.Prelude.{◌≡◌, ◌+◌, ◌<◌, ◌≤◌, length, All, IfOk};
ghost use Rattle.osc_live.specs.Tokens.{IsOurs};
ghost use Rattle.osc_links.specs.Serves.{Serves};
ghost use Rattle.osc_links.specs.Ticks.{clock_read};
ghost use Rattle.osc_links.specs.declared.limits.TheConstants.{MAX_LINKS};

use crate::link_ends::gather;
use crate::link_work::number_links;
use crate::served::{Bounds, LinksPart, LinksTold, ServeEnd};
use crate::ticker::Round;
use osc_edge::{Clock, Link};
use osc_life::{Beside, Crew, Desk, Gate, make_jobs, play_beside};
use osc_live::{Caller, Live};
use osc_method::Method;
use std::alloc::{AllocError, Global};
use std::sync::Wait;
use std::thread::Threads;

/// Serves the links, each by a thread of its own where one can be made, the k-th under the k-th
/// caller, while a ticker plays rounds under the last caller, and one more after all that the links
/// have done. An `Err` means out of memory, and the links are gone then.
pub fn serve<
    M: Method + Send,
    W: Threads + Wait + Sync,
    L: Link + Send + Drop,
    C: Clock + Send,
    G: Gate + Sync,
>(
    rt: &W,
    alloc: Global,
    live: &Live<M>,
    mut callers: Vec<Caller>,
    links: Vec<L>,
    clock: &mut C,
    bounds: Bounds,
    gate: &G,
) -> Result<ServeEnd<L>, AllocError>
    requires ours { All (IsOurs live.now) callers.items }
    requires many { length callers.items ≡ length links.items + 1 }
    requires few { length links.items ≤ MAX_LINKS }
    requires count { 0 < bounds.count }
    requires idle { 0 < bounds.idle }
    ensures ours { IfOk result (λ end. All (IsOurs live.now) end.callers.items) }
    ensures serves { IfOk result (λ end. Serves M.keep M.heard L.left L.faults live.now.caps
        bounds callers.items links.items (clock_read C.left C.faults clock.old clock.new) end) }
{
    let Some(ticker) = callers.pop() else {
        unreachable!()
    };
    let part = LinksPart {
        from: links,
        bounds,
    };
    let works = number_links(alloc, part)?;
    let jobs = make_jobs(alloc, callers, works)?;
    let desk = Desk {
        rt,
        alloc,
        live,
        gate,
    };
    let both = play_beside(&desk, jobs, ticker, Round::Played(None), clock)?;
    let Beside { crew, ends, end } = both;
    let told = gather(alloc, ends, end)?;
    let Crew { first, mut callers } = crew;
    callers.push(first)?;
    let LinksTold {
        links,
        faults,
        failed,
        clock_failed,
        stop,
    } = told;
    Ok(ServeEnd {
        callers,
        links,
        faults,
        failed,
        clock_failed,
        stop,
    })
}
