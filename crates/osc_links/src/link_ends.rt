// The ends of links, put together.
ghost use Rattle.std.specs.Prelude.{◌≡◌, ◌≤◌, ◌++◌, length, map, IfOk, OnOk, Some};
ghost use Rattle.std.specs.Prelude.{None, if◌then◌else◌};
ghost use Rattle.std.specs.Option.{option_map};
ghost use Rattle.osc_record.specs.Shown.{room_of};
ghost use Rattle.osc_links.specs.Links.{stop_by};
ghost use Rattle.osc_links.specs.Serves.{has_failed, is_clock_failed, ticker_stop, TellsLinks};
ghost use Rattle.osc_links.specs.declared.limits.TheConstants.{MAX_LINKS};

use crate::link_work::{LinkEnd, Over};
use crate::served::{LinksTold, TickerEnd};
use osc_atoms::{Fault, Room};
use std::alloc::{AllocError, Global};

/// The result of the links and the ticker together.
pub(crate) fn gather<L: Drop>(
    alloc: Global,
    ends: Vec<LinkEnd<L>>,
    ticker_end: TickerEnd,
) -> Result<LinksTold<L>, AllocError>
    requires few { length ends.items ≤ MAX_LINKS }
    ensures { IfOk result (TellsLinks ends.items ticker_end) }
{
    let mut links = Vec::with_capacity(alloc, ends.len())?;
    let mut faults = Vec::new(alloc);
    let mut failed = None;
    let mut stop = None;
    let mut link = 0;
    for end in ends {
        let LinkEnd {
            from,
            faults: told,
            over,
        } = end;
        failed = failed.or(failed_at(link, over));
        stop = stop.or(link_stop(over));
        append_faults(&mut faults, link, told)?;
        links.push(from)?;
        link += 1;
    }
    Ok(LinksTold {
        links,
        faults,
        failed,
        clock_failed: clock_failed(ticker_end),
        stop: stop.or(round_stop(ticker_end)),
    })
}

/// The link, if it failed.
fn failed_at(link: u32, over: Over) -> Option<u32>
    ensures { result ≡ (if has_failed over then Some link else None) }
{
    match over {
        Over::Failed => Some(link),
        Over::Count | Over::Idle | Over::End | Over::Full(_) => None,
    }
}

fn link_stop(over: Over) -> Option<Room>
    ensures { option_map room_of result ≡ stop_by over }
{
    match over {
        Over::Full(room) => Some(room),
        Over::Count | Over::Idle | Over::End | Over::Failed => None,
    }
}

fn round_stop(end: TickerEnd) -> Option<Room>
    ensures { option_map room_of result ≡ ticker_stop end }
{
    match end {
        TickerEnd::Full(room) => Some(room),
        TickerEnd::Done | TickerEnd::ClockFailed => None,
    }
}

fn clock_failed(end: TickerEnd) -> bool
    ensures { result ≡ is_clock_failed end }
{
    match end {
        TickerEnd::ClockFailed => true,
        TickerEnd::Done | TickerEnd::Full(_) => false,
    }
}

/// Appends the faults of a link.
fn append_faults(
    all: &mut Vec<(u32, u32, Fault)>,
    link: u32,
    faults: Vec<(u32, Fault)>,
) -> Result<(), AllocError>
    ensures { OnOk result
        (all.new.items ≡ all.old.items ++ map (λ one. (link, one.0, one.1)) faults.items) }
{
    for one in faults {
        let (number, fault) = one;
        all.push((link, number, fault))?;
    }
    Ok(())
}
