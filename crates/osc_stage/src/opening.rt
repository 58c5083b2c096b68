//! What caller 0 plays before the links are served.
ghost use Rattle.std.specs.Prelude.{◌≡◌, map, IfOk};
ghost use Rattle.std.specs.List.{filter};
ghost use Rattle.osc_lanes.specs.Performs.{part_of, IsWhole};
ghost use Rattle.osc_stage.specs.Stages as stages;

use osc_lanes::LanePart;
use osc_pattern::Address;
use osc_relay::{Outlet, Relay};
use osc_script::{Act, Line};
use std::alloc::{AllocError, Global};

/// The adds of the relays, in their order, each at its own address. An `Err` means out of memory,
/// and the relays are gone then.
pub fn adds_of<O: Outlet>(
    alloc: Global,
    relays: Vec<Relay<O>>,
) -> Result<LanePart<Relay<O>>, AllocError>
    ensures adds { IfOk result (λ part. part_of part ≡ stages.adds_of relays.items) }
    ensures whole { IfOk result (λ part. IsWhole (part_of part)) }
    ensures own { IfOk result (λ part. stages.AddsAtOwn (part_of part)) }
{
    let lines = add_lines(alloc, &relays)?;
    Ok(LanePart {
        lines,
        boxes: relays,
    })
}

/// The same adds, and after them what else these lines do: those of a carried script hand in the
/// old clock and the units that waited (`osc_carry`). So the methods are those of the relays, and
/// what waits calls them. An `Err` means out of memory, and the relays are gone then.
pub fn carried_on<O: Outlet>(
    alloc: Global,
    relays: Vec<Relay<O>>,
    mut lines: Vec<Line>,
) -> Result<LanePart<Relay<O>>, AllocError>
    ensures carried { IfOk result
        (λ part. part_of part ≡ stages.carried_on relays.items lines.items) }
    ensures whole { IfOk result (λ part. IsWhole (part_of part)) }
    ensures own { IfOk result (λ part. stages.AddsAtOwn (part_of part)) }
{
    let LanePart {
        lines: mut all,
        boxes,
    } = adds_of(alloc, relays)?;
    keep_others(&mut lines);
    all.append(&mut lines)?;
    Ok(LanePart { lines: all, boxes })
}

/// The lines that add a method go.
fn keep_others(lines: &mut Vec<Line>)
    ensures { lines.new.items ≡ filter (λ line. stages.is_other line) lines.old.items }
{
    lines.retain(|line| is_other(line));
}

/// Whether a line adds no method.
fn is_other(line: &Line) -> bool
    ensures { result ≡ stages.is_other line.now }
{
    !matches!(line.act, Act::Add(_))
}

fn add_lines<O: Outlet>(alloc: Global, relays: &[Relay<O>]) -> Result<Vec<Line>, AllocError>
    ensures { IfOk result (λ lines. lines.items ≡ map stages.add_line relays.now) }
{
    let mut lines = Vec::with_capacity(alloc, relays.len())?;
    for relay in relays {
        lines.push(line_for(alloc, relay.address())?)?;
    }
    Ok(lines)
}

/// The line that adds a method at the address.
fn line_for(alloc: Global, address: &Address) -> Result<Line, AllocError>
    ensures { IfOk result (λ line. line ≡ stages.line_for address.now) }
{
    Ok(Line {
        number: 0,
        lane: 0,
        act: Act::Add(address.copied(alloc)?),
    })
}
