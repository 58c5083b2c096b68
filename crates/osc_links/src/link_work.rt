//! A link as a work of a server's life.
ghost use Rattle.std.specs.Prelude.{◌≡◌, ◌≤◌, length, map, IfOk};
ghost use Rattle.osc_links.specs.Serves.{link_of, link_at, bound_to};
ghost use Rattle.osc_links.specs.declared.limits.TheConstants.{MAX_LINKS};

use crate::served::{Bounds, LinksPart};
use osc_atoms::{Fault, Room};
use std::alloc::{AllocError, Global};

/// How a link ended.
#[derive(Clone, Copy, Debug, PartialEq, Eq)]
pub enum Over {
    /// It has given as many datagrams as it may.
    Count,
    /// It wasn't ready as often in a row as it may be.
    Idle,
    /// It said that it has ended.
    End,
    /// It failed.
    Failed,
    /// The recording was full at its last datagram.
    Full(Room),
}

/// A link, its number, and when it ends by itself.
#[derive(Drop)]
pub struct LinkWork<L> {
    pub link: u32,
    pub from: L,
    pub bounds: Bounds,
}

/// What is left of a link that has ended.
#[derive(Drop)]
pub struct LinkEnd<L> {
    pub from: L,
    /// The datagram's number and the fault of each that was refused, in order.
    pub faults: Vec<(u32, Fault)>,
    pub over: Over,
}

/// The links, numbered from 0.
pub(crate) fn number_links<L: Drop>(
    alloc: Global,
    links: LinksPart<L>,
) -> Result<Vec<LinkWork<L>>, AllocError>
    requires few { length links.from.items ≤ MAX_LINKS }
    ensures { IfOk result
        (λ works. map link_at works.items ≡ map (bound_to links.bounds) links.from.items) }
{
    let LinksPart { from, bounds } = links;
    let mut works = Vec::with_capacity(alloc, from.len())?;
    let mut link = 0;
    for from in from {
        works.push(LinkWork { link, from, bounds })?;
        link += 1;
    }
    Ok(works)
}

/// The links of works that weren't played.
pub(crate) fn links_back<L: Drop>(
    alloc: Global,
    works: Vec<LinkWork<L>>,
) -> Result<Vec<L>, AllocError>
    ensures { IfOk result (λ links. links.items ≡ map link_of works.items) }
{
    let mut links = Vec::with_capacity(alloc, works.len())?;
    for work in works {
        let LinkWork { from, .. } = work;
        links.push(from)?;
    }
    Ok(links)
}
