//! The lines of bundles.
ghost use Rattle.std.specs.Prelude.{◌≡◌, ◌++◌, OnOk};
ghost use Rattle.osc_picture.specs.Bundles as spec;

use crate::element::{add_path, add_point, add_step};
use crate::frame::Frame;
use crate::shelf::Shelf;
use std::alloc::{AllocError, Global};

/// A bundle that called more than one row: when, and the places of the highest and the lowest of
/// them among all that are drawn.
#[derive(Clone, Copy)]
pub struct Bundle {
    pub at: u64,
    pub highest: usize,
    pub lowest: usize,
}

/// The line of the bundles of one column.
#[derive(Clone, Copy)]
pub(crate) struct Tie {
    pub(crate) column: u64,
    pub(crate) x: u64,
    pub(crate) over: u64,
    pub(crate) under: u64,
}

/// Adds a line from the highest to the lowest row of each bundle.
#[tactic(auto, unfolding(crate::specs::Bundles::bundles_text))]
pub(crate) fn add_bundles(
    out: &mut Vec<u8>,
    frame: Frame,
    shelves: &[Shelf],
    bundles: &[Bundle],
) -> Result<(), AllocError>
    ensures { OnOk result (out.new.items
        ≡ out.old.items ++ spec.bundles_text frame shelves.now bundles.now) }
{
    let alloc: Global = *out.allocator();
    let mut steps = Vec::new(alloc);
    add_ties(&mut steps, frame, shelves, bundles)?;
    add_path(out, b"class=\"j\" ", &steps)
}

fn add_ties(
    out: &mut Vec<u8>,
    frame: Frame,
    shelves: &[Shelf],
    bundles: &[Bundle],
) -> Result<(), AllocError>
    ensures { OnOk result (out.new.items
        ≡ out.old.items ++ spec.ties frame shelves.now bundles.now) }
{
    match bundles.split_first() {
        Some((first, others)) => {
            add_ties_after(out, frame, shelves, tie_of(frame, shelves, *first), others)
        }
        None => Ok(()),
    }
}

/// Adds a line and those of the bundles after it, which are the same where they share a column.
fn add_ties_after(
    out: &mut Vec<u8>,
    frame: Frame,
    shelves: &[Shelf],
    first: Tie,
    bundles: &[Bundle],
) -> Result<(), AllocError>
    ensures { OnOk result (out.new.items
        ≡ out.old.items ++ spec.ties_after frame shelves.now first bundles.now) }
{
    let mut tie = first;
    let mut rest = bundles;
    while let Some((bundle, others)) = rest.split_first() {
        let next = tie_of(frame, shelves, *bundle);
        add_before(out, tie, next)?;
        tie = joined(tie, next);
        rest = others;
    }
    add_tie(out, tie)
}

/// The line of one bundle.
fn tie_of(frame: Frame, shelves: &[Shelf], bundle: Bundle) -> Tie
    ensures { result ≡ spec.tie_of frame shelves.now bundle }
{
    Tie {
        column: frame.column(bundle.at),
        x: frame.x(bundle.at),
        over: shelf_at(shelves, bundle.highest).over(),
        under: shelf_at(shelves, bundle.lowest).under(),
    }
}

fn shelf_at(shelves: &[Shelf], place: usize) -> Shelf
    ensures { result ≡ spec.shelf_at shelves.now place }
{
    match shelves.get(place) {
        Some(shelf) => *shelf,
        None => Shelf::none(),
    }
}

/// Adds a line, unless the next one shares its column.
fn add_before(out: &mut Vec<u8>, tie: Tie, next: Tie) -> Result<(), AllocError>
    ensures { OnOk result (out.new.items ≡ out.old.items ++ spec.before_next tie next) }
{
    if tie.column == next.column {
        return Ok(());
    }
    add_tie(out, tie)
}

/// One line for both, if they share a column, else the next one.
fn joined(tie: Tie, next: Tie) -> Tie
    ensures { result ≡ spec.joined tie next }
{
    if tie.column != next.column {
        return next;
    }
    Tie {
        column: tie.column,
        x: tie.x,
        over: tie.over.min(next.over),
        under: tie.under.max(next.under),
    }
}

fn add_tie(out: &mut Vec<u8>, tie: Tie) -> Result<(), AllocError>
    ensures { OnOk result (out.new.items ≡ out.old.items ++ spec.tie_steps tie) }
{
    add_point(out, b'M', tie.x, tie.over)?;
    add_step(out, b'V', tie.under)
}
