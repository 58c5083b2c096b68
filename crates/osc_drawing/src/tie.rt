// The bundles of a picture: those that called more than one row.
ghost use Rattle.std.specs.Prelude.{◌≡◌, ◌++◌, OnOk, IfOk};
ghost use Rattle.osc_drawing.specs.Ties as spec;

use crate::address::place_among;
use crate::mark::{Form, Mark};
use crate::view::View;
use osc_atoms::Bytes;
use osc_picture::Bundle;
use std::alloc::{AllocError, Global};

/// The rows of a unit so far: which it is, when, whether there is none, one or more, and the places
/// of the highest and the lowest.
#[derive(Clone, Copy)]
pub(crate) struct Tie {
    pub(crate) order: u64,
    pub(crate) at: u64,
    pub(crate) count: u64,
    pub(crate) highest: usize,
    pub(crate) lowest: usize,
}

impl Tie {
    ghost use Rattle.std.specs.Prelude.{◌≡◌};
    ghost use Rattle.osc_drawing.specs.Ties as spec;

    fn none() -> Tie
        ensures { result ≡ spec.no_tie }
    {
        Tie {
            order: 0,
            at: 0,
            count: 0,
            highest: 0,
            lowest: 0,
        }
    }

    /// Whether a mark is of the same unit.
    fn is_same(self, mark: &Mark) -> bool
        ensures { result ≡ spec.is_same self mark.now }
    {
        self.count > 0 && self.order == mark.at.order
    }

    /// With a mark at a place, or the next unit with it.
    fn with(self, view: View, mark: &Mark, place: usize) -> Tie
        ensures { result ≡ spec.tie_with view self mark.now place }
    {
        if self.is_same(mark) {
            return Tie {
                count: 2,
                highest: self.highest.min(place),
                lowest: self.lowest.max(place),
                ..self
            };
        }
        Tie {
            order: mark.at.order,
            at: view.at(mark.at),
            count: 1,
            highest: place,
            lowest: place,
        }
    }
}

/// The bundles of marks.
pub(crate) fn bundles_of(
    alloc: Global,
    view: View,
    rows: &[Bytes],
    unheard: &[Bytes],
    marks: &[Mark],
) -> Result<Vec<Bundle>, AllocError>
    ensures { IfOk result (λ bundles. bundles.items
        ≡ spec.bundles_of view rows.now unheard.now marks.now) }
{
    let mut bundles = Vec::new(alloc);
    let mut tie = Tie::none();
    let mut rest = marks;
    while let Some((mark, others)) = rest.split_first() {
        let place = part_place(view, rows, unheard, mark);
        add_before(&mut bundles, tie, mark, place)?;
        tie = tie_after(view, tie, mark, place);
        rest = others;
    }
    add_bundle(&mut bundles, tie)?;
    Ok(bundles)
}

/// The place of a mark that is a part of what a unit does at once.
fn part_place(view: View, rows: &[Bytes], unheard: &[Bytes], mark: &Mark) -> Option<usize>
    ensures { result ≡ spec.part_place view rows.now unheard.now mark.now }
{
    if is_part(mark.form) && view.is_within(view.at(mark.at)) {
        return place_of(rows, unheard, mark.address.as_slice());
    }
    None
}

fn is_part(form: Form) -> bool
    ensures { result ≡ spec.is_part form }
{
    match form {
        Form::Called | Form::Unheard | Form::Crossed => true,
        Form::Waits | Form::Removed | Form::Stands => false,
    }
}

/// The place of an address among the rows, and those of patterns after them.
fn place_of(rows: &[Bytes], unheard: &[Bytes], address: &[u8]) -> Option<usize>
    ensures { result ≡ spec.place_of rows.now unheard.now address.now }
{
    match place_among(rows, address) {
        Some(place) => Some(place),
        None => match place_among(unheard, address) {
            Some(place) => Some(rows.len() + place),
            None => None,
        },
    }
}

fn tie_after(view: View, tie: Tie, mark: &Mark, place: Option<usize>) -> Tie
    ensures { result ≡ spec.tie_after view tie mark.now place }
{
    match place {
        Some(place) => tie.with(view, mark, place),
        None => tie,
    }
}

/// Adds the bundle of a unit, where a mark at a place is of the next one.
fn add_before(
    out: &mut Vec<Bundle>,
    tie: Tie,
    mark: &Mark,
    place: Option<usize>,
) -> Result<(), AllocError>
    ensures { OnOk result (out.new.items
        ≡ out.old.items ++ spec.bundle_before tie mark.now place) }
{
    match place {
        Some(_) if !tie.is_same(mark) => add_bundle(out, tie),
        _ => Ok(()),
    }
}

/// Adds the bundle of a unit that has more than one row.
fn add_bundle(out: &mut Vec<Bundle>, tie: Tie) -> Result<(), AllocError>
    ensures { OnOk result (out.new.items ≡ out.old.items ++ spec.bundle_of tie) }
{
    if tie.count > 1 {
        out.push(Bundle {
            at: tie.at,
            highest: tie.highest,
            lowest: tie.lowest,
        })?;
    }
    Ok(())
}
