// The rows in ascending byte order of their addresses, as edits change them.
ghost use Rattle.std.specs.Prelude.{◌≡◌, ◌≤◌, length, not, position, insert, is_ok, if◌then◌else◌};
ghost use Rattle.std.specs.Prelude.{IfOk};
ghost use Rattle.std.specs.List.{remove};
ghost use Rattle.osc_watch.specs.Listing.{is_before, is_row, place_for, place_of, entered, left};
ghost use Rattle.osc_watch.specs.Listing.{edited, edit_of};

use crate::row::{MethodRow, RowEdit};
use osc_atoms::Bytes;
use std::alloc::{AllocError, Global};

/// A copy of a row.
pub(crate) fn copied(alloc: Global, row: &MethodRow) -> Result<MethodRow, AllocError>
    ensures { IfOk result (λ copy. copy ≡ row.now) }
{
    Ok(MethodRow {
        id: row.id,
        address: Bytes::copied(alloc, row.address.as_slice())?,
    })
}

/// The row enters before the first one whose address isn't before its own.
pub(crate) fn enter(
    alloc: Global,
    rows: &mut Vec<MethodRow>,
    row: &MethodRow,
) -> Result<(), AllocError>
    ensures { rows.new.items
        ≡ (if is_ok result then entered rows.old.items row.now else rows.old.items) }
{
    let at = place_for(rows.as_slice(), row.address.as_slice());
    let row = copied(alloc, row)?;
    match rows.insert(at, row) {
        Ok(()) => Ok(()),
        Err(_) => Err(AllocError),
    }
}

/// The row leaves, where it stands.
pub(crate) fn leave(rows: &mut Vec<MethodRow>, row: &MethodRow)
    ensures { rows.new.items ≡ left rows.old.items row.now }
{
    let at = place_of(rows.as_slice(), row);
    if at < rows.len() {
        rows.remove(at);
    }
}

#[tactic(auto, using(crate::proofs::Places::places))]
fn place_for(rows: &[MethodRow], address: &[u8]) -> usize
    ensures place { result ≡ place_for address.now rows.now }
    ensures bound { result ≤ length rows.now }
{
    match first_after(rows, address) {
        Some(at) => at,
        None => rows.len(),
    }
}

fn first_after(rows: &[MethodRow], address: &[u8]) -> Option<usize>
    ensures { result ≡ position (λ row. not (is_before address.now row)) rows.now }
{
    rows.iter().position(|row| !is_before(row, address))
}

#[tactic(auto, using(crate::proofs::Places::places))]
fn place_of(rows: &[MethodRow], row: &MethodRow) -> usize
    ensures place { result ≡ place_of row.now rows.now }
    ensures bound { result ≤ length rows.now }
{
    match first_same(rows, row) {
        Some(at) => at,
        None => rows.len(),
    }
}

fn first_same(rows: &[MethodRow], row: &MethodRow) -> Option<usize>
    ensures { result ≡ position (is_row row.now) rows.now }
{
    rows.iter().position(|other| is_row(other, row))
}

fn is_before(row: &MethodRow, address: &[u8]) -> bool
    ensures { result ≡ is_before address.now row.now }
{
    row.address.as_slice().cmp(address).is_lt()
}

fn is_row(other: &MethodRow, row: &MethodRow) -> bool
    ensures { result ≡ is_row row.now other.now }
{
    other.id == row.id && other.address.as_slice() == row.address.as_slice()
}

/// The rows as the edit leaves them.
pub(crate) fn change(
    alloc: Global,
    rows: &mut Vec<MethodRow>,
    edit: &RowEdit,
) -> Result<(), AllocError>
    ensures { rows.new.items
        ≡ (if is_ok result then edited rows.old.items (edit_of edit.now) else rows.old.items) }
{
    if edit.enters {
        enter(alloc, rows, &edit.row)
    } else {
        leave(rows, &edit.row);
        Ok(())
    }
}

/// A copy of the rows.
pub(crate) fn copied_rows(alloc: Global, rows: &[MethodRow]) -> Result<Vec<MethodRow>, AllocError>
    ensures { IfOk result (λ copies. copies.items ≡ rows.now) }
{
    let mut copies = Vec::with_capacity(alloc, rows.len())?;
    for row in rows {
        match copies.push(copied(alloc, row)?) {
            Ok(()) => {}
            Err(_) => return Err(AllocError),
        }
    }
    Ok(copies)
}
