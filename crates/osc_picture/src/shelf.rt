// Where the rows stand.
ghost use Rattle.std.specs.Prelude.{◌≡◌, ◌≤◌, ◌++◌, [], OnOk, IfOk, length, position};
ghost use Rattle.osc_picture.specs.Shelves as spec;

use crate::row::{Row, Sort};
use std::alloc::{AllocError, Global};

/// Where a row stands: its top, and its height with the room below it.
#[derive(Clone, Copy)]
pub(crate) struct Shelf {
    pub(crate) top: u32,
    pub(crate) height: u32,
    /// The name that it shares with the next stands above it.
    pub(crate) headed: bool,
    /// It shares its first name with a row next to it.
    pub(crate) shared: bool,
}

impl Shelf {
    ghost use Rattle.std.specs.Prelude.{◌≡◌};
    ghost use Rattle.osc_picture.specs.Shelves as spec;

    pub(crate) fn none() -> Shelf
        ensures { result ≡ spec.no_shelf }
    {
        Shelf {
            top: 0,
            height: 0,
            headed: false,
            shared: false,
        }
    }

    /// Where the line of a bundle begins in it.
    pub(crate) fn over(self) -> u64
        ensures { result ≡ spec.over_of self }
    {
        u64::from(self.top) + 40
    }

    /// Where it ends.
    pub(crate) fn under(self) -> u64
        ensures { result ≡ spec.under_of self }
    {
        (u64::from(self.top) + u64::from(self.height)).saturating_sub(80)
    }
}

/// How high a row is, with the room below it.
pub(crate) fn height_of(sort: Sort) -> u32
    ensures { result ≡ spec.height_of sort }
{
    match sort {
        Sort::Curve => 380,
        Sort::Texts => 270,
        Sort::Marks => 210,
    }
}

/// So much lower. A place stays at the greatest number of 32 bits.
pub(crate) fn lower(y: u32, by: u32) -> u32
    ensures { result ≡ spec.lower y by }
{
    y.saturating_add(by)
}

/// The first name of an address, with its slash.
pub(crate) fn first_name(address: &[u8]) -> &[u8]
    ensures { result.now ≡ spec.first_name address.now }
{
    &address[..name_end(address)]
}

#[tactic(auto, using(crate::proofs::Places::places))]
fn name_end(address: &[u8]) -> usize
    ensures end { result ≡ spec.name_end address.now }
    ensures within { result ≤ length address.now }
{
    let Some((_, rest)) = address.split_first() else {
        return 0;
    };
    match slash_in(rest) {
        Some(place) => 1 + place,
        None => address.len(),
    }
}

fn slash_in(bytes: &[u8]) -> Option<usize>
    ensures { result ≡ position spec.is_slash bytes.now }
{
    bytes.iter().position(|byte| *byte == b'/')
}

/// Whether a name is that of the first of the rows.
fn leads(name: &[u8], rows: &[Row]) -> bool
    ensures { result ≡ spec.leads name.now rows.now }
{
    match rows.first() {
        Some(row) => first_name(row.address.as_slice()) == name,
        None => false,
    }
}

/// Where a row stands, below one that has its first name or before one that has.
fn shelf_of(sort: Sort, y: u32, before: bool, after: bool) -> Shelf
    ensures { result ≡ spec.shelf_of sort y before after }
{
    let headed = !before && after;
    Shelf {
        top: if headed { lower(y, 230) } else { y },
        height: height_of(sort),
        headed,
        shared: before || after,
    }
}

/// Where the next row stands, with room between it and one that has another first name.
fn below(shelf: Shelf, after: bool) -> u32
    ensures { result ≡ spec.below shelf after }
{
    let end = lower(shelf.top, shelf.height);
    if after { end } else { lower(end, 90) }
}

/// The rows that stand one below another, and where the next would.
#[derive(Drop)]
pub(crate) struct Shelves {
    pub(crate) items: Vec<Shelf>,
    pub(crate) end: u32,
}

/// Lays out the rows from a top on.
pub(crate) fn lay_out(alloc: Global, rows: &[Row], top: u32) -> Result<Shelves, AllocError>
    ensures shelves { IfOk result (λ shelves. shelves.items.items ≡ spec.laid_out top [] rows.now) }
    ensures end { IfOk result (λ shelves. shelves.end ≡ spec.end_of top [] rows.now) }
{
    let mut shelves = Vec::new(alloc);
    let mut y = top;
    let mut before: &[u8] = b"";
    let mut rest = rows;
    while let Some((row, others)) = rest.split_first() {
        let name = first_name(row.address.as_slice());
        let after = leads(name, others);
        let shelf = shelf_of(row.sort, y, name == before, after);
        shelves.push(shelf)?;
        y = below(shelf, after);
        before = name;
        rest = others;
    }
    Ok(Shelves {
        items: shelves,
        end: y,
    })
}

/// Lays out patterns that called nothing below the rows, with words between that say what they are.
pub(crate) fn lay_out_unheard(alloc: Global, rows: &[Row], end: u32) -> Result<Shelves, AllocError>
    ensures shelves { IfOk result (λ shelves. shelves.items.items
        ≡ spec.unheard_out (spec.lower end 230) rows.now) }
    ensures end { IfOk result (λ shelves. shelves.end ≡ spec.bottom_of end rows.now) }
{
    let mut shelves = Vec::new(alloc);
    if rows.is_empty() {
        return Ok(Shelves {
            items: shelves,
            end,
        });
    }
    let mut y = lower(end, 230);
    let mut rest = rows;
    while let Some((_, others)) = rest.split_first() {
        shelves.push(shelf_of(Sort::Marks, y, false, false))?;
        y = lower(y, 210);
        rest = others;
    }
    Ok(Shelves {
        items: shelves,
        end: lower(y, 90),
    })
}
