// The addresses that have rows, in the order of their bytes.
ghost use Rattle.std.specs.Prelude.{◌≡◌, ◌≤◌, [], length, position, OnOk, IfOk};
ghost use Rattle.std.specs.List.{position_or_len};
ghost use Rattle.std.specs.Str.{bytes_eq};
ghost use Rattle.osc_drawing.specs.Headings.{more_never, is_neither};
ghost use Rattle.osc_drawing.specs.Rows as spec;

use crate::mark::{Mark, Owner};
use osc_atoms::Bytes;
use std::alloc::{AllocError, Global};

/// How many rows of each kind are drawn.
pub(crate) const MOST_ROWS: usize = 200;

fn is_same(address: &Bytes, other: &[u8]) -> bool
    ensures { result ≡ bytes_eq address.now other.now }
{
    address.as_slice() == other
}

/// Whether an address is one of some.
pub(crate) fn is_among(addresses: &[Bytes], address: &[u8]) -> bool
    ensures { result ≡ spec.is_among addresses.now address.now }
{
    addresses.iter().any(|other| is_same(other, address))
}

/// The place of an address among some.
pub(crate) fn place_among(addresses: &[Bytes], address: &[u8]) -> Option<usize>
    ensures { result ≡ position (λ other. bytes_eq other address.now) addresses.now }
{
    addresses.iter().position(|other| is_same(other, address))
}

fn is_before(address: &[u8], other: &Bytes) -> bool
    ensures { result ≡ spec.is_before address.now other.now }
{
    address.cmp(other.as_slice()).is_lt()
}

fn first_after(addresses: &[Bytes], address: &[u8]) -> Option<usize>
    ensures { result ≡ position (spec.is_before address.now) addresses.now }
{
    addresses.iter().position(|other| is_before(address, other))
}

/// The place before the first that is after an address.
#[tactic(auto, using(crate::proofs::Places::places))]
fn place_for(addresses: &[Bytes], address: &[u8]) -> usize
    ensures place { result ≡ position_or_len (spec.is_before address.now) addresses.now }
    ensures bound { result ≤ length addresses.now }
{
    match first_after(addresses, address) {
        Some(place) => place,
        None => addresses.len(),
    }
}

/// An address enters, unless it is there.
fn enter(addresses: &mut Vec<Bytes>, address: &[u8]) -> Result<(), AllocError>
    ensures { OnOk result
        (addresses.new.items ≡ spec.entered address.now addresses.old.items) }
{
    if is_among(addresses, address) {
        return Ok(());
    }
    let place = place_for(addresses, address);
    let entry = Bytes::copied(*addresses.allocator(), address)?;
    addresses.insert(place, entry)?;
    Ok(())
}

/// The addresses of methods that have a row.
pub(crate) fn all_rows(alloc: Global, marks: &[Mark]) -> Result<Vec<Bytes>, AllocError>
    ensures { IfOk result (λ rows. rows.items ≡ spec.all_rows marks.now) }
{
    let mut rows = Vec::new(alloc);
    let mut rest = marks;
    while let Some((mark, others)) = rest.split_first() {
        if is_method(mark.owner) {
            enter(&mut rows, mark.address.as_slice())?;
        }
        rest = others;
    }
    Ok(rows)
}

/// The patterns that have one, since they are none of these addresses.
pub(crate) fn all_unheard(
    alloc: Global,
    rows: &[Bytes],
    marks: &[Mark],
) -> Result<Vec<Bytes>, AllocError>
    ensures { IfOk result (λ unheard. unheard.items ≡ spec.more_unheard rows.now [] marks.now) }
{
    let mut unheard = Vec::new(alloc);
    let mut rest = marks;
    while let Some((mark, others)) = rest.split_first() {
        if is_pattern(mark.owner) && !is_among(rows, mark.address.as_slice()) {
            enter(&mut unheard, mark.address.as_slice())?;
        }
        rest = others;
    }
    Ok(unheard)
}

/// The methods that are there and have no row.
pub(crate) fn all_never(
    alloc: Global,
    rows: &[Bytes],
    marks: &[Mark],
) -> Result<Vec<Bytes>, AllocError>
    ensures { IfOk result (λ never. never.items ≡ more_never rows.now [] marks.now) }
{
    let mut never = Vec::new(alloc);
    let mut rest = marks;
    while let Some((mark, others)) = rest.split_first() {
        if is_neither(mark.owner) && !is_among(rows, mark.address.as_slice()) {
            enter(&mut never, mark.address.as_slice())?;
        }
        rest = others;
    }
    Ok(never)
}

fn is_neither(owner: Owner) -> bool
    ensures { result ≡ is_neither owner }
{
    match owner {
        Owner::Neither => true,
        Owner::Method | Owner::Pattern => false,
    }
}

/// The first of them, as many as are drawn.
#[tactic(auto, using(std::proofs::lemmas::List::take_min))]
pub(crate) fn most_rows(addresses: &[Bytes]) -> &[Bytes]
    ensures { result.now ≡ spec.most_rows addresses.now }
{
    &addresses[..MOST_ROWS.min(addresses.len())]
}

fn is_method(owner: Owner) -> bool
    ensures { result ≡ spec.is_method owner }
{
    match owner {
        Owner::Method => true,
        Owner::Pattern | Owner::Neither => false,
    }
}

fn is_pattern(owner: Owner) -> bool
    ensures { result ≡ spec.is_pattern owner }
{
    match owner {
        Owner::Pattern => true,
        Owner::Method | Owner::Neither => false,
    }
}
