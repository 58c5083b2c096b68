// The row of an address, by its marks.
ghost use Rattle.std.specs.Prelude.{◌≡◌, ◌≤◌, length, map, position, OnOk, IfOk, None};
ghost use Rattle.std.specs.List.{position_or_len};
ghost use Rattle.std.specs.Str.{bytes_eq};
ghost use Rattle.osc_drawing.specs.Numbers as numbers;
ghost use Rattle.osc_drawing.specs.Rows as spec;
ghost use Rattle.osc_drawing.specs.Rows.{drawn_of};

use crate::mark::{Form, Mark, Stamp};
use crate::number::{ONE, ZERO};
use crate::view::View;
use crate::words::number_words;
use osc_atoms::Bytes;
use osc_picture::{Bound, Call, Row, Said, Sort, Stay};
use std::alloc::{AllocError, Global};

/// The rows of addresses.
pub(crate) fn rows_of(
    alloc: Global,
    view: View,
    marks: &[Mark],
    addresses: &[Bytes],
) -> Result<Vec<Row>, AllocError>
    ensures { IfOk result
        (λ rows. map drawn_of rows.items ≡ spec.rows_of view marks.now addresses.now) }
{
    let mut rows = Vec::new(alloc);
    let mut rest = addresses;
    while let Some((address, others)) = rest.split_first() {
        rows.push(row_of(alloc, view, marks, address.as_slice())?)?;
        rest = others;
    }
    Ok(rows)
}

/// The row of an address.
fn row_of(alloc: Global, view: View, marks: &[Mark], address: &[u8]) -> Result<Row, AllocError>
    ensures { IfOk result (λ row. drawn_of row ≡ spec.row_of view marks.now address.now) }
{
    let mut row = blank(alloc, sort_of(marks, address), address)?;
    add_marks(&mut row, view, marks)?;
    set_range(alloc, row)
}

/// Nothing is drawn yet.
fn blank(alloc: Global, sort: Sort, address: &[u8]) -> Result<Row, AllocError>
    ensures { IfOk result (λ row. drawn_of row ≡ spec.blank sort address.now) }
{
    Ok(Row {
        address: Bytes::copied(alloc, address)?,
        sort,
        lives: Vec::new(alloc),
        calls: Vec::new(alloc),
        numbers: Vec::new(alloc),
        low: bound_of(alloc, ZERO)?,
        high: bound_of(alloc, ONE)?,
        texts: Vec::new(alloc),
        waits: Vec::new(alloc),
        crosses: Vec::new(alloc),
        unheard: Vec::new(alloc),
    })
}

fn bound_of(alloc: Global, number: u64) -> Result<Bound, AllocError>
    ensures { IfOk result (λ bound. bound ≡ spec.bound_of number) }
{
    Ok(Bound::new(number, number_words(alloc, number)?))
}

fn add_marks(row: &mut Row, view: View, marks: &[Mark]) -> Result<(), AllocError>
    ensures { OnOk result
        (drawn_of row.new ≡ spec.with_marks view marks.now (drawn_of row.old)) }
{
    let mut rest = marks;
    while let Some((mark, others)) = rest.split_first() {
        add_own(row, view, mark)?;
        rest = others;
    }
    Ok(())
}

/// Adds a mark, if it is of the address.
fn add_own(row: &mut Row, view: View, mark: &Mark) -> Result<(), AllocError>
    ensures { OnOk result
        (drawn_of row.new ≡ spec.with_own view mark.now (drawn_of row.old)) }
{
    if mark.address.as_slice() == row.address.as_slice() {
        return add_mark(row, view, mark);
    }
    Ok(())
}

fn add_mark(row: &mut Row, view: View, mark: &Mark) -> Result<(), AllocError>
    ensures { OnOk result
        (drawn_of row.new ≡ spec.with_form view mark.now mark.now.form (drawn_of row.old)) }
{
    let at = view.at(mark.at);
    match mark.form {
        Form::Called => {
            add_place(&mut row.calls, view, at)?;
            add_carried(row, view, at, mark)?;
            add_waited(&mut row.waits, view, mark.came, Some(at))
        }
        Form::Unheard => {
            add_place(&mut row.unheard, view, at)?;
            add_waited(&mut row.waits, view, mark.came, Some(at))
        }
        Form::Crossed => add_place(&mut row.crosses, view, at),
        Form::Waits => add_waited(&mut row.waits, view, mark.came, view.until(mark.at)),
        Form::Removed => add_stay(&mut row.lives, view, life_of(view, mark, Some(at))),
        Form::Stands => add_stay(
            &mut row.lives,
            view,
            life_of(view, mark, view.until(mark.at)),
        ),
    }
}

/// From when to when a method was there.
fn life_of(view: View, mark: &Mark, to: Option<u64>) -> Stay
    ensures { result ≡ spec.life_of view mark.now to }
{
    Stay {
        from: view.at(mark.came.unwrap_or(mark.at)),
        to,
    }
}

fn add_place(places: &mut Vec<u64>, view: View, at: u64) -> Result<(), AllocError>
    ensures { OnOk result (places.new.items ≡ spec.with_place view places.old.items at) }
{
    if view.is_within(at) {
        places.push(at)?;
    }
    Ok(())
}

fn add_stay(stays: &mut Vec<Stay>, view: View, stay: Stay) -> Result<(), AllocError>
    ensures { OnOk result (stays.new.items ≡ spec.with_stay view stays.old.items stay) }
{
    if view.meets(stay) {
        stays.push(stay)?;
    }
    Ok(())
}

/// Adds from when to when a message waited, where it did.
fn add_waited(
    waits: &mut Vec<Stay>,
    view: View,
    came: Option<Stamp>,
    to: Option<u64>,
) -> Result<(), AllocError>
    ensures { OnOk result (waits.new.items ≡ spec.with_waited view came to waits.old.items) }
{
    match came {
        Some(came) => {
            let from = view.at(came);
            add_wait(waits, view, Stay { from, to })
        }
        None => Ok(()),
    }
}

/// Adds a wait before the first of those that came later.
fn add_wait(waits: &mut Vec<Stay>, view: View, stay: Stay) -> Result<(), AllocError>
    ensures { OnOk result (waits.new.items ≡ spec.with_wait view waits.old.items stay) }
{
    if view.meets(stay) {
        let place = place_for(waits, stay);
        waits.insert(place, stay)?;
    }
    Ok(())
}

fn is_later(stay: Stay, other: &Stay) -> bool
    ensures { result ≡ spec.is_later stay other.now }
{
    stay.from < other.from
}

fn first_later(waits: &[Stay], stay: Stay) -> Option<usize>
    ensures { result ≡ position (spec.is_later stay) waits.now }
{
    waits.iter().position(|other| is_later(stay, other))
}

#[tactic(auto, using(crate::proofs::Places::places))]
fn place_for(waits: &[Stay], stay: Stay) -> usize
    ensures place { result ≡ position_or_len (spec.is_later stay) waits.now }
    ensures bound { result ≤ length waits.now }
{
    match first_later(waits, stay) {
        Some(place) => place,
        None => waits.len(),
    }
}

/// Adds what a call carried, as all calls of the row are drawn.
fn add_carried(row: &mut Row, view: View, at: u64, mark: &Mark) -> Result<(), AllocError>
    ensures { OnOk result (drawn_of row.new
        ≡ spec.with_carried view at mark.now row.old.sort (drawn_of row.old)) }
{
    match row.sort {
        Sort::Marks => Ok(()),
        Sort::Curve => add_number(&mut row.numbers, view, at, mark.carried.number),
        Sort::Texts => add_said(&mut row.texts, view, at, mark.carried.words.as_slice()),
    }
}

fn add_number(numbers: &mut Vec<Call>, view: View, at: u64, number: u64) -> Result<(), AllocError>
    ensures { OnOk result (numbers.new.items ≡ spec.with_number view numbers.old.items at number) }
{
    if at < view.frame.first {
        numbers.clear();
        let at = view.frame.first;
        numbers.push(Call { at, number })?;
        return Ok(());
    }
    if at <= view.frame.last {
        numbers.push(Call { at, number })?;
    }
    Ok(())
}

fn add_said(texts: &mut Vec<Said>, view: View, at: u64, words: &[u8]) -> Result<(), AllocError>
    ensures { OnOk result (texts.new.items ≡ spec.with_text view texts.old.items at words.now) }
{
    if view.is_within(at) {
        let words = Bytes::copied(*texts.allocator(), words)?;
        texts.push(Said::new(at, words))?;
    }
    Ok(())
}

/// The row with the ends of the range of its numbers.
fn set_range(alloc: Global, row: Row) -> Result<Row, AllocError>
    ensures { IfOk result (λ ranged. drawn_of ranged ≡ spec.with_range (drawn_of row)) }
{
    let low = bound_of(alloc, least(&row.numbers))?;
    let high = bound_of(alloc, most(&row.numbers))?;
    Ok(Row { low, high, ..row })
}

fn least(calls: &[Call]) -> u64
    ensures { result ≡ spec.least numbers.zero_at calls.now }
{
    let mut low = ZERO;
    let mut rest = calls;
    while let Some((call, others)) = rest.split_first() {
        low = low.min(call.number);
        rest = others;
    }
    low
}

fn most(calls: &[Call]) -> u64
    ensures { result ≡ spec.most numbers.one_at calls.now }
{
    let mut high = ONE;
    let mut rest = calls;
    while let Some((call, others)) = rest.split_first() {
        high = high.max(call.number);
        rest = others;
    }
    high
}

/// How the calls of an address are drawn.
fn sort_of(marks: &[Mark], address: &[u8]) -> Sort
    ensures { result ≡ spec.sort_after None address.now marks.now }
{
    let mut sort: Option<Sort> = None;
    let mut rest = marks;
    while let Some((mark, others)) = rest.split_first() {
        sort = sort_with(sort, mark, address);
        rest = others;
    }
    sort.unwrap_or(Sort::Marks)
}

/// With one more mark, if it is a call of the address.
fn sort_with(sort: Option<Sort>, mark: &Mark, address: &[u8]) -> Option<Sort>
    ensures { result ≡ spec.sort_with sort mark.now address.now }
{
    if is_call(mark.form) && mark.address.as_slice() == address {
        return Some(joined(sort, mark.carried.sort));
    }
    sort
}

fn is_call(form: Form) -> bool
    ensures { result ≡ spec.is_call form }
{
    match form {
        Form::Called => true,
        _ => false,
    }
}

fn joined(sort: Option<Sort>, other: Sort) -> Sort
    ensures { result ≡ spec.joined sort other }
{
    match (sort, other) {
        (None, sort) => sort,
        (Some(Sort::Curve), Sort::Curve) => Sort::Curve,
        (Some(Sort::Texts), Sort::Texts) => Sort::Texts,
        _ => Sort::Marks,
    }
}
