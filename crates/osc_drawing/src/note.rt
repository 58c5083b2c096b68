// Notes above a picture.
ghost use Rattle.std.specs.Prelude.{◌≡◌, ◌-◌, ◌++◌, length, take, OnOk, IfOk};
ghost use Rattle.std.specs.List.{flat_map};
ghost use Rattle.osc_shown.specs.Numbers.{thousands};
ghost use Rattle.osc_drawing.specs.Headings as spec;

use crate::address::{MOST_ROWS, all_never, all_rows, all_unheard};
use crate::mark::Mark;
use osc_atoms::Bytes;
use osc_shown::number_words;
use std::alloc::{AllocError, Global};

/// Where the recording is cut off, how many addresses have no row, and the methods that weren't
/// called.
pub(crate) fn notes_of(
    alloc: Global,
    marks: &[Mark],
    cut: Option<u32>,
) -> Result<Vec<Bytes>, AllocError>
    ensures { IfOk result (λ notes. notes.items ≡ spec.notes_of marks.now cut) }
{
    let rows = all_rows(alloc, marks)?;
    let unheard = all_unheard(alloc, &rows, marks)?;
    let never = all_never(alloc, &rows, marks)?;
    let mut notes = Vec::new(alloc);
    add_cut(&mut notes, cut)?;
    add_left_out(&mut notes, left_out(&rows, &unheard))?;
    add_never(&mut notes, &never)?;
    Ok(notes)
}

/// How many addresses have no row.
fn left_out(rows: &[Bytes], unheard: &[Bytes]) -> u64
    ensures { result ≡ spec.left_out rows.now unheard.now }
{
    (over(rows) as u64).saturating_add(over(unheard) as u64)
}

/// How many of them have no row.
fn over(addresses: &[Bytes]) -> usize
    ensures { result ≡ length addresses.now - 200 }
{
    addresses.len().saturating_sub(MOST_ROWS)
}

fn add_cut(out: &mut Vec<Bytes>, cut: Option<u32>) -> Result<(), AllocError>
    ensures { OnOk result (out.new.items ≡ out.old.items ++ spec.cut_note cut) }
{
    match cut {
        Some(at) => {
            let words = cut_words(*out.allocator(), at)?;
            out.push(words)?;
            Ok(())
        }
        None => Ok(()),
    }
}

fn cut_words(alloc: Global, at: u32) -> Result<Bytes, AllocError>
    ensures { IfOk result (λ words. words ≡ spec.cut_words at) }
{
    let mut words = Vec::new(alloc);
    words.extend_from_slice(b"the recording is cut off at byte ")?;
    add_number(&mut words, u64::from(at))?;
    Ok(Bytes::of(words))
}

fn add_number(out: &mut Vec<u8>, number: u64) -> Result<(), AllocError>
    ensures { OnOk result (out.new.items ≡ out.old.items ++ thousands number) }
{
    let words = number_words(*out.allocator(), number)?;
    out.extend_from_slice(&words)
}

fn add_left_out(out: &mut Vec<Bytes>, count: u64) -> Result<(), AllocError>
    ensures { OnOk result (out.new.items ≡ out.old.items ++ spec.left_out_note count) }
{
    if count == 0 {
        return Ok(());
    }
    let words = left_out_words(*out.allocator(), count)?;
    out.push(words)?;
    Ok(())
}

fn left_out_words(alloc: Global, count: u64) -> Result<Bytes, AllocError>
    ensures { IfOk result (λ words. words ≡ spec.left_out_words count) }
{
    let mut words = Vec::new(alloc);
    add_number(&mut words, count)?;
    words.extend_from_slice(b" addresses more aren't drawn")?;
    Ok(Bytes::of(words))
}

fn add_never(out: &mut Vec<Bytes>, never: &[Bytes]) -> Result<(), AllocError>
    ensures { OnOk result (out.new.items ≡ out.old.items ++ spec.never_note never.now) }
{
    if never.is_empty() {
        return Ok(());
    }
    let mut words = Vec::from_slice(*out.allocator(), b"never called: ")?;
    add_listed(&mut words, most_listed(never))?;
    add_others(&mut words, never.len())?;
    out.push(Bytes::of(words))?;
    Ok(())
}

/// The first four of them.
#[tactic(auto, using(std::proofs::lemmas::List::take_min))]
fn most_listed(never: &[Bytes]) -> &[Bytes]
    ensures { result.now ≡ take 4 never.now }
{
    &never[..4.min(never.len())]
}

/// Adds addresses with a comma between them.
fn add_listed(out: &mut Vec<u8>, addresses: &[Bytes]) -> Result<(), AllocError>
    ensures { OnOk result (out.new.items ≡ out.old.items ++ spec.listed addresses.now) }
{
    let Some((first, others)) = addresses.split_first() else {
        return Ok(());
    };
    out.extend_from_slice(first.as_slice())?;
    add_after_commas(out, others)
}

fn add_after_commas(out: &mut Vec<u8>, addresses: &[Bytes]) -> Result<(), AllocError>
    ensures { OnOk result
        (out.new.items ≡ out.old.items ++ flat_map spec.after_comma addresses.now) }
{
    let mut rest = addresses;
    while let Some((address, others)) = rest.split_first() {
        add_after_comma(out, address)?;
        rest = others;
    }
    Ok(())
}

fn add_after_comma(out: &mut Vec<u8>, address: &Bytes) -> Result<(), AllocError>
    ensures { OnOk result (out.new.items ≡ out.old.items ++ spec.after_comma address.now) }
{
    out.extend_from_slice(b", ")?;
    out.extend_from_slice(address.as_slice())
}

/// Adds how many there are after the first four.
fn add_others(out: &mut Vec<u8>, count: usize) -> Result<(), AllocError>
    ensures { OnOk result (out.new.items ≡ out.old.items ++ spec.others_words count) }
{
    if count <= 4 {
        return Ok(());
    }
    out.extend_from_slice(b" and ")?;
    add_number(out, count as u64 - 4)?;
    out.extend_from_slice(b" more")
}
