// How much a recording told, as lines.
ghost use Rattle.std.specs.Prelude.{◌≡◌, ◌+◌, ◌≤◌, length, drop, position, IfOk};
ghost use Rattle.std.specs.List.{position_or_len};
ghost use Rattle.osc_drawing.specs.Headings as spec;

use crate::heading::first_of;
use crate::sketch::Sketch;
use crate::title::{inner, plain_look};
use osc_atoms::Bytes;
use osc_shown::{Sums, WallClock, totals_line};
use osc_story::Waiting;
use std::alloc::{AllocError, Global};

/// How much was told, as one line or two.
pub(crate) fn sums_of(
    alloc: Global,
    clock: WallClock,
    sketch: &Sketch,
) -> Result<Vec<Bytes>, AllocError>
    ensures { IfOk result (λ sums. sums.items ≡ spec.sums_of sketch.now) }
{
    let words = sums_words(alloc, clock, sums_in(sketch))?;
    halves(alloc, told_words(sketch.is_in_order(), &words))
}

fn sums_in(sketch: &Sketch) -> Sums
    ensures { result ≡ spec.sums_in sketch.now }
{
    let totals = sketch.totals();
    Sums {
        first: first_of(sketch),
        last: sketch.story().clock(),
        messages: totals.messages,
        calls: totals.calls,
        unheard: totals.unheard,
        discarded: totals.discarded,
        refused: totals.refused,
        waiting: count_waiting(sketch.story().waiting()),
    }
}

/// How many messages wait.
fn count_waiting(units: &[Waiting]) -> u64
    ensures { result ≡ spec.more_waiting 0 units.now }
{
    let mut count: u64 = 0;
    let mut rest = units;
    while let Some((unit, others)) = rest.split_first() {
        count = count.saturating_add(unit.messages().len() as u64);
        rest = others;
    }
    count
}

fn sums_words(alloc: Global, clock: WallClock, sums: Sums) -> Result<Vec<u8>, AllocError>
    ensures { IfOk result (λ words. words.items ≡ spec.sums_words sums) }
{
    let mut line = Vec::new(alloc);
    totals_line(&mut line, plain_look(clock), sums)?;
    Vec::from_slice(alloc, inner(&line))
}

fn is_byte(wanted: u8, byte: u8) -> bool
    ensures { result ≡ spec.is_byte wanted byte }
{
    byte == wanted
}

fn first_place(words: &[u8], wanted: u8) -> Option<usize>
    ensures { result ≡ position (spec.is_byte wanted) words.now }
{
    words.iter().position(|byte| is_byte(wanted, *byte))
}

/// The place of a byte, or after all.
#[tactic(auto, using(crate::proofs::Places::places))]
fn place_of(words: &[u8], wanted: u8) -> usize
    ensures place { result ≡ position_or_len (spec.is_byte wanted) words.now }
    ensures bound { result ≤ length words.now }
{
    match first_place(words, wanted) {
        Some(place) => place,
        None => words.len(),
    }
}

/// The words, without how long it lasted where calls stand in their order.
fn told_words(in_order: bool, words: &[u8]) -> &[u8]
    ensures { result.now ≡ spec.told_words in_order words.now }
{
    if in_order {
        return after(words, place_of(words, b':'));
    }
    words
}

/// Words as lines: those before and after a semicolon, if there is one.
fn halves(alloc: Global, words: &[u8]) -> Result<Vec<Bytes>, AllocError>
    ensures { IfOk result (λ lines. lines.items ≡ spec.halves words.now) }
{
    let place = place_of(words, b';');
    let mut lines = Vec::new(alloc);
    if place < words.len() {
        lines.push(Bytes::copied(alloc, &words[..place])?)?;
        lines.push(Bytes::copied(alloc, after(words, place))?)?;
    } else {
        lines.push(Bytes::copied(alloc, words)?)?;
    }
    Ok(lines)
}

/// The words after a byte at a place and a space.
fn after(words: &[u8], place: usize) -> &[u8]
    requires { place ≤ length words.now }
    ensures { result.now ≡ drop (place + 2) words.now }
{
    match words.get(place + 2..) {
        Some(rest) => rest,
        None => b"",
    }
}
