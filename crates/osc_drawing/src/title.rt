//! The title of a picture.
ghost use Rattle.std.specs.Prelude.{◌≡◌, ◌++◌, false, take, codes, OnOk, IfOk};
ghost use Rattle.osc_shown.specs.Times.{time_text};
ghost use Rattle.osc_drawing.specs.Headings.{IsTitle};
ghost use Rattle.osc_drawing.specs.Lines.{inner, IsDay};

use osc_atoms::Bytes;
use osc_shown::{Look, WallClock, day_line, time_words};
use std::alloc::{AllocError, Global};

/// The title of a picture from one moment to another, by a clock on the wall. An `Err` means out of
/// memory.
pub fn title_of(alloc: Global, clock: WallClock, first: u64, last: u64) -> Result<Bytes, AllocError>
    ensures { IfOk result (λ title. IsTitle clock first last title) }
{
    let mut words = day_words(alloc, clock, first)?;
    add_times(&mut words, clock, first, last)?;
    Ok(Bytes::of(words))
}

/// How lines look from which words are taken.
pub(crate) fn plain_look(clock: WallClock) -> Look
    ensures clock { result.clock ≡ clock }
    ensures colours { result.colours ≡ false }
{
    Look {
        clock,
        since: None,
        caller: None,
        whole: false,
        colours: false,
        quiet: false,
    }
}

/// What stands in a line between two dashes and its end.
pub(crate) fn inner(line: &[u8]) -> &[u8]
    ensures { result.now ≡ inner line.now }
{
    if line.len() < 4 {
        return b"";
    }
    &line[3..line.len() - 1]
}

/// The weekday, the date and the zone.
fn day_words(alloc: Global, clock: WallClock, moment: u64) -> Result<Vec<u8>, AllocError>
    ensures { IfOk result (λ words. IsDay clock moment words.items) }
{
    let mut line = Vec::new(alloc);
    day_line(&mut line, plain_look(clock), moment)?;
    let words = Vec::from_slice(alloc, inner(&line))?;
    Ok(words)
}

/// Adds from when to when.
fn add_times(out: &mut Vec<u8>, clock: WallClock, first: u64, last: u64) -> Result<(), AllocError>
    ensures { OnOk result (out.new.items ≡ out.old.items ++ codes ", "
        ++ take 8 (time_text clock first) ++ codes " to " ++ take 8 (time_text clock last)) }
{
    out.extend_from_slice(b", ")?;
    add_time(out, clock, first)?;
    out.extend_from_slice(b" to ")?;
    add_time(out, clock, last)
}

fn add_time(out: &mut Vec<u8>, clock: WallClock, moment: u64) -> Result<(), AllocError>
    ensures { OnOk result (out.new.items ≡ out.old.items ++ take 8 (time_text clock moment)) }
{
    let mut words = time_words(*out.allocator(), clock, moment)?;
    words.truncate(8);
    out.extend_from_slice(&words)
}
