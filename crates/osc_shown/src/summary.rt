//! The lines before and after those of a whole recording.
ghost use Rattle.std.specs.Prelude.{◌≡◌, ◌++◌, [], OnOk, OnErr, codes, if◌then◌else◌};
ghost use Rattle.osc_shown.specs.Columns.{painted};
ghost use Rattle.osc_shown.specs.Summaries as spec;
ghost use Rattle.osc_shown.specs.Tails.{joined};

use crate::Look;
use crate::bytes::add;
use crate::line::remark;
use crate::number::{add_decimal, add_thousands};
use crate::tail::add_comma;
use crate::time::{add_seconds, millis_of};
use std::alloc::{AllocError, Global};

/// How much a recording told, and from which moment to which.
#[derive(Clone, Copy)]
pub struct Sums {
    pub first: u64,
    pub last: u64,
    /// The messages that were performed.
    pub messages: u64,
    /// The calls that they made.
    pub calls: u64,
    /// How many of them called no method.
    pub unheard: u64,
    pub discarded: u64,
    pub refused: u64,
    pub waiting: u64,
}

/// Adds the line that stands before those of a recording of so many bytes and entries. It is shown
/// whatever is left out. An `Err` means out of memory.
pub fn opening_line(
    text: &mut Vec<u8>,
    look: Look,
    size: u64,
    entries: u64,
    discards: bool,
) -> Result<(), AllocError>
    ensures ok { OnOk result (text.new.items ≡ text.old.items
        ++ painted look.colours 126 (spec.opening_words size entries discards) []) }
    ensures err { OnErr result (text.new.items ≡ text.old.items) }
{
    let alloc: Global = *text.allocator();
    let mut words = Vec::new(alloc);
    add_size(&mut words, size)?;
    add_kept(&mut words, entries, discards)?;
    remark(text, look, b'~', &words)
}

fn add_size(out: &mut Vec<u8>, size: u64) -> Result<(), AllocError>
    ensures { OnOk result (out.new.items ≡ out.old.items ++ spec.size_words size) }
{
    add(out, b"-- a recording of ")?;
    add_thousands(out, size)?;
    add(out, b" bytes in ")
}

fn add_kept(out: &mut Vec<u8>, entries: u64, discards: bool) -> Result<(), AllocError>
    ensures { OnOk result (out.new.items ≡ out.old.items ++ spec.kept_words entries discards) }
{
    add_entries(out, entries)?;
    add(out, b"; late bundles are ")?;
    add(out, fate(discards))
}

fn fate(discards: bool) -> &'static [u8]
    ensures { result.now ≡ if discards then codes "discarded" else codes "performed" }
{
    if discards { b"discarded" } else { b"performed" }
}

fn add_entries(out: &mut Vec<u8>, entries: u64) -> Result<(), AllocError>
    ensures { OnOk result (out.new.items ≡ out.old.items ++ spec.entries_text entries) }
{
    if entries == 1 {
        return add(out, b"1 entry");
    }
    add_thousands(out, entries)?;
    add(out, b" entries")
}

/// Adds the line after those of a recording: how long it lasted, and how much it told. It is shown
/// whatever is left out. An `Err` means out of memory.
pub fn totals_line(text: &mut Vec<u8>, look: Look, sums: Sums) -> Result<(), AllocError>
    ensures ok { OnOk result
        (text.new.items ≡ text.old.items ++ painted look.colours 126 (spec.totals_words sums) []) }
    ensures err { OnErr result (text.new.items ≡ text.old.items) }
{
    let alloc: Global = *text.allocator();
    let mut words = Vec::new(alloc);
    add(&mut words, b"-- ")?;
    add_totals(&mut words, sums)?;
    remark(text, look, b'~', &words)
}

/// Adds the same line where not all lines of the recording were shown. An `Err` means out of memory.
pub fn whole_totals_line(text: &mut Vec<u8>, look: Look, sums: Sums) -> Result<(), AllocError>
    ensures ok { OnOk result (text.new.items
        ≡ text.old.items ++ painted look.colours 126 (spec.whole_totals_words sums) []) }
    ensures err { OnErr result (text.new.items ≡ text.old.items) }
{
    let alloc: Global = *text.allocator();
    let mut words = Vec::new(alloc);
    add(&mut words, b"-- of the whole recording, ")?;
    add_totals(&mut words, sums)?;
    remark(text, look, b'~', &words)
}

fn add_totals(out: &mut Vec<u8>, sums: Sums) -> Result<(), AllocError>
    ensures { OnOk result (out.new.items ≡ out.old.items ++ spec.sums_words sums) }
{
    add_span(out, sums)?;
    add_made(out, sums)?;
    add_others(out, sums)
}

fn add_span(out: &mut Vec<u8>, sums: Sums) -> Result<(), AllocError>
    ensures { OnOk result (out.new.items ≡ out.old.items ++ spec.span_words sums) }
{
    add_lasting(
        out,
        millis_of(sums.last).saturating_sub(millis_of(sums.first)),
    )?;
    add(out, b": ")
}

fn add_made(out: &mut Vec<u8>, sums: Sums) -> Result<(), AllocError>
    ensures { OnOk result (out.new.items ≡ out.old.items ++ spec.made_words sums) }
{
    add_counted(out, sums.messages, b" message")?;
    add(out, b", ")?;
    add_counted(out, sums.calls, b" call")
}

/// Adds how long it lasted, with hours and minutes where there are any.
fn add_lasting(out: &mut Vec<u8>, millis: u64) -> Result<(), AllocError>
    ensures { OnOk result (out.new.items ≡ out.old.items ++ spec.lasting millis) }
{
    add_hours(out, millis / 3_600_000)?;
    add_minutes(out, millis / 3_600_000, millis / 60_000 % 60)?;
    add_seconds(out, millis % 60_000)
}

fn add_hours(out: &mut Vec<u8>, hours: u64) -> Result<(), AllocError>
    ensures { OnOk result (out.new.items ≡ out.old.items ++ spec.hours_part hours) }
{
    if hours == 0 {
        return Ok(());
    }
    add_decimal(out, hours)?;
    add(out, b" h ")
}

fn add_minutes(out: &mut Vec<u8>, hours: u64, minutes: u64) -> Result<(), AllocError>
    ensures { OnOk result (out.new.items ≡ out.old.items ++ spec.minutes_part hours minutes) }
{
    if hours == 0 && minutes == 0 {
        return Ok(());
    }
    add_decimal(out, minutes)?;
    add(out, b" min ")
}

/// Adds a number and what is counted, with an s after it unless it is one.
fn add_counted(out: &mut Vec<u8>, number: u64, one: &[u8]) -> Result<(), AllocError>
    ensures { OnOk result (out.new.items ≡ out.old.items ++ spec.counted number one.now) }
{
    add_thousands(out, number)?;
    add(out, one)?;
    if number == 1 {
        return Ok(());
    }
    add(out, b"s")
}

/// Adds what else there was, if there was anything.
fn add_others(out: &mut Vec<u8>, sums: Sums) -> Result<(), AllocError>
    ensures { OnOk result (out.new.items ≡ out.old.items ++ spec.after_semicolon
        (spec.others sums)) }
{
    let alloc: Global = *out.allocator();
    let mut others = Vec::new(alloc);
    add_some(&mut others, sums.unheard, b" called no method")?;
    add_some(&mut others, sums.discarded, b" discarded")?;
    add_some(&mut others, sums.refused, b" refused")?;
    add_some(&mut others, sums.waiting, b" waiting")?;
    if others.is_empty() {
        return Ok(());
    }
    add(out, b"; ")?;
    add(out, &others)
}

/// Adds a number of these, with a comma before it, unless it is 0.
fn add_some(out: &mut Vec<u8>, number: u64, what: &[u8]) -> Result<(), AllocError>
    ensures { OnOk result (out.new.items ≡ spec.with_some out.old.items number what.now) }
{
    if number == 0 {
        return Ok(());
    }
    add_comma(out)?;
    add_thousands(out, number)?;
    add(out, what)
}

/// Adds the line after those of a recording that ends within an entry, which begins at a byte. It
/// is shown whatever is left out. An `Err` means out of memory.
pub fn cut_line(text: &mut Vec<u8>, look: Look, at: u64) -> Result<(), AllocError>
    ensures ok { OnOk result
        (text.new.items ≡ text.old.items ++ painted look.colours 33 (spec.cut_words at) []) }
    ensures err { OnErr result (text.new.items ≡ text.old.items) }
{
    let alloc: Global = *text.allocator();
    let mut words = Vec::new(alloc);
    add(&mut words, b"-- cut off at byte ")?;
    add_thousands(&mut words, at)?;
    add(&mut words, b": what stands above is whole")?;
    remark(text, look, b'!', &words)
}
