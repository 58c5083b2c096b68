//! What is shown of what stands.
ghost use Rattle.std.specs.Prelude.{◌≡◌, length, map, take, IfOk, Some, None, option_map};
ghost use Rattle.osc_board.specs.declared.board.TheConstants.{MOST_WAITS};
ghost use Rattle.osc_board.specs.Boards as spec;

use crate::last::{Last, last_of};
use crate::past::row_at;
use osc_atoms::Bytes;
use osc_page::{Counts, Row, Wait};
use osc_story::{KeptMessage, Registered, Totals, Waiting};
use std::alloc::{AllocError, Global};

/// How many units that wait are shown at most.
pub const MOST_WAITS: usize = 100;

/// The methods, each with its last call, if it was called, also in the recordings before.
pub(crate) fn rows_of(
    alloc: Global,
    methods: &[Registered],
    lasts: &[Last],
    past: &[Row],
) -> Result<Vec<Row>, AllocError>
    ensures { IfOk result
        (λ rows. rows.items ≡ map (spec.row_of past.now lasts.now) methods.now) }
{
    let mut rows = Vec::new(alloc);
    for method in methods {
        rows.push(row_of(alloc, method, lasts, past)?)?;
    }
    Ok(rows)
}

fn row_of(
    alloc: Global,
    method: &Registered,
    lasts: &[Last],
    past: &[Row],
) -> Result<Row, AllocError>
    ensures { IfOk result (λ row. row ≡ spec.row_of past.now lasts.now method.now) }
{
    let old = row_at(past, method.address());
    match (last_of(lasts, method.id()), old) {
        (Some(last), old) => called_row(alloc, method, last, calls_of(old)),
        (None, Some(old)) => past_row(alloc, method, old),
        (None, None) => silent_row(alloc, method),
    }
}

/// How often a method was called in the recordings before.
fn calls_of(old: Option<&Row>) -> u64
    ensures { result ≡ spec.calls_of (option_map (λ row. row.now) old.entry) }
{
    match old {
        Some(old) => old.calls,
        None => 0,
    }
}

/// The row of a method that was called, after so many calls before.
fn called_row(
    alloc: Global,
    method: &Registered,
    last: &Last,
    before: u64,
) -> Result<Row, AllocError>
    ensures { IfOk result (λ row. row ≡ spec.called_row method.now last.now before) }
{
    Ok(Row {
        id: method.id(),
        address: Bytes::copied(alloc, method.address())?,
        calls: before.saturating_add(last.count),
        at: last.at,
        words: Bytes::copied(alloc, last.words.as_slice())?,
    })
}

/// The row of a method that was called in the recordings before alone.
fn past_row(alloc: Global, method: &Registered, old: &Row) -> Result<Row, AllocError>
    ensures { IfOk result (λ row. row ≡ spec.past_row method.now old.now) }
{
    Ok(Row {
        id: method.id(),
        address: Bytes::copied(alloc, method.address())?,
        calls: old.calls,
        at: old.at,
        words: Bytes::copied(alloc, old.words.as_slice())?,
    })
}

fn silent_row(alloc: Global, method: &Registered) -> Result<Row, AllocError>
    ensures { IfOk result (λ row. row ≡ spec.silent_row method.now) }
{
    Ok(Row {
        id: method.id(),
        address: Bytes::copied(alloc, method.address())?,
        calls: 0,
        at: 0,
        words: Bytes::copied(alloc, b"")?,
    })
}

/// The first of the units that wait.
pub(crate) fn waits_of(alloc: Global, waiting: &[Waiting]) -> Result<Vec<Wait>, AllocError>
    ensures { IfOk result
        (λ waits. waits.items ≡ map spec.wait_of (take MOST_WAITS waiting.now)) }
{
    all_waits_of(alloc, front(waiting, MOST_WAITS))
}

/// At most so many, from the front.
fn front(waiting: &[Waiting], most: usize) -> &[Waiting]
    ensures { result.now ≡ take most waiting.now }
{
    if waiting.len() <= most {
        waiting
    } else {
        &waiting[..most]
    }
}

fn all_waits_of(alloc: Global, waiting: &[Waiting]) -> Result<Vec<Wait>, AllocError>
    ensures { IfOk result (λ waits. waits.items ≡ map spec.wait_of waiting.now) }
{
    let mut waits = Vec::new(alloc);
    for one in waiting {
        waits.push(wait_of(alloc, one)?)?;
    }
    Ok(waits)
}

fn wait_of(alloc: Global, waiting: &Waiting) -> Result<Wait, AllocError>
    ensures { IfOk result (λ wait. wait ≡ spec.wait_of waiting.now) }
{
    Ok(Wait {
        unit: waiting.number(),
        due: waiting.due(),
        messages: waiting.messages().len() as u64,
        first: Bytes::copied(alloc, first_pattern(waiting.messages()))?,
    })
}

/// The pattern of the first of messages.
fn first_pattern(messages: &[KeptMessage]) -> &[u8]
    ensures { result.now ≡ spec.first_pattern messages.now }
{
    match messages.first() {
        Some(message) => message.message().pattern().bytes(),
        None => b"",
    }
}

/// How much was told, and how many units wait.
pub(crate) fn counts_of(totals: Totals, waiting: &[Waiting]) -> Counts
    ensures { result ≡ spec.counts_of totals (length waiting.now) }
{
    Counts {
        entries: totals.entries,
        messages: totals.messages,
        calls: totals.calls,
        unheard: totals.unheard,
        discarded: totals.discarded,
        refused: totals.refused,
        waiting: waiting.len() as u64,
    }
}
