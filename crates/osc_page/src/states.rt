//! The state of a show as JSON.
ghost use Rattle.std.specs.Prelude.{◌≡◌, ◌++◌, ◌∷◌, [], Some, OnOk, IfOk, decimal};
ghost use Rattle.std.specs.List.{flat_map};
ghost use Rattle.json.specs.Token.{begin_object, end_object, begin_array, end_array, key, number};
ghost use Rattle.json.specs.Token.{string};
ghost use Rattle.json.specs.Json.{array, document};
ghost use Rattle.json.specs.Print.{print};
ghost use Rattle.json.specs.Tree.{json_tokens};
ghost use Rattle.osc_page.specs.States.{items_of, millis, told, board_json};
ghost use Rattle.osc_page.specs.States.{counts_json, row_json, wait_json};
ghost use Rattle.osc_page.specs.Added.{Adds};

use crate::board::{Board, Counts, Row, Wait};
use json::Writer;
use osc_atoms::Bytes;
use std::alloc::{AllocError, Global};

/// The state before anything is seen: the text of JSON's `null`.
pub const NO_STATE: &[u8] = b"null";

/// The state as JSON: the text of one object. An `Err` is out of memory.
pub fn state_text(alloc: Global, board: &Board) -> Result<Vec<u8>, AllocError>
    ensures text { IfOk result (λ text. text.items ≡ print (json_tokens (board_json board.now))) }
    ensures reads_back { IfOk result (λ text. document text.items ≡ Some (board_json board.now)) }
{
    let mut out = Writer::new(Vec::new(alloc));
    write_board(&mut out, board)?;
    Ok(out.into_inner())
}

fn write_board(out: &mut Writer, board: &Board) -> Result<(), AllocError>
    ensures { OnOk result (Adds out.old out.new (json_tokens (board_json board.now))) }
{
    write_parts(
        out,
        board.clock(),
        board.counts(),
        board.methods(),
        board.waits(),
    )
}

fn write_parts(
    out: &mut Writer,
    clock: u64,
    counts: Counts,
    methods: &[Row],
    waits: &[Wait],
) -> Result<(), AllocError>
    ensures { OnOk result (Adds out.old out.new (json_tokens (board_json (record {
      clock = clock;
      counts = counts;
      methods = methods.now;
      waits = waits.now;
    })))) }
{
    write_opening(out)?;
    write_moment(out, "clock", clock)?;
    write_name(out, "counts")?;
    write_counts(out, counts)?;
    write_name(out, "methods")?;
    write_rows(out, methods)?;
    write_name(out, "waits")?;
    write_waits(out, waits)?;
    write_closing(out)?;
    Ok(())
}

fn write_counts(out: &mut Writer, counts: Counts) -> Result<(), AllocError>
    ensures { OnOk result (Adds out.old out.new (json_tokens (counts_json counts))) }
{
    write_opening(out)?;
    write_number(out, "entries", counts.entries)?;
    write_number(out, "messages", counts.messages)?;
    write_number(out, "calls", counts.calls)?;
    write_number(out, "unheard", counts.unheard)?;
    write_number(out, "discarded", counts.discarded)?;
    write_number(out, "refused", counts.refused)?;
    write_number(out, "waiting", counts.waiting)?;
    write_closing(out)?;
    Ok(())
}

fn write_rows(out: &mut Writer, rows: &[Row]) -> Result<(), AllocError>
    ensures { OnOk result
        (Adds out.old out.new (json_tokens (array (items_of row_json rows.now)))) }
{
    write_start(out)?;
    write_each_row(out, rows)?;
    write_end(out)?;
    Ok(())
}

#[tactic(auto, using(crate::proofs::AddedTokens::writes))]
fn write_each_row(out: &mut Writer, rows: &[Row]) -> Result<(), AllocError>
    ensures { OnOk result
        (Adds out.old out.new (flat_map (λ one. json_tokens (row_json one)) rows.now)) }
{
    for one in rows {
        write_row(out, one)?;
    }
    Ok(())
}

fn write_row(out: &mut Writer, row: &Row) -> Result<(), AllocError>
    ensures { OnOk result (Adds out.old out.new (json_tokens (row_json row.now))) }
{
    write_opening(out)?;
    write_word(out, "id", row.id)?;
    write_text(out, "address", &row.address)?;
    write_number(out, "calls", row.calls)?;
    write_moment(out, "at", row.at)?;
    write_text(out, "words", &row.words)?;
    write_closing(out)?;
    Ok(())
}

fn write_waits(out: &mut Writer, waits: &[Wait]) -> Result<(), AllocError>
    ensures { OnOk result
        (Adds out.old out.new (json_tokens (array (items_of wait_json waits.now)))) }
{
    write_start(out)?;
    write_each_wait(out, waits)?;
    write_end(out)?;
    Ok(())
}

#[tactic(auto, using(crate::proofs::AddedTokens::writes))]
fn write_each_wait(out: &mut Writer, waits: &[Wait]) -> Result<(), AllocError>
    ensures { OnOk result
        (Adds out.old out.new (flat_map (λ one. json_tokens (wait_json one)) waits.now)) }
{
    for one in waits {
        write_wait(out, one)?;
    }
    Ok(())
}

fn write_wait(out: &mut Writer, wait: &Wait) -> Result<(), AllocError>
    ensures { OnOk result (Adds out.old out.new (json_tokens (wait_json wait.now))) }
{
    write_opening(out)?;
    write_number(out, "unit", wait.unit)?;
    write_moment(out, "due", wait.due)?;
    write_number(out, "messages", wait.messages)?;
    write_text(out, "first", &wait.first)?;
    write_closing(out)?;
    Ok(())
}

fn write_opening(out: &mut Writer) -> Result<(), AllocError>
    ensures { OnOk result (Adds out.old out.new (begin_object ∷ [])) }
{
    out.begin_object()?;
    Ok(())
}

fn write_closing(out: &mut Writer) -> Result<(), AllocError>
    ensures { OnOk result (Adds out.old out.new (end_object ∷ [])) }
{
    out.end_object()?;
    Ok(())
}

fn write_start(out: &mut Writer) -> Result<(), AllocError>
    ensures { OnOk result (Adds out.old out.new (begin_array ∷ [])) }
{
    out.begin_array()?;
    Ok(())
}

fn write_end(out: &mut Writer) -> Result<(), AllocError>
    ensures { OnOk result (Adds out.old out.new (end_array ∷ [])) }
{
    out.end_array()?;
    Ok(())
}

fn write_name(out: &mut Writer, name: &str) -> Result<(), AllocError>
    ensures { OnOk result (Adds out.old out.new (key name.now ∷ [])) }
{
    out.key(name)?;
    Ok(())
}

fn write_number(out: &mut Writer, name: &str, count: u64) -> Result<(), AllocError>
    ensures { OnOk result
        (Adds out.old out.new (key name.now ∷ number (decimal count) ∷ [])) }
{
    out.key(name)?;
    out.u64(count)?;
    Ok(())
}

fn write_word(out: &mut Writer, name: &str, count: u32) -> Result<(), AllocError>
    ensures { OnOk result
        (Adds out.old out.new (key name.now ∷ number (decimal count) ∷ [])) }
{
    write_number(out, name, u64::from(count))
}

fn write_text(out: &mut Writer, name: &str, text: &Bytes) -> Result<(), AllocError>
    ensures { OnOk result
        (Adds out.old out.new (key name.now ∷ string (told text.now) ∷ [])) }
{
    out.key(name)?;
    write_told(out, text.as_slice())
}

/// Adds bytes as they are shown: a text as it is, anything else as a question mark.
fn write_told(out: &mut Writer, bytes: &[u8]) -> Result<(), AllocError>
    ensures { OnOk result (Adds out.old out.new (string (told bytes.now) ∷ [])) }
{
    write_string(out, told_text(bytes))
}

fn told_text(bytes: &[u8]) -> &str
    ensures { result.now ≡ told bytes.now }
{
    match std::str::from_utf8(bytes) {
        Ok(text) => text,
        Err(_) => "?",
    }
}

fn write_string(out: &mut Writer, text: &str) -> Result<(), AllocError>
    ensures { OnOk result (Adds out.old out.new (string text.now ∷ [])) }
{
    out.string(text)?;
    Ok(())
}

/// A moment is written as milliseconds, so that no number is too long for a browser.
fn write_moment(out: &mut Writer, name: &str, tag: u64) -> Result<(), AllocError>
    ensures { OnOk result
        (Adds out.old out.new (key name.now ∷ number (decimal (millis tag)) ∷ [])) }
{
    write_number(out, name, millis_of(tag))
}

/// The whole milliseconds since 1900 of a time tag.
fn millis_of(tag: u64) -> u64
    ensures { result ≡ millis tag }
{
    tag / 4_294_967_296 * 1_000 + tag % 4_294_967_296 * 1_000 / 4_294_967_296
}
