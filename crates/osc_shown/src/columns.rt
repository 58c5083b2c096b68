// The columns of a line.
ghost use Rattle.std.specs.Prelude.{◌≡◌, ◌++◌, ◌-◌, ◌∷◌, OnOk, take, length};
ghost use Rattle.std.specs.Fmt.{decimal};
ghost use Rattle.osc_shown.specs.Columns.{begins_char, width, gap, laid_out, begun};
ghost use Rattle.osc_shown.specs.Columns.{ended, head_text, painted, is_left_out};
ghost use Rattle.osc_shown.specs.Columns.{caller_text, moment_text, when_text, seconds_since};
ghost use Rattle.osc_shown.specs.Columns.{on_the_right, spaces};

use crate::bytes::{add, add_byte};
use crate::number::add_decimal;
use crate::time::{add_bare_seconds, add_time, millis_of};
use crate::{Look, WallClock};
use std::alloc::{AllocError, Global};

/// How many characters the time has.
const TIME: usize = 12;

/// How many characters stand before the tail.
const BEFORE_TAIL: usize = 48;

/// So many spaces.
const SPACES: [u8; BEFORE_TAIL] = [b' '; BEFORE_TAIL];

/// Adds the time, the caller if one is shown, the mark and the join, with spaces around them:
/// without a caller 16 characters.
pub(crate) fn add_head(
    out: &mut Vec<u8>,
    look: Look,
    moment: Option<u64>,
    mark: u8,
    join: u8,
) -> Result<(), AllocError>
    ensures { OnOk result (out.new.items
        ≡ out.old.items ++ head_text look moment mark join) }
{
    add_when(out, look, moment)?;
    add_caller(out, look.caller)?;
    add(out, &[b' ', mark, join, b' '])
}

/// Adds the time of a moment, or dashes where there is none.
fn add_when(out: &mut Vec<u8>, look: Look, moment: Option<u64>) -> Result<(), AllocError>
    ensures { OnOk result (out.new.items ≡ out.old.items ++ when_text look moment) }
{
    match moment {
        Some(moment) => add_moment(out, look.since, look.clock, moment),
        None => add(out, b"--:--:--.---"),
    }
}

/// Adds the time of day, or how many seconds it is since the moment from which on they count.
fn add_moment(
    out: &mut Vec<u8>,
    since: Option<u64>,
    clock: WallClock,
    moment: u64,
) -> Result<(), AllocError>
    ensures { OnOk result (out.new.items ≡ out.old.items ++ moment_text since clock moment) }
{
    match since {
        Some(since) => add_since(out, since, moment),
        None => add_time(out, clock, moment),
    }
}

/// Adds how many seconds a moment is after another one, as `     300.125`.
fn add_since(out: &mut Vec<u8>, since: u64, moment: u64) -> Result<(), AllocError>
    ensures { OnOk result (out.new.items ≡ out.old.items ++ seconds_since since moment) }
{
    let alloc: Global = *out.allocator();
    let mut seconds = Vec::new(alloc);
    add_bare_seconds(
        &mut seconds,
        millis_of(moment).saturating_sub(millis_of(since)),
    )?;
    add_on_the_right(out, &seconds)
}

/// Adds a text after spaces up to 12 characters.
fn add_on_the_right(out: &mut Vec<u8>, text: &[u8]) -> Result<(), AllocError>
    ensures { OnOk result (out.new.items ≡ out.old.items ++ on_the_right text.now) }
{
    add(out, margin(text.len()))?;
    add(out, text)
}

/// Spaces before a text of so many characters.
fn margin(width: usize) -> &'static [u8]
    ensures { result.now ≡ take (12 - width) spaces }
{
    &SPACES[..TIME.saturating_sub(width)]
}

/// Adds a caller after a space, if one is shown.
fn add_caller(out: &mut Vec<u8>, caller: Option<u32>) -> Result<(), AllocError>
    ensures { OnOk result (out.new.items ≡ out.old.items ++ caller_text caller) }
{
    match caller {
        Some(caller) => add_known_caller(out, caller),
        None => Ok(()),
    }
}

fn add_known_caller(out: &mut Vec<u8>, caller: u32) -> Result<(), AllocError>
    ensures { OnOk result (out.new.items ≡ out.old.items ++ 32 ∷ decimal caller) }
{
    add_byte(out, b' ')?;
    add_decimal(out, u64::from(caller))
}

/// Adds a line, which has this front and this tail.
pub(crate) fn add_line(
    out: &mut Vec<u8>,
    colours: bool,
    mark: u8,
    front: &[u8],
    tail: &[u8],
) -> Result<(), AllocError>
    ensures { OnOk result (out.new.items
        ≡ out.old.items ++ painted colours mark front.now tail.now) }
{
    add(out, begun(colours, mark))?;
    add_laid_out(out, front, tail)?;
    add(out, ended(colours, mark))?;
    add(out, b"\n")
}

fn add_laid_out(out: &mut Vec<u8>, front: &[u8], tail: &[u8]) -> Result<(), AllocError>
    ensures { OnOk result (out.new.items ≡ out.old.items ++ laid_out front.now tail.now) }
{
    add(out, front)?;
    if tail.is_empty() {
        return Ok(());
    }
    add(out, gap(width(front)))?;
    add(out, tail)
}

/// Spaces up to the tail, and at least two.
fn gap(width: usize) -> &'static [u8]
    ensures { result.now ≡ gap width }
{
    &SPACES[..BEFORE_TAIL.saturating_sub(width).max(2)]
}

/// How many characters the bytes are.
fn width(bytes: &[u8]) -> usize
    ensures { result ≡ width bytes.now }
{
    bytes.iter().filter(|byte| begins_char(**byte)).count()
}

/// Whether a byte begins a character: all but those from 0x80 to 0xBF.
fn begins_char(byte: u8) -> bool
    ensures { result ≡ begins_char byte }
{
    byte < 0x80 || byte >= 0xC0
}

/// The colour of a mark, if lines have colours.
pub(crate) fn begun(colours: bool, mark: u8) -> &'static [u8]
    ensures { result.now ≡ begun colours mark }
{
    if !colours {
        return b"";
    }
    match mark {
        b'!' => b"\x1b[31m",
        b'?' => b"\x1b[35m",
        b'~' => b"\x1b[2m",
        _ => b"",
    }
}

pub(crate) fn ended(colours: bool, mark: u8) -> &'static [u8]
    ensures { result.now ≡ ended colours mark }
{
    if !colours {
        return b"";
    }
    match mark {
        b'!' | b'?' | b'~' => b"\x1b[0m",
        _ => b"",
    }
}

/// Whether a line with this mark is left out.
pub(crate) fn is_left_out(look: Look, mark: u8) -> bool
    ensures { result ≡ is_left_out look mark }
{
    look.quiet && mark != b'!' && mark != b'?'
}
