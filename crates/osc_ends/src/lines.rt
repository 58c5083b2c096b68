//! The last lines of a program.
ghost use Rattle.std.specs.Prelude.{◌≡◌, ◌++◌, OnOk};
ghost use Rattle.osc_print.specs.Lines.{line};
ghost use Rattle.osc_print.specs.Entries.{named, named_room};
ghost use Rattle.osc_ends.specs.Printing.{refusal_text, score_fault_text, malformed_text};
ghost use Rattle.osc_ends.specs.Printing.{named_bytes, disagrees_text, too_large_text};
ghost use Rattle.osc_ends.specs.Printing.{bank_short_text, callers_full_text, last_text};

use crate::outcome::Outcome;
use osc_print::Text;
use osc_score::ScoreFault;
use osc_script::ScriptFault;
use std::alloc::{AllocError, Global};

/// Adds the line of a script that is refused.
pub(crate) fn refusal_line(text: &mut Text, fault: ScriptFault) -> Result<(), AllocError>
    ensures { OnOk result (text.new ≡ text.old ++ refusal_text fault) }
{
    pair_line(
        text,
        b"script",
        u64::from(fault.line),
        u64::from(fault.kind),
    )
}

/// Adds the line of a score that is refused.
pub(crate) fn score_fault_line(text: &mut Text, fault: ScoreFault) -> Result<(), AllocError>
    ensures { OnOk result (text.new ≡ text.old ++ score_fault_text fault) }
{
    pair_line(text, b"score", u64::from(fault.line), u64::from(fault.kind))
}

/// Adds the line of a recording that is malformed at a place.
pub(crate) fn malformed_line(text: &mut Text, at: u32) -> Result<(), AllocError>
    ensures { OnOk result (text.new ≡ text.old ++ malformed_text at) }
{
    number_line(text, b"malformed", at)
}

/// Adds the line of a recording whose upgrade needs more bytes than the limit.
pub(crate) fn too_large_line(text: &mut Text, need: u64, limit: u32) -> Result<(), AllocError>
    ensures { OnOk result (text.new ≡ text.old ++ too_large_text need limit) }
{
    pair_line(text, b"too-large", need, u64::from(limit))
}

/// Adds the lines of an entry whose bytes aren't those that the server computes.
pub(crate) fn disagrees_lines(
    alloc: Global,
    text: &mut Text,
    entry: u32,
    kept: &[u8],
    computed: &[u8],
) -> Result<(), AllocError>
    ensures { OnOk result (text.new ≡ text.old ++ disagrees_text entry kept.now computed.now) }
{
    number_line(text, b"disagrees", entry)?;
    bytes_line(alloc, text, b"kept", kept)?;
    bytes_line(alloc, text, b"computed", computed)
}

/// Adds the last line of what was played, where there is one. An `Err` means out of memory.
pub fn outcome_line(text: &mut Text, outcome: Outcome) -> Result<(), AllocError>
    ensures { OnOk result (text.new ≡ text.old ++ last_text outcome) }
{
    match outcome {
        Outcome::Done => Ok(()),
        Outcome::Full { need, free } => pair_line(text, b"recording-full", need, free),
        Outcome::LinkFailed(link) => number_line(text, b"link-fault", link),
        Outcome::ClockFailed => word_line(text, b"clock-fault"),
    }
}

/// Adds the line of a script that adds more methods than there are boxes.
pub(crate) fn bank_short_line(text: &mut Text, need: usize, have: usize) -> Result<(), AllocError>
    ensures { OnOk result (text.new ≡ text.old ++ bank_short_text need have) }
{
    pair_line(text, b"bank-short", need as u64, have as u64)
}

/// Adds the line of a recording whose callers and lanes together are more than its limits allow.
pub(crate) fn callers_full_line(text: &mut Text, need: usize, have: usize) -> Result<(), AllocError>
    ensures { OnOk result (text.new ≡ text.old ++ callers_full_text need have) }
{
    pair_line(text, b"callers-full", need as u64, have as u64)
}

/// Adds a line of a word.
fn word_line(text: &mut Text, word: &[u8]) -> Result<(), AllocError>
    ensures { OnOk result (text.new ≡ text.old ++ line word.now) }
{
    text.word(word)?;
    text.end_line()
}

/// Adds a line of a word and a number.
fn number_line(text: &mut Text, word: &[u8], number: u32) -> Result<(), AllocError>
    ensures { OnOk result (text.new ≡ text.old ++ line (named word.now number)) }
{
    text.word(word)?;
    text.space_number(u64::from(number))?;
    text.end_line()
}

/// Adds a line of a word and two numbers.
fn pair_line(text: &mut Text, word: &[u8], first: u64, second: u64) -> Result<(), AllocError>
    ensures { OnOk result (text.new ≡ text.old ++ line (named_room word.now first second)) }
{
    text.word(word)?;
    text.space_number(first)?;
    text.space_number(second)?;
    text.end_line()
}

/// Adds a line of a word and bytes in hexadecimal digits.
fn bytes_line(alloc: Global, text: &mut Text, word: &[u8], bytes: &[u8]) -> Result<(), AllocError>
    ensures { OnOk result (text.new ≡ text.old ++ line (named_bytes word.now bytes.now)) }
{
    let digits = hex::encode(alloc, bytes)?;
    text.word(word)?;
    text.space_word(digits.as_bytes())?;
    text.end_line()
}
