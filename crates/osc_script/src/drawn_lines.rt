//! Writes the lines of a generated script.
ghost use Rattle.std.specs.Prelude.{◌≡◌, ◌++◌, ◌∷◌, [], ◌+◌, ◌<◌, ◌≤◌, ◌^◌, IfOk, OnOk, OnErr};
ghost use Rattle.std.specs.Prelude.{length, take};
ghost use Rattle.hex.specs.Hex.{encode_lower};
ghost use Rattle.osc_script.specs.Written.{act_line, with_operand};
ghost use Rattle.osc_script.specs.Generated.{act_of_kind, draws_of, moment_after};
ghost use Rattle.osc_script.specs.Draws.{after};

use crate::drawn_packets::{drawn_address, nested_of, to_all, to_one, two_of};
use crate::draws::Draws;
use crate::line_kind::LineKind;
use std::alloc::{AllocError, Global};

/// Adds a line of this kind, and gives the moment of the last tick after it.
pub(crate) fn put_drawn_line(
    alloc: Global,
    script: &mut Vec<u8>,
    kind: LineKind,
    moment: u64,
    draws: &mut Draws,
) -> Result<u64, AllocError>
    requires { moment < 2 ^ 63 }
    ensures line { OnOk result
        (script.new.items
        ≡ script.old.items ++ act_line (act_of_kind kind moment draws.old.number)) }
    ensures draws { OnOk result (draws.new.number ≡ after (draws_of kind) draws.old.number) }
    ensures moment { IfOk result (λ next. next ≡ moment_after kind moment draws.old.number) }
    ensures within { IfOk result (λ next. next < moment + 1024) }
{
    match kind {
        LineKind::Add => {
            let address = drawn_address(alloc, draws)?;
            put_line(script, b"add", address.as_bytes())?;
        }
        LineKind::Remove => {
            let address = drawn_address(alloc, draws)?;
            put_line(script, b"remove", address.as_bytes())?;
        }
        LineKind::Tick => {
            let next = moment + draws.below(1_024);
            put_digits(alloc, script, b"tick", &next.to_be_bytes())?;
            return Ok(next);
        }
        LineKind::Pump => script.extend_from_slice(b"pump\n")?,
        LineKind::One => {
            let packet = to_one(alloc, draws)?;
            put_digits(alloc, script, b"send", packet.as_slice())?;
        }
        LineKind::All => {
            let packet = to_all(alloc, draws)?;
            put_digits(alloc, script, b"send", packet.as_slice())?;
        }
        LineKind::Two => {
            let packet = two_of(alloc, moment, draws)?;
            put_digits(alloc, script, b"send", packet.as_slice())?;
        }
        LineKind::Nested => {
            let packet = nested_of(alloc, moment, draws)?;
            put_digits(alloc, script, b"send", packet.as_slice())?;
        }
    }
    Ok(moment)
}

/// Adds a line of a word and its operand, or nothing where memory is refused.
pub fn put_line(script: &mut Vec<u8>, word: &[u8], operand: &[u8]) -> Result<(), AllocError>
    ensures ok { OnOk result
        (script.new.items
        ≡ script.old.items ++ (with_operand word.now operand.now ++ 10 ∷ [])) }
    ensures err { OnErr result (script.new.items ≡ script.old.items) }
{
    let before = script.len();
    if let Err(error) = put_words(script, word, operand) {
        script.truncate(before);
        return Err(error);
    }
    Ok(())
}

/// Adds a word, its operand and the end of the line, as far as memory goes.
fn put_words(script: &mut Vec<u8>, word: &[u8], operand: &[u8]) -> Result<(), AllocError>
    ensures ok { OnOk result
        (script.new.items
        ≡ script.old.items ++ (with_operand word.now operand.now ++ 10 ∷ [])) }
    ensures err { OnErr result
        (take (length script.old.items) script.new.items ≡ script.old.items) }
{
    script.extend_from_slice(word)?;
    script.extend_from_slice(b" ")?;
    script.extend_from_slice(operand)?;
    script.extend_from_slice(b"\n")
}

/// Adds a line of a word and, as its operand, the digits of these bytes, or nothing where memory is
/// refused.
pub fn put_digits(
    alloc: Global,
    script: &mut Vec<u8>,
    word: &[u8],
    bytes: &[u8],
) -> Result<(), AllocError>
    ensures ok { OnOk result
        (script.new.items
        ≡ script.old.items ++ (with_operand word.now (encode_lower bytes.now) ++ 10 ∷ [])) }
    ensures err { OnErr result (script.new.items ≡ script.old.items) }
{
    let digits = hex::encode(alloc, bytes)?;
    put_line(script, word, digits.as_bytes())
}
