// What is told of wrong lines, and what to write instead.
ghost use Rattle.std.specs.Prelude.{◌≡◌, ◌++◌, OnOk, map};
ghost use Rattle.std.specs.Fmt.{decimal};
ghost use Rattle.osc_patch.specs.Texts;

use crate::fault::Fault;
use itoa::Buffer;
use std::alloc::AllocError;

/// Adds what stands before the word that is wrong.
#[tactic(auto, unfolding(crate::specs::Texts::heading))]
pub(crate) fn add_heading(text: &mut Vec<u8>, line: u32) -> Result<(), AllocError>
    ensures { OnOk result (text.new.items ≡ text.old.items ++ Texts.heading line) }
{
    add_numbered(text, b"line ", line, b": `")
}

/// Adds what follows the word that is wrong.
#[tactic(auto, unfolding(crate::specs::Texts::advice))]
pub(crate) fn add_advice(text: &mut Vec<u8>, fault: Fault) -> Result<(), AllocError>
    ensures { OnOk result (text.new.items ≡ text.old.items ++ Texts.advice fault) }
{
    match fault {
        Fault::UnknownWord => text.extend_from_slice(
            b" begins no line: write `add ADDRESS` or `add ADDRESS HOST PORT`",
        ),
        Fault::WordCount => text.extend_from_slice(
            b" takes one word or three: write `add ADDRESS` or `add ADDRESS HOST PORT`",
        ),
        Fault::Pattern => text.extend_from_slice(
            b" is a pattern, and a method has a plain address: write each address on a line of its own",
        ),
        Fault::Address => text.extend_from_slice(
            b" is no address: write a slash before each name, and no spaces or any of `#*,?[]{}`",
        ),
        Fault::Host => text.extend_from_slice(
            b" is no host: write an IPv4 address, as 10.0.0.7, or a name of letters, digits, `-` and `.`",
        ),
        Fault::Port => text.extend_from_slice(b" is no port: write a number from 1 to 65535"),
        Fault::Repeated(line) => add_numbered(
            text,
            b" is sent there by line ",
            line,
            b" already: take one of the two lines away",
        ),
        Fault::Nested(line) => add_numbered(
            text,
            b" and the address of line ",
            line,
            b" lie one under the other, and a method has none under it: rename one of them",
        ),
        Fault::TooMany(limit) => add_numbered(
            text,
            b" comes after ",
            limit,
            b" methods, and there may be no more: take lines away, or raise the limit",
        ),
    }
}

/// Adds a number with what stands before and after it.
#[tactic(auto, using(crate::proofs::Texts::three))]
fn add_numbered(
    text: &mut Vec<u8>,
    before: &[u8],
    number: u32,
    after: &[u8],
) -> Result<(), AllocError>
    ensures { OnOk result
        (text.new.items ≡ text.old.items ++ Texts.with_number before.now number after.now) }
{
    text.extend_from_slice(before)?;
    add_number(text, number)?;
    text.extend_from_slice(after)
}

/// Adds a number in decimal.
fn add_number(text: &mut Vec<u8>, number: u32) -> Result<(), AllocError>
    ensures { OnOk result (text.new.items ≡ text.old.items ++ decimal number) }
{
    text.extend_from_slice(Buffer::new().format(number).as_bytes())
}

/// Adds a word with question marks in place of control characters.
pub(crate) fn add_word(text: &mut Vec<u8>, word: &[u8]) -> Result<(), AllocError>
    ensures { OnOk result (text.new.items ≡ text.old.items ++ map Texts.shown word.now) }
{
    for byte in word {
        text.push(shown(*byte))?;
    }
    Ok(())
}

fn shown(byte: u8) -> u8
    ensures { result ≡ Texts.shown byte }
{
    if byte.is_ascii_control() { b'?' } else { byte }
}
