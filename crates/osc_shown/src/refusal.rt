//! The line of a datagram that is no packet.
ghost use Rattle.std.specs.Prelude.{◌≡◌, ◌++◌, OnOk, OnErr, map};
ghost use Rattle.osc_shown.specs.Refusals.{dotted, bytes_text, datagram_text, fault_words};
ghost use Rattle.osc_shown.specs.Refusals.{refusal_words, refusal_text};

use crate::bytes::{add, add_byte, front};
use crate::columns::{add_head, add_line};
use crate::number::add_thousands;
use crate::quoted::is_printed;
use crate::tail::add_sender;
use crate::{Arrival, Look};
use osc_atoms::Fault;
use std::alloc::{AllocError, Global};

/// How many bytes of a datagram are shown.
const MOST_BYTES: usize = 20;

/// Adds the line of a datagram that is no packet: its first 20 bytes, how many it has, and its
/// first fault in words (docs/FORMATS.md, "Kinds of faults"). It is shown whatever is left out. An
/// `Err` means out of memory.
pub fn refusal_line(
    text: &mut Vec<u8>,
    look: Look,
    arrival: Arrival,
    datagram: &[u8],
    fault: Fault,
) -> Result<(), AllocError>
    ensures ok { OnOk result
        (text.new.items ≡ text.old.items ++ refusal_text look arrival datagram.now fault) }
    ensures err { OnErr result (text.new.items ≡ text.old.items) }
{
    let alloc: Global = *text.allocator();
    let mut front = Vec::new(alloc);
    add_head(&mut front, look, arrival.moment, b'!', b' ')?;
    add_datagram(&mut front, datagram)?;
    let mut tail = Vec::new(alloc);
    add_refusal(&mut tail, fault)?;
    add_sender(&mut tail, arrival.sender)?;
    let mut line = Vec::new(alloc);
    add_line(&mut line, look.colours, b'!', &front, &tail)?;
    text.extend_from_slice(&line)
}

/// Adds the first bytes, and how many there are.
fn add_datagram(out: &mut Vec<u8>, datagram: &[u8]) -> Result<(), AllocError>
    ensures { OnOk result (out.new.items ≡ out.old.items ++ datagram_text datagram.now) }
{
    add_dotted(out, front(datagram, MOST_BYTES))?;
    add_count(out, datagram.len())
}

/// Adds bytes, those that can't be printed as full stops.
fn add_dotted(out: &mut Vec<u8>, bytes: &[u8]) -> Result<(), AllocError>
    ensures { OnOk result (out.new.items ≡ out.old.items ++ map dotted bytes.now) }
{
    for byte in bytes {
        add_byte(out, dotted(*byte))?;
    }
    Ok(())
}

fn dotted(byte: u8) -> u8
    ensures { result ≡ dotted byte }
{
    if is_printed(byte) { byte } else { b'.' }
}

fn add_count(out: &mut Vec<u8>, count: usize) -> Result<(), AllocError>
    ensures { OnOk result (out.new.items ≡ out.old.items ++ bytes_text count) }
{
    if count == 1 {
        return add(out, b" (1 byte)");
    }
    add(out, b" (")?;
    add_thousands(out, count as u64)?;
    add(out, b" bytes)")
}

/// Adds where it is wrong, and what.
fn add_refusal(out: &mut Vec<u8>, fault: Fault) -> Result<(), AllocError>
    ensures { OnOk result (out.new.items ≡ out.old.items ++ refusal_words fault) }
{
    add(out, b"no packet, byte ")?;
    add_thousands(out, u64::from(fault.at))?;
    add(out, b": ")?;
    add(out, fault_words(fault.kind))
}

/// What is wrong, by the number of the fault.
#[tactic(auto, unfolding(crate::specs::Refusals::fault_words))]
fn fault_words(kind: u8) -> &'static [u8]
    ensures { result.now ≡ fault_words kind }
{
    match kind {
        Fault::EMPTY => b"it is empty",
        Fault::NOT_FOUR => b"its size is no multiple of 4",
        Fault::TOO_LONG => b"it is over 65,504 bytes",
        Fault::START => b"no slash and no # begins it",
        Fault::BUNDLE_WORD => b"#bundle is misspelt",
        Fault::BUNDLE_HEAD => b"a bundle has no whole time tag",
        Fault::ELEMENT_SIZE => b"a size in a bundle is wrong",
        Fault::UNTERMINATED => b"a text has no end",
        Fault::PADDING => b"padding isn't zero",
        Fault::PATTERN_BYTE => b"no address has such a byte",
        Fault::PATTERN_OPEN => b"a bracket isn't closed",
        Fault::NO_TAGS => b"it has no type tags",
        Fault::BLOB_SIZE => b"the size of a blob is wrong",
        Fault::SHORT => b"an argument is cut off",
        Fault::BRACKETS => b"array brackets don't match",
        Fault::LEFT_OVER => b"bytes are left over",
        Fault::TOO_DEEP => b"bundles lie over 16 deep",
        Fault::TAG_BEFORE => b"a bundle in a bundle is for an earlier time",
        _ => b"it is no packet",
    }
}
