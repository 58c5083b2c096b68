// Reads what a line says.
ghost use Rattle.std.specs.Prelude.{◌≡◌, length, IfOk};
ghost use Rattle.std.specs.List.{concat};
ghost use Rattle.std.specs.Option.{option_copied};
ghost use Rattle.osc_script.specs.Words.{words_of};
ghost use Rattle.hex.specs.Hex.{decode_of};
ghost use Rattle.osc_script.specs.declared.fault.ScriptFaultKind.TheVariants as kinds;
ghost use Rattle.osc_script.specs.Acts;
ghost use Rattle.osc_script.specs.Acts.{act_of, served_of, only_one, address_of, decoded};
ghost use Rattle.osc_script.specs.Acts.{packet_of, moment_of, pump_of};
ghost use Rattle.osc_script.specs.Answers.{Says};

use crate::act::Act;
use crate::digits::read_digits;
use crate::fault::{LineRefusal, ScriptFaultKind};
use crate::words::next_word;
use hex::{FromHex, FromHexError};
use osc_atoms::Bytes;
use osc_pattern::{Address, AddressFault};
use std::alloc::{AllocError, Global};

/// What a word and the words after it say.
#[tactic(auto, unfolding(crate::specs::Acts::act_of))]
pub(crate) fn read_act(
    alloc: Global,
    word: &[u8],
    operands: &[u8],
) -> Result<Act, LineRefusal<ScriptFaultKind>>
    ensures { Says result (act_of word.now (words_of operands.now)) }
{
    if word == b"add".as_slice() {
        return Ok(Act::Add(read_address(alloc, operands)?));
    }
    if word == b"remove".as_slice() {
        return Ok(Act::Remove(read_address(alloc, operands)?));
    }
    if word == b"send".as_slice() {
        return Ok(Act::Send(read_packet(alloc, operands)?));
    }
    if word == b"tick".as_slice() {
        return Ok(Act::Tick(read_moment(operands)?));
    }
    if word == b"pump".as_slice() {
        return read_pump(operands);
    }
    Err(LineRefusal::Kind(ScriptFaultKind::Word))
}

/// What a word and the words after it say in mode `Serve`.
#[tactic(auto, unfolding(crate::specs::Acts::served_of))]
pub(crate) fn read_served(
    alloc: Global,
    word: &[u8],
    operands: &[u8],
) -> Result<Act, LineRefusal<ScriptFaultKind>>
    ensures { Says result (served_of word.now (words_of operands.now)) }
{
    if word == b"add".as_slice() {
        return read_act(alloc, word, operands);
    }
    if !is_known(word) {
        return Err(LineRefusal::Kind(ScriptFaultKind::Word));
    }
    if has_count(word, operands) {
        Err(LineRefusal::Kind(ScriptFaultKind::NotHere))
    } else {
        Err(LineRefusal::Kind(ScriptFaultKind::Count))
    }
}

/// Whether lines begin with the word.
fn is_known(word: &[u8]) -> bool
    ensures { result ≡ Acts.is_known word.now }
{
    word == b"add".as_slice()
        || word == b"remove".as_slice()
        || word == b"send".as_slice()
        || word == b"tick".as_slice()
        || word == b"pump".as_slice()
}

/// Whether as many words stand after a known word as it takes.
fn has_count(word: &[u8], operands: &[u8]) -> bool
    ensures { result ≡ Acts.has_count word.now (length (words_of operands.now)) }
{
    if word == b"send".as_slice() {
        return true;
    }
    if word == b"add".as_slice() || word == b"remove".as_slice() || word == b"tick".as_slice() {
        return only_word(operands).is_some();
    }
    next_word(operands).is_none()
}

fn read_address(alloc: Global, operands: &[u8]) -> Result<Address, LineRefusal<ScriptFaultKind>>
    ensures { Says result (address_of (words_of operands.now)) }
{
    let operand = only_word(operands).ok_or(LineRefusal::Kind(ScriptFaultKind::Count))?;
    match Address::read(alloc, operand) {
        Ok(address) => Ok(address),
        Err(AddressFault::NoMemory) => Err(LineRefusal::NoMemory),
        Err(_) => Err(LineRefusal::Kind(ScriptFaultKind::Address)),
    }
}

/// The bytes of a packet's digits, which stand in one word mostly.
#[tactic(auto, using(crate::proofs::Pairs::digits))]
fn read_packet(alloc: Global, operands: &[u8]) -> Result<Bytes, LineRefusal<ScriptFaultKind>>
    ensures { Says result (packet_of (words_of operands.now)) }
{
    if let Some(bytes) = read_digits(alloc, operands)? {
        return Ok(Bytes::of(bytes));
    }
    match only_word(operands) {
        Some(digits) => decoded(alloc, digits),
        None => decoded(alloc, joined(alloc, operands)?.as_slice()),
    }
}

/// The bytes of hexadecimal digits.
fn decoded(alloc: Global, digits: &[u8]) -> Result<Bytes, LineRefusal<ScriptFaultKind>>
    ensures { Says result (decoded kinds.Hex (decode_of digits.now)) }
{
    match hex::decode(alloc, digits) {
        Ok(bytes) => Ok(Bytes::of(bytes)),
        Err(FromHexError::OutOfMemory) => Err(LineRefusal::NoMemory),
        Err(_) => Err(LineRefusal::Kind(ScriptFaultKind::Hex)),
    }
}

fn read_moment(operands: &[u8]) -> Result<u64, LineRefusal<ScriptFaultKind>>
    ensures { Says result (moment_of (words_of operands.now)) }
{
    let operand = only_word(operands).ok_or(LineRefusal::Kind(ScriptFaultKind::Count))?;
    match <[u8; 8] as FromHex>::from_hex(operand) {
        Ok(bytes) => Ok(u64::from_be_bytes(bytes)),
        Err(_) => Err(LineRefusal::Kind(ScriptFaultKind::Tag)),
    }
}

fn read_pump(operands: &[u8]) -> Result<Act, LineRefusal<ScriptFaultKind>>
    ensures { Says result (pump_of (words_of operands.now)) }
{
    match next_word(operands) {
        Some(_) => Err(LineRefusal::Kind(ScriptFaultKind::Count)),
        None => Ok(Act::Pump),
    }
}

/// The one operand, where there is one and no more.
fn only_word(operands: &[u8]) -> Option<&[u8]>
    ensures { option_copied result ≡ only_one (words_of operands.now) }
{
    let (word, after) = next_word(operands)?;
    match next_word(after) {
        Some(_) => None,
        None => Some(word),
    }
}

/// The words without the spaces between them.
fn joined(alloc: Global, words: &[u8]) -> Result<Vec<u8>, AllocError>
    ensures { IfOk result (λ digits. digits.items ≡ concat (words_of words.now)) }
{
    let mut digits = Vec::with_capacity(alloc, words.len())?;
    let mut rest = words;
    while let Some((word, after)) = next_word(rest) {
        digits.extend_from_slice(word)?;
        rest = after;
    }
    Ok(digits)
}
