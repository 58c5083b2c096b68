// What a line says.
ghost use Rattle.std.specs.Prelude.{◌≡◌, map};
ghost use Rattle.osc_patch.specs.Entries;
ghost use Rattle.osc_patch.specs.Entries.{line_says, words_say, operands_say, address_of};
ghost use Rattle.osc_patch.specs.Entries.{host_of, port_at, shown_at, sent_to};
ghost use Rattle.osc_patch.specs.Answers.{Says};

use crate::fault::{Fault, WrongLine};
use crate::host::is_host;
use crate::method::Route;
use crate::port::port_of;
use crate::words::cut_words;
use osc_atoms::Bytes;
use osc_pattern::{Address, AddressFault};
use std::alloc::{AllocError, Global};

/// What a line says.
#[derive(Drop)]
pub(crate) struct Entry {
    /// The number of the line, counted from 1.
    pub(crate) line: u32,
    pub(crate) address: Address,
    pub(crate) route: Option<Route>,
}

/// Why a line says nothing.
#[derive(Drop)]
pub(crate) enum LineError {
    NoMemory,
    Wrong(WrongLine),
}

impl From<AllocError> for LineError {
    ghost use Rattle.osc_patch.specs.declared.entry.LineError.TheVariants.{NoMemory};

    ghost from_gives = { λ _ r. r ≡ NoMemory };

    fn from(_error: AllocError) -> LineError {
        LineError::NoMemory
    }
}

/// What the line of this number says; nothing where it is blank or a comment.
pub(crate) fn read_line(alloc: Global, line: u32, text: &[u8]) -> Result<Option<Entry>, LineError>
    ensures { Says result (line_says line text.now) }
{
    let words = cut_words(alloc, text)?;
    read_words(alloc, line, &words)
}

fn read_words(alloc: Global, line: u32, words: &[&[u8]]) -> Result<Option<Entry>, LineError>
    ensures { Says result (words_say line (map (λ word. word.now) words.now)) }
{
    match words {
        [] => Ok(None),
        [act, operands @ ..] if *act == b"add".as_slice() => Ok(Some(read_operands(
            alloc, line, operands,
        )?)),
        [act, ..] => Err(wrong(alloc, line, Fault::UnknownWord, act)),
    }
}

/// What the words after `add` say.
fn read_operands(alloc: Global, line: u32, operands: &[&[u8]]) -> Result<Entry, LineError>
    ensures { Says result (operands_say line (map (λ word. word.now) operands.now)) }
{
    if let [address] = operands {
        return read_shown(alloc, line, address);
    }
    if let [address, host, port] = operands {
        return read_sent(alloc, line, address, host, port);
    }
    Err(wrong(alloc, line, Fault::WordCount, b"add"))
}

/// A method that is only shown.
fn read_shown(alloc: Global, line: u32, address: &[u8]) -> Result<Entry, LineError>
    ensures { Says result (shown_at line address.now) }
{
    let address = read_address(alloc, line, address)?;
    Ok(Entry {
        line,
        address,
        route: None,
    })
}

/// A method whose calls are sent on.
fn read_sent(
    alloc: Global,
    line: u32,
    address: &[u8],
    host: &[u8],
    port: &[u8],
) -> Result<Entry, LineError>
    ensures { Says result (sent_to line address.now host.now port.now) }
{
    let address = read_address(alloc, line, address)?;
    let host = read_host(alloc, line, host)?;
    let port = read_port(alloc, line, port)?;
    Ok(Entry {
        line,
        address,
        route: Some(Route { host, port, line }),
    })
}

fn read_address(alloc: Global, line: u32, word: &[u8]) -> Result<Address, LineError>
    ensures { Says result (address_of line word.now) }
{
    match Address::read(alloc, word) {
        Ok(address) => Ok(address),
        Err(AddressFault::NoMemory) => Err(LineError::NoMemory),
        Err(_) => Err(wrong(alloc, line, address_fault(word), word)),
    }
}

/// The fault of a word that is no address.
fn address_fault(word: &[u8]) -> Fault
    ensures { result ≡ Entries.address_fault word.now }
{
    if is_pattern(word) {
        Fault::Pattern
    } else {
        Fault::Address
    }
}

/// Whether the word has a byte that only a pattern has.
fn is_pattern(word: &[u8]) -> bool
    ensures { result ≡ Entries.is_pattern word.now }
{
    word.iter().any(|byte| b"*?[]{}".contains(byte))
}

fn read_host(alloc: Global, line: u32, word: &[u8]) -> Result<Bytes, LineError>
    ensures { Says result (host_of line word.now) }
{
    if is_host(word) {
        Ok(Bytes::copied(alloc, word)?)
    } else {
        Err(wrong(alloc, line, Fault::Host, word))
    }
}

fn read_port(alloc: Global, line: u32, word: &[u8]) -> Result<u16, LineError>
    ensures { Says result (port_at line word.now) }
{
    match port_of(word) {
        Some(port) => Ok(port),
        None => Err(wrong(alloc, line, Fault::Port, word)),
    }
}

/// The line, with the word that is wrong.
pub(crate) fn wrong(alloc: Global, line: u32, fault: Fault, word: &[u8]) -> LineError
    ensures { Entries.IsWrong result line fault word.now }
{
    match Bytes::copied(alloc, word) {
        Ok(word) => LineError::Wrong(WrongLine { line, fault, word }),
        Err(_) => LineError::NoMemory,
    }
}
