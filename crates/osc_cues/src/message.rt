// Reads the words after a moment as a message.
ghost use Rattle.osc_pattern.specs.declared.limits.TheConstants.{MAX_PATTERN};
ghost use Rattle.osc_cues.specs.declared.limits.TheConstants.{MAX_SHEET};
ghost use Rattle.std.specs.Prelude.{◌≡◌, ◌≤◌, ◌++◌, ◌∷◌, [], length, IfOk, OnOk, replicate, IsTrue};
ghost use Rattle.osc_pattern.specs.Patterns.{is_pattern};
ghost use Rattle.osc_packet.specs.Bundling.{IsSpelled};
ghost use Rattle.osc_atoms.specs.Atoms.{string};
ghost use Rattle.osc_cues.specs.Cues;
ghost use Rattle.osc_cues.specs.Cues.{moved, argument_at, arguments_at, message_at, words_say};
ghost use Rattle.osc_cues.specs.Cues.{address_read};
ghost use Rattle.osc_cues.specs.Faults.{made};
ghost use Rattle.osc_cues.specs.Words;
ghost use Rattle.osc_cues.specs.Answers.{Says, Argues};
ghost use Rattle.osc_cues.specs.LineAnswers.{ArguesAll};

use crate::address::read_address;
use crate::argument::put_word;
use crate::brackets::brackets_fault;
use crate::fault::{Fault, WordError, WordFault};
use crate::scan::{Span, word_at};
use osc_atoms::{Bytes, string_size};
use osc_pattern::Address;
use std::alloc::{AllocError, Global};

/// A fault of a word that begins at this place.
fn moved_fault(from: usize, fault: WordFault) -> WordFault
    ensures { result ≡ record { at = Cues.place_in from fault.at; fault = fault.fault } }
{
    WordFault {
        at: from.saturating_add(fault.at),
        fault: fault.fault,
    }
}

/// The argument of a word of a line, after those before.
fn put_at(
    alloc: Global,
    line: &[u8],
    span: Span,
    tags: &mut Vec<u8>,
    atoms: &mut Vec<u8>,
) -> Result<(), WordError>
    requires { length line.now ≤ MAX_SHEET }
    ensures { Argues result (argument_at line.now span) tags.old.items atoms.old.items
        tags.new.items atoms.new.items }
{
    match put_word(alloc, word_at(line, span), tags, atoms) {
        Ok(()) => Ok(()),
        Err(WordError::NoMemory) => Err(WordError::NoMemory),
        Err(WordError::Wrong(fault)) => Err(WordError::Wrong(moved_fault(span.from, fault))),
    }
}

/// The arguments of words of a line, each as its tag and its bytes, after those before.
fn put_words(
    alloc: Global,
    line: &[u8],
    spans: &[Span],
    tags: &mut Vec<u8>,
    atoms: &mut Vec<u8>,
) -> Result<(), WordError>
    requires { length line.now ≤ MAX_SHEET }
    ensures { ArguesAll result (arguments_at line.now spans.now) tags.old.items atoms.old.items
        tags.new.items atoms.new.items }
{
    let mut rest = spans;
    while let Some((span, others)) = rest.split_first() {
        match put_at(alloc, line, *span, tags, atoms) {
            Ok(()) => rest = others,
            Err(error) => return Err(error),
        }
    }
    Ok(())
}

/// Adds a text and the zero bytes that end it.
fn add_string(out: &mut Vec<u8>, text: &[u8]) -> Result<(), AllocError>
    ensures { OnOk result (out.new.items ≡ out.old.items ++ string text.now) }
{
    out.extend_from_slice(text)?;
    add_zeros(out, string_size(text.len()) - text.len())
}

fn add_zeros(out: &mut Vec<u8>, count: usize) -> Result<(), AllocError>
    requires { count ≤ 4 }
    ensures { OnOk result (out.new.items ≡ out.old.items ++ replicate count 0) }
{
    out.extend_from_slice(&[0, 0, 0, 0][..count])
}

/// A pattern and tags, each as a string, and the arguments' bytes.
fn joined(alloc: Global, pattern: &[u8], tags: &[u8], atoms: &[u8]) -> Result<Bytes, AllocError>
    ensures { IfOk result
        (λ bytes. bytes ≡ string pattern.now ++ (string tags.now ++ atoms.now)) }
{
    let mut bytes = Vec::new(alloc);
    add_string(&mut bytes, pattern)?;
    add_string(&mut bytes, tags)?;
    bytes.extend_from_slice(atoms)?;
    Ok(Bytes::of(bytes))
}

/// The message of an address and the words of its arguments.
fn read_message(
    alloc: Global,
    line: &[u8],
    spans: &[Span],
    address: &[u8],
) -> Result<Bytes, WordError>
    requires short { length line.now ≤ MAX_SHEET }
    requires pattern { IsTrue (is_pattern address.now) }
    ensures says { Says result (message_at line.now spans.now address.now) }
    ensures message { IfOk result IsSpelled }
{
    let mut tags = Vec::from_slice(alloc, b",")?;
    let mut atoms = Vec::new(alloc);
    if let Err(error) = put_words(alloc, line, spans, &mut tags, &mut atoms) {
        return Err(error);
    }
    if let Some(fault) = brackets_fault(line, spans) {
        return Err(WordError::Wrong(fault));
    }
    Ok(joined(alloc, address, &tags, &atoms)?)
}

/// The address of a word of a line.
fn address_at<'a>(methods: &[Address], line: &'a [u8], span: Span) -> Result<&'a [u8], WordFault>
    requires { length line.now ≤ MAX_SHEET }
    ensures value { made (λ address. address.now) result
        ≡ moved span.from (address_read methods.now (Words.word_at line.now span)) }
    ensures pattern { IfOk result (λ address. IsTrue (is_pattern address.now)) }
{
    match read_address(methods, word_at(line, span)) {
        Ok(address) => Ok(address),
        Err(fault) => Err(moved_fault(span.from, fault)),
    }
}

/// The message of the words after a moment.
pub(crate) fn read_words(
    alloc: Global,
    methods: &[Address],
    line: &[u8],
    spans: &[Span],
) -> Result<Bytes, WordError>
    requires { length line.now ≤ MAX_SHEET }
    ensures says { Says result (words_say methods.now line.now spans.now) }
    ensures message { IfOk result IsSpelled }
{
    match spans {
        [] => Err(WordError::Wrong(WordFault {
            at: line.len(),
            fault: Fault::NoAddress,
        })),
        [span, others @ ..] => match address_at(methods, line, *span) {
            Ok(address) => read_message(alloc, line, others, address),
            Err(fault) => Err(WordError::Wrong(fault)),
        },
    }
}
