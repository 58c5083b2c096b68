// Reads the words of a line as a note: its tag, its address, and the message to it.
ghost use Rattle.osc_atoms.specs.declared.limits.TheConstants.{MAX_BYTES};
ghost use Rattle.osc_score.specs.declared.limits.TheConstants.{MAX_SCORE};
ghost use Rattle.std.specs.Prelude.{◌≡◌, ◌≤◌, ◌∷◌, [], ℕ, IsTrue, IfOk, length, ok_or};
ghost use Rattle.std.specs.Prelude.{if◌then◌else◌, Err};
ghost use Rattle.osc_pattern.specs.Addresses.{is_address};
ghost use Rattle.osc_message.specs.Reading.{is_message};
ghost use Rattle.osc_script.specs.Words.{words_of};
ghost use Rattle.osc_script.specs.Acts.{and_then};
ghost use Rattle.osc_score.specs.declared.fault.ScoreFaultKind.TheVariants as kinds;
ghost use Rattle.osc_score.specs.ArgumentWords.{arguments_read};
ghost use Rattle.osc_score.specs.Reading.{note_read, balanced_note};
ghost use Rattle.osc_score.specs.Argued.{ArguesAll, TellsMessage, TellsNote};

use crate::argument::put_word;
use crate::fault::ScoreFaultKind;
use crate::number::read_tag;
use osc_atoms::Bytes;
use osc_message::{are_balanced, message_bytes};
use osc_pattern::{Address, AddressFault};
use osc_script::{LineRefusal, next_word};
use std::alloc::{AllocError, Global};

/// What a line says: a moment, and the message that is sent to an address then.
#[derive(Drop)]
pub(crate) struct Said {
    pub(crate) tag: u64,
    pub(crate) address: Address,
    pub(crate) message: Bytes,
}

/// What the words of a line say, where no tag may be below `least`.
pub(crate) fn read_note(
    alloc: Global,
    least: u64,
    moment: &[u8],
    address: &[u8],
    words: &[u8],
) -> Result<Said, LineRefusal<ScoreFaultKind>>
    requires { length words.now ≤ MAX_SCORE }
    ensures read { TellsNote result (note_read least moment.now address.now (words_of words.now)) }
    ensures message { IfOk result (λ said. IsTrue (is_message MAX_BYTES said.message)) }
{
    match read_tag(moment) {
        Some(tag) => {
            if tag < least {
                return Err(LineRefusal::Kind(ScoreFaultKind::Order));
            }
            read_at(alloc, tag, address, words)
        }
        None => Err(LineRefusal::Kind(ScoreFaultKind::Tag)),
    }
}

/// What the words after a tag say.
fn read_at(
    alloc: Global,
    tag: u64,
    address: &[u8],
    words: &[u8],
) -> Result<Said, LineRefusal<ScoreFaultKind>>
    requires { length words.now ≤ MAX_SCORE }
    ensures read { TellsNote result (if is_address address.now
        then and_then (ok_or (arguments_read (words_of words.now)) kinds.Arg)
        (balanced_note tag address.now)
        else Err kinds.Address) }
    ensures message { IfOk result (λ said. IsTrue (is_message MAX_BYTES said.message)) }
{
    match Address::read(alloc, address) {
        Ok(address) => match read_message(alloc, &address, words) {
            Ok(message) => Ok(Said {
                tag,
                address,
                message,
            }),
            Err(refusal) => Err(refusal),
        },
        Err(AddressFault::NoMemory) => Err(LineRefusal::NoMemory),
        Err(_) => Err(LineRefusal::Kind(ScoreFaultKind::Address)),
    }
}

/// The message to an address, with the arguments of the words.
fn read_message(
    alloc: Global,
    address: &Address,
    words: &[u8],
) -> Result<Bytes, LineRefusal<ScoreFaultKind>>
    requires { length words.now ≤ MAX_SCORE }
    ensures read { (tag : ℕ) → TellsMessage result tag address.now
        (and_then (ok_or (arguments_read (words_of words.now)) kinds.Arg)
        (balanced_note tag address.now)) }
    ensures message { IfOk result (λ message. IsTrue (is_message MAX_BYTES message)) }
{
    osc_message::laws::written_is_read_again();
    osc_pattern::laws::an_address_is_a_pattern();
    osc_pattern::laws::tests_are_exact();
    let mut tags = Vec::from_slice(alloc, b",")?;
    let mut atoms = Vec::new(alloc);
    if let Err(refusal) = put_words(alloc, words, &mut tags, &mut atoms) {
        return Err(refusal);
    }
    if !are_balanced(&tags) {
        return Err(LineRefusal::Kind(ScoreFaultKind::Brackets));
    }
    Ok(Bytes::of(message_bytes(alloc, address.bytes(), &tags, &atoms)?))
}

/// The arguments of the words, each as its tag and its bytes, after those before.
fn put_words(
    alloc: Global,
    words: &[u8],
    tags: &mut Vec<u8>,
    atoms: &mut Vec<u8>,
) -> Result<(), LineRefusal<ScoreFaultKind>>
    requires { length words.now ≤ MAX_SCORE }
    ensures { ArguesAll result (arguments_read (words_of words.now)) tags.old.items
        atoms.old.items tags.new.items atoms.new.items }
{
    let mut rest = words;
    while let Some((word, after)) = next_word(rest) {
        match put_word(alloc, word, tags, atoms) {
            Ok(()) => rest = after,
            Err(refusal) => return Err(refusal),
        }
    }
    Ok(())
}
