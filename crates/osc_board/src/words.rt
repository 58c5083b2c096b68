// The words of a message's arguments, as they are printed.
ghost use Rattle.std.specs.Prelude.{◌≡◌, IfOk};
ghost use Rattle.osc_message.specs.Arguments.{message_arguments};
ghost use Rattle.osc_print.specs.Words.{argument_words};
ghost use Rattle.osc_board.specs.Words as spec;

use osc_atoms::Bytes;
use osc_message::Message;
use osc_packet::MAX_PACKET;
use osc_print::Text;
use std::alloc::{AllocError, Global};

/// A space and a word for each argument of a message; nothing for bytes that are no message.
pub(crate) fn words_of(alloc: Global, message: &[u8]) -> Result<Bytes, AllocError>
    ensures { IfOk result (λ words. words ≡ spec.words_of message.now) }
{
    match Message::check(message, MAX_PACKET) {
        Ok(message) => words_in(alloc, &message),
        Err(_) => Bytes::copied(alloc, b""),
    }
}

fn words_in(alloc: Global, message: &Message<'_>) -> Result<Bytes, AllocError>
    ensures { IfOk result (λ words. words ≡ argument_words (message_arguments message.now)) }
{
    let mut text = Text::open(alloc);
    text.space_arguments(message)?;
    Ok(Bytes::of(text.into_bytes()))
}
