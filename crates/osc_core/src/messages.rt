// The kept messages of a unit, one after another.
ghost use Rattle.std.specs.Prelude.{◌≡◌, length};
ghost use Rattle.osc_core.specs.Frames.{first_framed, after_framed, BeginsFramed};

use osc_message::Message;
use std::marker::Model;

/// The messages of a unit that are left, in order. A contract sees the bytes of each.
#[derive(Drop)]
pub(crate) struct Messages<'a> {
    bytes: &'a [u8],
}

impl<'a> Model for Messages<'a> {
    ghost use Rattle.std.specs.Prelude.{List, ℕ};
    ghost use Rattle.osc_core.specs.Frames.{messages_in, AreFramed};

    ghost Value = { List (List ℕ) };

    ghost view = { λ m. messages_in m.bytes.now };

    ghost invariant = { λ m. AreFramed m.bytes.now };
}

impl<'a> Messages<'a> {
    ghost use Rattle.std.specs.Prelude.{◌≡◌, ◌<◌, ◌^◌, ◌∷◌, [], length, IfSome};
    ghost use Rattle.osc_core.specs.Frames.{messages_in, AreFramed};

    pub(crate) fn new(bytes: &'a [u8]) -> Messages<'a>
        requires { AreFramed bytes.now }
        ensures value { result ≡ messages_in bytes.now }
        ensures few { length result < 2 ^ 32 }
    {
        Messages { bytes }
    }

    /// The same messages, to go through them once more.
    pub(crate) fn again(&self) -> Messages<'a>
        ensures { result ≡ self.now }
    {
        Messages { bytes: self.bytes }
    }

    /// How many bytes they take, each with its length.
    pub(crate) fn size(&self) -> usize {
        self.bytes.len()
    }

    /// The only message, where there is one.
    pub(crate) fn only(&self) -> Option<Message<'a>>
        ensures { IfSome result (λ message. self.now ≡ message ∷ []) }
    {
        if self.bytes.is_empty() {
            return None;
        }
        let (message, rest) = split_first(self.bytes);
        if !rest.is_empty() {
            return None;
        }
        Some(message)
    }
}

impl<'a> Iterator for Messages<'a> {
    type Item = Message<'a>;

    ghost use Rattle.std.specs.Iterator.{YieldsFirst, item_count};

    ghost next_gives = { YieldsFirst (λ left. left) };

    ghost remaining = { item_count (λ left. left) };

    fn next(&mut self) -> Option<Message<'a>> {
        if self.bytes.is_empty() {
            return None;
        }
        let (message, rest) = split_first(self.bytes);
        self.bytes = rest;
        Some(message)
    }
}

/// The first message, and the bytes after it.
#[inline(always)]
fn split_first(bytes: &[u8]) -> (Message<'_>, &[u8])
    requires { BeginsFramed bytes.now }
    ensures message { result.0 ≡ first_framed bytes.now }
    ensures rest { result.1.now ≡ after_framed bytes.now }
{
    let (word, rest) = bytes.split_at(4);
    let size = u32::from_be_bytes([word[0], word[1], word[2], word[3]]);
    let (message, rest) = rest.split_at(size as usize);
    (Message::known(message), rest)
}
