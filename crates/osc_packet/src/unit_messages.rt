//! The messages of a unit, one after another.
ghost use Rattle.osc_atoms.specs.declared.limits.TheConstants.{MAX_PACKET};
ghost use Rattle.std.specs.Prelude.{◌≡◌, ◌≤◌, length, None};
ghost use Rattle.osc_packet.specs.Reading.{message_fault_at};
ghost use Rattle.osc_packet.specs.Contents.{IsSound};

use crate::content::Content;
use osc_message::Message;
use std::marker::Model;

/// The messages of a unit that are left, in the order of the packet. A contract sees the bytes of each.
#[derive(Drop)]
pub struct UnitMessages<'a> {
    content: Content<'a>,
}

impl<'a> Model for UnitMessages<'a> {
    ghost use Rattle.std.specs.Prelude.{List, ℕ};
    ghost use Rattle.osc_packet.specs.Contents.{messages_of, IsSound};

    ghost Value = { List (List ℕ) };

    ghost view = { λ m. messages_of m.content };

    ghost invariant = { λ m. IsSound m.content };
}

impl<'a> UnitMessages<'a> {
    ghost use Rattle.std.specs.Prelude.{◌≡◌};
    ghost use Rattle.osc_packet.specs.Contents.{messages_of, IsSound};

    pub(crate) fn new(content: Content<'a>) -> UnitMessages<'a>
        requires { IsSound content }
        ensures { result ≡ messages_of content.entry }
    {
        UnitMessages { content }
    }
}

impl<'a> Iterator for UnitMessages<'a> {
    type Item = Message<'a>;

    ghost use Rattle.std.specs.Iterator.{YieldsFirst, item_count};

    ghost next_gives = { YieldsFirst (λ left. left) };

    ghost remaining = { item_count (λ left. left) };

    fn next(&mut self) -> Option<Message<'a>> {
        let (message, rest) = self.content.split_first()?;
        self.content = rest;
        Some(as_message(message))
    }
}

/// The message that the bytes were checked to be.
fn as_message(bytes: &[u8]) -> Message<'_>
    requires message { message_fault_at 0 bytes.now ≡ None }
    requires small { length bytes.now ≤ MAX_PACKET }
    ensures { result ≡ bytes.now }
{
    Message::known(bytes)
}
