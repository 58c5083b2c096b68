//! Units: the messages that are released together.

use crate::UnitMessages;
use crate::content::Content;
use crate::limits::BLOCK_SIZE;
use std::marker::Model;

/// The messages of one bundle that aren't in a bundle enclosed in it, or a message alone (OSC 1.0, "Temporal Semantics
/// and OSC Time Tags"). They are released together. A contract sees the effective tag, and the bytes of each message.
#[derive(Drop)]
pub struct Unit<'a> {
    tag: u64,
    content: Content<'a>,
}

impl<'a> Model for Unit<'a> {
    ghost use Rattle.osc_packet.specs.Units.{TimedUnit};
    ghost use Rattle.osc_packet.specs.Contents.{messages_of, IsSound};

    ghost Value = { TimedUnit };

    ghost view = { λ u. record { tag = u.tag; messages = messages_of u.content } };

    ghost invariant = { λ u. IsSound u.content };
}

impl<'a> Unit<'a> {
    ghost use Rattle.std.specs.Prelude.{◌≡◌, ◌≤◌, ◌∷◌, [], length, IsTrue, IfSome};
    ghost use Rattle.osc_atoms.specs.declared.limits.TheConstants.{MAX_BYTES, MAX_PACKET};
    ghost use Rattle.osc_packet.specs.declared.limits.TheConstants.{MAX_STORED};
    ghost use Rattle.osc_message.specs.Reading.{is_message};
    ghost use Rattle.osc_packet.specs.Units.{stored_size, blocks};
    ghost use Rattle.osc_packet.specs.Contents.{messages_of, IsSound};

    pub(crate) fn new(tag: u64, content: Content<'a>) -> Unit<'a>
        requires { IsSound content }
        ensures { result ≡ record { tag = tag; messages = messages_of content.entry } }
    {
        Unit { tag, content }
    }

    /// The effective time tag. A message alone has 1, "immediately". A bundle in a bundle has its own tag, and where
    /// that is 1 it has the effective tag of the bundle around it.
    pub fn tag(&self) -> u64
        ensures { result ≡ self.now.tag }
    {
        self.tag
    }

    /// The message, where it is one alone.
    pub fn alone(&self) -> Option<&'a [u8]>
        ensures value { IfSome result (λ message. self.now.messages ≡ message.now ∷ []) }
        ensures read { IfSome result (λ message. IsTrue (is_message MAX_BYTES message.now)) }
        ensures small { IfSome result (λ message. length message.now ≤ MAX_PACKET) }
    {
        match self.content {
            Content::Alone(message) => Some(message),
            Content::Among(_) => None,
        }
    }

    /// How many messages there are.
    pub fn count(&self) -> u32
        ensures { result ≡ length self.now.messages }
    {
        let mut rest = self.content;
        let mut count = 0;
        while let Some((_, after)) = rest.split_first() {
            count += 1;
            rest = after;
        }
        count
    }

    /// How many bytes the messages take where they are kept, each after its length in 4 bytes.
    pub fn stored(&self) -> u32
        ensures size { result ≡ stored_size self.now.messages }
        ensures small { result ≤ MAX_STORED }
    {
        if let Content::Alone(message) = self.content {
            return 4 + message.len() as u32;
        }
        let mut rest = self.content;
        let mut size = 0;
        while let Some((message, after)) = rest.split_first() {
            size += 4 + message.len() as u32;
            rest = after;
        }
        size
    }

    /// How many blocks the messages take where they are kept.
    pub fn blocks(&self) -> u32
        ensures value { result ≡ blocks self.now }
        ensures few { result ≤ 1024 }
        ensures small { stored_size self.now.messages ≤ MAX_STORED }
    {
        self.stored().div_ceil(BLOCK_SIZE)
    }

    /// The messages, in the order of the packet.
    pub fn messages(&self) -> UnitMessages<'a>
        ensures { result ≡ self.now.messages }
    {
        UnitMessages::new(self.content)
    }
}
