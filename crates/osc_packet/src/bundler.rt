//! Bundles that are built message by message.
ghost use Rattle.osc_atoms.specs.declared.limits.TheConstants.{MAX_PACKET, MAX_BYTES};
ghost use Rattle.std.specs.Prelude.{◌≡◌, ◌++◌, ◌≤◌, length, IsTrue, IfOk, OnOk, OnErr};
ghost use Rattle.osc_message.specs.Reading.{is_message};
ghost use Rattle.osc_packet.specs.Packets.{bundle_word};
ghost use Rattle.osc_packet.specs.Bundling.{sized, IsSpelled};
ghost use Rattle.osc_atoms.specs.Atoms;

use crate::BundleFault;
use osc_atoms::{Bytes, MAX_PACKET};
use osc_message::Message;
use std::alloc::{AllocError, Global};
use std::marker::Model;

/// A bundle in the making: a time tag, and the messages that were pushed (OSC 1.0, "OSC Bundles"). A contract sees the
/// two.
pub struct Bundler {
    bytes: Vec<u8>,
    alloc: Global,
}

impl Drop for Bundler {
    fn drop(self) {
        let Bundler { bytes: _, alloc: _ } = self;
    }
}

impl Model for Bundler {
    ghost use Rattle.osc_packet.specs.Bundling.{Bundling, IsBundling, bundling_of};

    ghost Value = { Bundling };

    ghost view = { λ b. bundling_of b.bytes.items };

    ghost invariant = { λ b. IsBundling b.bytes.items };
}

impl Bundler {
    ghost use Rattle.osc_atoms.specs.declared.limits.TheConstants.{MAX_PACKET};
    ghost use Rattle.std.specs.Prelude.{◌≡◌, ◌≤◌, ◌<◌, ◌⊎◌, [], ◌∷◌, Err, length, IsTrue, IfOk};
    ghost use Rattle.std.specs.Prelude.{IfErr, OnOk, OnErr, List, map};
    ghost use Rattle.osc_message.specs.Messages.{Form, message_text};
    ghost use Rattle.osc_packet.specs.Packets.{IsPacket, bundle, packet_text};
    ghost use Rattle.osc_packet.specs.Reading.{is_packet, units_read};
    ghost use Rattle.osc_packet.specs.Bundling.{with_message, bundled, elements_of};
    ghost use Rattle.osc_packet.specs.declared.bundle_fault.BundleFault.{BundleFault};

    /// A bundle with this tag and no message.
    pub fn open(alloc: Global, tag: u64) -> Result<Bundler, AllocError>
        ensures { IfOk result (λ bundler. bundler ≡ record { tag = tag; messages = [] }) }
    {
        Ok(Bundler {
            bytes: bundle_head(alloc, tag)?,
            alloc,
        })
    }

    /// Adds the message at the end. Refuses `TooLong` where the bundle would be over 65,504 bytes, then `NoMemory`, and
    /// then nothing has changed.
    pub fn push(&mut self, message: &Message<'_>) -> Result<(), BundleFault>
        ensures ok { OnOk result (self.new ≡ with_message self.old message.now) }
        ensures err { OnErr result (self.new ≡ self.old) }
        ensures refused { MAX_PACKET < length (bundled (with_message self.old message.now))
            → result ≡ Err BundleFault.TooLong }
        ensures cause { IfErr result
            (λ fault. ((fault ≡ BundleFault.TooLong)
            × (MAX_PACKET < length (bundled (with_message self.old message.now))))
            ⊎ (fault ≡ BundleFault.NoMemory)) }
    {
        let bytes = spelled(message);
        if self.bytes.len() + 4 + bytes.len() > MAX_PACKET as usize {
            return Err(BundleFault::TooLong);
        }
        add_element(&mut self.bytes, bytes)?;
        Ok(())
    }

    /// The finished bundle: a packet, which is read as one unit with this tag and these messages.
    pub fn finish(&self) -> Result<Bytes, AllocError>
        ensures text { IfOk result (λ bytes. bytes ≡ bundled self.now) }
        ensures packet { IsPacket MAX_PACKET (bundled self.now) }
        ensures read { IsTrue (is_packet MAX_PACKET (bundled self.now)) }
        ensures unit { units_read (bundled self.now)
            ≡ record { tag = self.now.tag; messages = self.now.messages } ∷ [] }
        ensures written { (forms : List Form) → self.now.messages ≡ map message_text forms
            → bundled self.now ≡ packet_text (bundle self.now.tag (elements_of forms)) }
    {
        crate::laws::of_messages();
        Bytes::copied(self.alloc, &self.bytes)
    }
}

/// The bytes that a bundle begins with.
fn bundle_head(alloc: Global, tag: u64) -> Result<Vec<u8>, AllocError>
    ensures { IfOk result (λ bytes. bytes.items ≡ bundle_word ++ Atoms.tag tag) }
{
    let mut bytes = Vec::from_slice(alloc, b"#bundle\0")?;
    bytes.extend_from_slice(&tag.to_be_bytes())?;
    Ok(bytes)
}

/// The bytes of a message, which are one.
fn spelled<'a>(message: &Message<'a>) -> &'a [u8]
    ensures value { result.now ≡ message.now }
    ensures message { IsSpelled result.now }
{
    let bytes = message.bytes();
    read_is_spelled(bytes);
    bytes
}

/// Bytes that are read as a message are one.
fn read_is_spelled(bytes: &[u8])
    requires { IsTrue (is_message MAX_BYTES bytes.now) }
    ensures { IsSpelled bytes.now }
{
    crate::laws::of_messages();
}

/// Adds an element after its size, or nothing.
fn add_element(bytes: &mut Vec<u8>, element: &[u8]) -> Result<(), AllocError>
    requires small { length element.now ≤ MAX_PACKET }
    ensures ok { OnOk result (bytes.new.items ≡ bytes.old.items ++ sized element.now) }
    ensures err { OnErr result (bytes.new.items ≡ bytes.old.items) }
{
    let before = bytes.len();
    bytes.extend_from_slice(&(element.len() as u32).to_be_bytes())?;
    if let Err(error) = bytes.extend_from_slice(element) {
        bytes.truncate(before);
        return Err(error);
    }
    Ok(())
}
