// The packet of a unit that waits.
ghost use Rattle.std.specs.Prelude.{◌≡◌, ◌<◌, ◌++◌, ◌^◌, length, IfOk, OnOk};
ghost use Rattle.std.specs.List.{AllByRecursion};
ghost use Rattle.osc_packet.specs.Bundling.{sized, bundled};
ghost use Rattle.osc_carry.specs.Carried.{packet_of as unit_packet};
ghost use Rattle.osc_carry.specs.Waiting.{AreShort};

use osc_story::{KeptMessage, Waiting};
use std::alloc::{AllocError, Global};

/// Its message alone, or the bundle of its messages.
pub(crate) fn packet_of(alloc: Global, unit: &Waiting) -> Result<Vec<u8>, AllocError>
    requires { AreShort unit.now.2.unit.messages }
    ensures { IfOk result (λ packet. packet.items ≡ unit_packet unit.now.2.unit) }
{
    match unit.messages() {
        [message] if unit.tag() == 1 => Vec::from_slice(alloc, message.as_slice()),
        messages => bundle_of(alloc, unit.tag(), messages),
    }
}

/// The bundle of messages with a tag.
fn bundle_of(alloc: Global, tag: u64, messages: &[KeptMessage]) -> Result<Vec<u8>, AllocError>
    requires { AreShort messages.now }
    ensures { IfOk result
        (λ packet. packet.items ≡ bundled (record { tag = tag; messages = messages.now })) }
{
    let mut packet = Vec::from_slice(alloc, b"#bundle\0")?;
    packet.extend_from_slice(&tag.to_be_bytes())?;
    for message in messages {
        put_element(&mut packet, message.as_slice())?;
    }
    Ok(packet)
}

/// Adds a message after its size.
fn put_element(packet: &mut Vec<u8>, message: &[u8]) -> Result<(), AllocError>
    requires { length message.now < 2 ^ 32 }
    ensures { OnOk result (packet.new.items ≡ packet.old.items ++ sized message.now) }
{
    packet.extend_from_slice(&(message.len() as u32).to_be_bytes())?;
    packet.extend_from_slice(message)
}
