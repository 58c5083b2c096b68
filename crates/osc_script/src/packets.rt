// Packets of one message, and of bundles.
ghost use Rattle.std.specs.Prelude.{◌≡◌, ◌++◌, ◌<◌, ◌≤◌, ◌^◌, IfOk, IsTrue, OnOk, length};
ghost use Rattle.osc_atoms.specs.Atoms.{has_no_zero};
ghost use Rattle.osc_script.specs.Generated;

use osc_atoms::{put_string, put_tag, put_word};
use std::alloc::{AllocError, Global};

/// A message with one integer.
#[tactic(auto, using(crate::proofs::Packed::small_message))]
pub(crate) fn message(alloc: Global, pattern: &str, value: u32) -> Result<Vec<u8>, AllocError>
    requires plain { IsTrue (has_no_zero pattern.now) }
    requires short { length pattern.now ≤ 60 }
    ensures packet { IfOk result (λ packet. packet.items ≡ Generated.message pattern.now value) }
    ensures small { IfOk result (λ packet. length packet.items ≤ 80) }
{
    let mut packet = Vec::new(alloc);
    put_string(&mut packet, pattern.as_bytes())?;
    put_string(&mut packet, b",i")?;
    put_word(&mut packet, value)?;
    Ok(packet)
}

/// Adds an element of a bundle, after its size.
pub(crate) fn put_element(elements: &mut Vec<u8>, packet: &[u8]) -> Result<(), AllocError>
    requires { length packet.now < 2 ^ 32 }
    ensures { OnOk result
        (elements.new.items ≡ elements.old.items ++ Generated.element packet.now) }
{
    put_word(elements, packet.len() as u32)?;
    elements.extend_from_slice(packet)
}

/// A bundle of elements.
pub(crate) fn bundle(alloc: Global, moment: u64, elements: &[u8]) -> Result<Vec<u8>, AllocError>
    ensures { IfOk result (λ packet. packet.items ≡ Generated.bundle moment elements.now) }
{
    let mut packet = Vec::new(alloc);
    put_string(&mut packet, b"#bundle")?;
    put_tag(&mut packet, moment)?;
    packet.extend_from_slice(elements)?;
    Ok(packet)
}
