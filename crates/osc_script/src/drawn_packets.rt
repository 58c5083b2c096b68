// Packets that are drawn.
ghost use Rattle.std.specs.Prelude.{◌≡◌, ◌+◌, ◌<◌, ◌≤◌, ◌^◌, IfOk, IsTrue, OnOk, length};
ghost use Rattle.std.specs.Prelude.{string_bytes};
ghost use Rattle.osc_atoms.specs.Atoms.{has_no_zero};
ghost use Rattle.osc_script.specs.Generated;
ghost use Rattle.osc_script.specs.Draws.{after};

use crate::draws::Draws;
use crate::packets::{bundle, message, put_element};
use crate::patterns::{all_of, any_with, member_of};
use std::alloc::{AllocError, Global};

/// The address of a member of a group, both drawn.
pub(crate) fn drawn_address(alloc: Global, draws: &mut Draws) -> Result<String, AllocError>
    ensures text { IfOk result (λ text. string_bytes text
        ≡ Generated.drawn_address draws.old.number) }
    ensures plain { IfOk result (λ text. IsTrue (has_no_zero (string_bytes text))) }
    ensures short { IfOk result (λ text. length (string_bytes text) ≤ 60) }
    ensures draws { OnOk result (draws.new.number ≡ after 2 draws.old.number) }
{
    let group = draws.below(8);
    let member = draws.below(16);
    member_of(alloc, group, member)
}

/// A message to one member.
pub(crate) fn to_one(alloc: Global, draws: &mut Draws) -> Result<Vec<u8>, AllocError>
    ensures packet { IfOk result (λ packet. packet.items ≡ Generated.to_one draws.old.number) }
    ensures small { IfOk result (λ packet. length packet.items ≤ 80) }
    ensures draws { OnOk result (draws.new.number ≡ after 3 draws.old.number) }
{
    let pattern = drawn_address(alloc, draws)?;
    let value = draws.below(1_000_000);
    message(alloc, pattern.as_str(), value as u32)
}

/// A message to all members of a group.
pub(crate) fn to_all(alloc: Global, draws: &mut Draws) -> Result<Vec<u8>, AllocError>
    ensures packet { IfOk result (λ packet. packet.items ≡ Generated.to_all draws.old.number) }
    ensures small { IfOk result (λ packet. length packet.items ≤ 80) }
    ensures draws { OnOk result (draws.new.number ≡ after 2 draws.old.number) }
{
    let group = draws.below(8);
    let pattern = all_of(alloc, group)?;
    let value = draws.below(1_000_000);
    message(alloc, pattern.as_str(), value as u32)
}

/// A message to the members of one name in all groups.
fn to_any(alloc: Global, draws: &mut Draws) -> Result<Vec<u8>, AllocError>
    ensures packet { IfOk result (λ packet. packet.items ≡ Generated.to_any draws.old.number) }
    ensures small { IfOk result (λ packet. length packet.items ≤ 80) }
    ensures draws { OnOk result (draws.new.number ≡ after 2 draws.old.number) }
{
    let member = draws.below(16);
    let pattern = any_with(alloc, member)?;
    let value = draws.below(1_000_000);
    message(alloc, pattern.as_str(), value as u32)
}

/// A bundle of two messages, at the drawn number after the moment.
#[tactic(auto, unfolding(crate::specs::Generated::two_of))]
pub(crate) fn two_of(alloc: Global, moment: u64, draws: &mut Draws) -> Result<Vec<u8>, AllocError>
    requires { moment < 2 ^ 63 }
    ensures packet { IfOk result (λ packet. packet.items
        ≡ Generated.two_of moment draws.old.number) }
    ensures draws { OnOk result (draws.new.number ≡ after 6 draws.old.number) }
{
    let due = moment + draws.below(4_096);
    let mut elements = Vec::new(alloc);
    let first = to_one(alloc, draws)?;
    put_element(&mut elements, first.as_slice())?;
    let second = to_any(alloc, draws)?;
    put_element(&mut elements, second.as_slice())?;
    bundle(alloc, due, elements.as_slice())
}

/// A bundle of a message and an enclosed bundle, at the drawn number after the moment.
#[tactic(auto, unfolding(crate::specs::Generated::nested_of))]
pub(crate) fn nested_of(
    alloc: Global,
    moment: u64,
    draws: &mut Draws,
) -> Result<Vec<u8>, AllocError>
    requires { moment < 2 ^ 63 }
    ensures packet { IfOk result (λ packet. packet.items
        ≡ Generated.nested_of moment draws.old.number) }
    ensures draws { OnOk result (draws.new.number ≡ after 7 draws.old.number) }
{
    let due = moment + draws.below(4_096);
    let mut elements = Vec::new(alloc);
    let first = to_one(alloc, draws)?;
    put_element(&mut elements, first.as_slice())?;
    let second = at_once(alloc, draws)?;
    put_element(&mut elements, second.as_slice())?;
    bundle(alloc, due, elements.as_slice())
}

/// A bundle of one message with the tag 1.
#[tactic(auto, using(crate::proofs::Packed::small_bundle), unfolding(crate::specs::Generated::at_once))]
fn at_once(alloc: Global, draws: &mut Draws) -> Result<Vec<u8>, AllocError>
    ensures packet { IfOk result (λ packet. packet.items ≡ Generated.at_once draws.old.number) }
    ensures small { IfOk result (λ packet. length packet.items ≤ 120) }
    ensures draws { OnOk result (draws.new.number ≡ after 3 draws.old.number) }
{
    let mut elements = Vec::new(alloc);
    let only = to_one(alloc, draws)?;
    put_element(&mut elements, only.as_slice())?;
    bundle(alloc, 1, elements.as_slice())
}
