// Addresses of members of groups, and patterns that match some of them.
ghost use Rattle.std.specs.Prelude.{◌≡◌, ◌≤◌, IfOk, IsTrue, length, string_bytes};
ghost use Rattle.osc_atoms.specs.Atoms.{has_no_zero};
ghost use Rattle.osc_script.specs.Generated;

use std::alloc::{AllocError, Global};

/// The address of a member of a group.
#[tactic(auto, using(crate::proofs::Packed::patterns))]
pub(crate) fn member_of(alloc: Global, group: u64, member: u64) -> Result<String, AllocError>
    ensures text { IfOk result (λ text. string_bytes text ≡ Generated.member_of group member) }
    ensures plain { IfOk result (λ text. IsTrue (has_no_zero (string_bytes text))) }
    ensures short { IfOk result (λ text. length (string_bytes text) ≤ 60) }
{
    format!(in alloc; "/g{group}/n{member}")
}

/// The pattern of all members of a group.
#[tactic(auto, using(crate::proofs::Packed::patterns))]
pub(crate) fn all_of(alloc: Global, group: u64) -> Result<String, AllocError>
    ensures text { IfOk result (λ text. string_bytes text ≡ Generated.all_of group) }
    ensures plain { IfOk result (λ text. IsTrue (has_no_zero (string_bytes text))) }
    ensures short { IfOk result (λ text. length (string_bytes text) ≤ 60) }
{
    format!(in alloc; "/g{group}/*")
}

/// The pattern of the members of this name in each group.
#[tactic(auto, using(crate::proofs::Packed::patterns))]
pub(crate) fn any_with(alloc: Global, member: u64) -> Result<String, AllocError>
    ensures text { IfOk result (λ text. string_bytes text ≡ Generated.any_with member) }
    ensures plain { IfOk result (λ text. IsTrue (has_no_zero (string_bytes text))) }
    ensures short { IfOk result (λ text. length (string_bytes text) ≤ 60) }
{
    format!(in alloc; "/g?/n{member}")
}
