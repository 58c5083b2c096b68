//! How many bytes entries have.
ghost use Rattle.osc_model.specs.Limits.{release_head_size};
ghost use Rattle.std.specs.Prelude.{◌≡◌, ◌+◌, ◌*◌, ◌<◌, ◌^◌, length};
ghost use Rattle.osc_atoms.specs.Atoms.{string, blob_end};

use osc_atoms::{blob_size, string_size};

/// How many bytes the entry of an enrolment has.
pub const ENROL_SIZE: u64 = 28;

/// How many bytes the entry of a moment has.
pub const TICK_SIZE: u64 = 48;

/// How many bytes the entry of a release has ahead of its hits, which have 8 each.
pub const RELEASE_HEAD: u64 = 44;

/// How many bytes the entry of a submit of the packet has.
pub fn submit_size(packet: &[u8]) -> u64
    ensures { result ≡ 52 + (length packet.now + blob_end (length packet.now)) }
{
    48 + blob_size(packet.len()) as u64
}

/// How many bytes the entry of an add at the address has.
pub fn add_size(address: &[u8]) -> u64
    ensures { result ≡ 40 + length (string address.now) }
{
    40 + string_size(address.len()) as u64
}

/// How many bytes the entry of a removal at the address has.
pub fn remove_size(address: &[u8]) -> u64
    ensures { result ≡ 36 + length (string address.now) }
{
    36 + string_size(address.len()) as u64
}

/// How many bytes the entry of a release with so many hits has.
pub fn release_size(hits: u64) -> u64
    requires { hits < 2 ^ 48 }
    ensures { result ≡ release_head_size + 8 * hits }
{
    RELEASE_HEAD + 8 * hits
}
