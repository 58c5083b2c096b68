//! How much room what is carried on takes.
ghost use Rattle.std.specs.Prelude.{◌≡◌, nat_le};
ghost use Rattle.osc_chain.specs.Rooms.{carried_most};

use osc_record::Caps;

/// How many bytes of recording what is carried on takes at most, by the limits of the server
/// (`osc_chain_laws::laws::the_limits_are_room_enough`).
pub fn carried_most(caps: Caps) -> u64
    ensures { result ≡ carried_most caps }
{
    let methods = 299 * u64::from(caps.methods());
    let units = 119 * u64::from(caps.units());
    let blocks = 64 * u64::from(caps.blocks());
    108 + methods + units + blocks
}

/// Whether a recording has room for it.
pub fn has_room(caps: Caps) -> bool
    ensures { result ≡ nat_le (carried_most caps) caps.recording }
{
    carried_most(caps) <= u64::from(caps.recording())
}
