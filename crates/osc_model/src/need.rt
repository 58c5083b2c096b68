//! Which units of a packet are kept, and what they need.
ghost use Rattle.std.specs.Prelude.{◌≡◌, ◌+◌, ◌<◌, ◌≤◌, ◌^◌, ◌∷◌, [], length};
ghost use Rattle.osc_packet.specs.Reading.{units_read};
ghost use Rattle.osc_packet.specs.Units.{blocks_of};
ghost use Rattle.osc_model.specs.Step.{is_kept, is_late, kept};

use crate::late::Late;
use osc_packet::{Packet, Unit};

/// How many units a packet has, how many places those of them take in the queue that are kept, and how many blocks
/// their messages.
#[derive(Clone, Copy, Debug, PartialEq, Eq)]
pub struct Need {
    pub count: u32,
    pub places: u32,
    pub blocks: u32,
}

/// Whether a unit is kept that is submitted at this clock.
pub fn keeps(late: Late, clock: u64, unit: &Unit<'_>) -> bool
    ensures { result ≡ is_kept late clock unit.now }
{
    match late {
        Late::Deliver => true,
        Late::Discard => !is_late(clock, unit.tag()),
    }
}

/// What the units of a packet need that are kept at this clock.
pub fn need_of(late: Late, clock: u64, packet: &Packet<'_>) -> Need
    ensures count { result.count ≡ length (units_read packet.now) }
    ensures places { result.places ≡ length (kept late clock (units_read packet.now)) }
    ensures blocks { result.blocks ≡ blocks_of (kept late clock (units_read packet.now)) }
    ensures few { result.places ≤ length (units_read packet.now) }
{
    // The packet is valid, as it tells.
    let _ = packet.bytes();
    let mut need = Need {
        count: 0,
        places: 0,
        blocks: 0,
    };
    if let Some(unit) = packet.alone() {
        return with_unit(need, late, clock, &unit);
    }
    for unit in packet.units() {
        need = with_unit(need, late, clock, &unit);
    }
    need
}

/// Whether a unit with this effective tag is late at a clock.
pub fn is_late(clock: u64, tag: u64) -> bool
    ensures { result ≡ is_late clock (record { tag = tag; messages = [] }) }
{
    tag != 1 && tag < clock
}

/// What is needed where a unit joins that may be kept.
fn with_unit(need: Need, late: Late, clock: u64, unit: &Unit<'_>) -> Need
    requires count { need.count + 1 < 2 ^ 32 }
    requires places { need.places + length (kept late clock (unit.now ∷ [])) < 2 ^ 32 }
    requires blocks { need.blocks + blocks_of (kept late clock (unit.now ∷ [])) < 2 ^ 32 }
    ensures count { result.count ≡ need.count + 1 }
    ensures places { result.places ≡ need.places + length (kept late clock (unit.now ∷ [])) }
    ensures blocks { result.blocks ≡ need.blocks + blocks_of (kept late clock (unit.now ∷ [])) }
{
    let count = need.count + 1;
    if keeps(late, clock, unit) {
        Need {
            count,
            places: need.places + 1,
            blocks: need.blocks + unit.blocks(),
        }
    } else {
        Need { count, ..need }
    }
}
