//! The units of a packet, one after another.
ghost use Rattle.std.specs.Prelude.{◌≡◌, None};
ghost use Rattle.osc_packet.specs.Reading.{packet_fault, units_read};

use crate::Unit;
use crate::checks::{IMMEDIATELY, bundle_elements, bundle_tag, is_bundle};
use crate::content::Content;
use crate::limits::{BUNDLE_HEAD, MAX_DEPTH};
use crate::walk::{OpenBundle, Walk, next_unit};
use std::marker::Model;

/// The units of a packet that are left: a bundle's own before those of the bundles in it, which follow in the order of
/// the packet. A contract sees them as a list.
#[derive(Drop)]
pub struct Units<'a> {
    /// The unit of the whole packet, while it isn't given.
    first: Option<Unit<'a>>,
    bytes: &'a [u8],
    walk: Walk,
}

impl<'a> Model for Units<'a> {
    ghost use Rattle.osc_atoms.specs.declared.limits.TheConstants.{MAX_PACKET};
    ghost use Rattle.osc_packet.specs.declared.limits.TheConstants.{MAX_DEPTH};
    ghost use Rattle.std.specs.Prelude.{List, ◌++◌, ◌≤◌, length};
    ghost use Rattle.std.specs.Option.{option_to_list};
    ghost use Rattle.osc_packet.specs.Units.{TimedUnit};

    ghost Value = { List TimedUnit };

    ghost use Rattle.osc_packet.specs.Walks.{units_from, IsWalk};

    ghost view = { λ u. option_to_list u.first
        ++ units_from u.bytes.now u.walk.bundles u.walk.depth u.walk.place };

    ghost invariant = { λ u. (length u.bytes.now ≤ MAX_PACKET) × (u.walk.depth ≤ MAX_DEPTH)
        × IsWalk u.bytes.now u.walk.bundles u.walk.depth u.walk.place };
}

impl<'a> Units<'a> {
    ghost use Rattle.osc_atoms.specs.declared.limits.TheConstants.{MAX_PACKET};
    ghost use Rattle.std.specs.Prelude.{◌≡◌, None, true, false};
    ghost use Rattle.osc_packet.specs.Reading.{packet_fault, units_read};
    ghost use Rattle.osc_packet.specs.Reading;

    pub(crate) fn new(bytes: &'a [u8]) -> Units<'a>
        requires { packet_fault MAX_PACKET bytes.now ≡ None }
        ensures { result ≡ units_read bytes.now }
    {
        if is_bundle(bytes) {
            Units::of_bundle(bytes)
        } else {
            Units::of_message(bytes)
        }
    }

    fn of_message(bytes: &'a [u8]) -> Units<'a>
        requires packet { packet_fault MAX_PACKET bytes.now ≡ None }
        requires message { Reading.is_bundle bytes.now ≡ false }
        ensures { result ≡ units_read bytes.now }
    {
        Units {
            first: Some(Unit::new(IMMEDIATELY, Content::Alone(bytes))),
            bytes,
            walk: Walk {
                bundles: [OpenBundle { end: 0, tag: 0 }; MAX_DEPTH],
                depth: 0,
                place: 0,
            },
        }
    }

    fn of_bundle(bytes: &'a [u8]) -> Units<'a>
        requires packet { packet_fault MAX_PACKET bytes.now ≡ None }
        requires bundle { Reading.is_bundle bytes.now ≡ true }
        ensures { result ≡ units_read bytes.now }
    {
        let tag = bundle_tag(bytes);
        let mut bundles = [OpenBundle { end: 0, tag: 0 }; MAX_DEPTH];
        bundles[0] = OpenBundle {
            end: bytes.len(),
            tag,
        };
        Units {
            first: Some(Unit::new(tag, Content::Among(bundle_elements(bytes)))),
            bytes,
            walk: Walk {
                bundles,
                depth: 1,
                place: BUNDLE_HEAD,
            },
        }
    }
}

impl<'a> Iterator for Units<'a> {
    type Item = Unit<'a>;

    ghost use Rattle.std.specs.Iterator.{YieldsFirst, item_count};

    ghost next_gives = { YieldsFirst (λ left. left) };

    ghost remaining = { item_count (λ left. left) };

    fn next(&mut self) -> Option<Unit<'a>> {
        if let Some(unit) = self.first.take() {
            return Some(unit);
        }
        next_unit(self.bytes, &mut self.walk)
    }
}
