//! Packets, borrowed from their bytes.

use crate::checks::{IMMEDIATELY, check_packet, is_bundle};
use crate::content::Content;
use crate::{Unit, Units};
use osc_atoms::Fault;
use std::marker::Model;

/// A packet: a message, or a bundle with all that it encloses (OSC 1.0, "OSC Packets"). A contract sees its bytes.
#[derive(Drop)]
pub struct Packet<'a> {
    bytes: &'a [u8],
}

impl<'a> Model for Packet<'a> {
    ghost use Rattle.osc_atoms.specs.declared.limits.TheConstants.{MAX_PACKET};
    ghost use Rattle.std.specs.Prelude.{List, ℕ, ◌≡◌, None};
    ghost use Rattle.osc_packet.specs.Reading.{packet_fault};

    ghost Value = { List ℕ };

    ghost view = { λ p. p.bytes.now };

    ghost invariant = { λ p. packet_fault MAX_PACKET p.bytes.now ≡ None };
}

impl<'a> Packet<'a> {
    ghost use Rattle.osc_atoms.specs.declared.limits.TheConstants.{MAX_PACKET};
    ghost use Rattle.std.specs.Prelude.{◌≡◌, ◌≤◌, ◌↔◌, length, IsTrue, IsOk, IfOk, IfErr, is_ok};
    ghost use Rattle.std.specs.Prelude.{◌∷◌, [], IfSome, IsNone};
    ghost use Rattle.std.specs.Result.{result_err};
    ghost use Rattle.osc_atoms.specs.declared.fault.Fault.{Fault};
    ghost use Rattle.osc_packet.specs.Packets.{Packet as Written, packet_text, IsValid, IsPacket};
    ghost use Rattle.osc_packet.specs.Units.{units_of, blocks_of};
    ghost use Rattle.osc_packet.specs.Wants.{FirstFault};
    ghost use Rattle.osc_packet.specs.Reading.{packet_fault, is_packet, units_read};
    ghost use Rattle.osc_packet.specs.Reading;

    /// Accepts exactly one packet of at most `max` bytes, whole, and borrows it. Else tells its first fault, of the
    /// kinds 1 to 18; docs/FORMATS.md has the order of the checks. Takes no memory.
    pub fn check(bytes: &'a [u8], max: u32) -> Result<Packet<'a>, Fault>
        requires { max ≤ MAX_PACKET }
        ensures ok { IfOk result (λ packet. packet ≡ bytes.now) }
        ensures exact { IsOk result ↔ IsPacket max bytes.now }
        ensures read { is_ok result ≡ is_packet max bytes.now }
        ensures fault { IfErr result (λ fault. FirstFault bytes.now max fault) }
        ensures first { (fault : Fault) → FirstFault bytes.now max fault → result ≡ Err fault }
        ensures fault_read { result_err result ≡ packet_fault max bytes.now }
    {
        // What packets are stands on what messages are.
        crate::laws::of_messages();
        check_packet(bytes, max)?;
        Ok(Packet { bytes })
    }

    /// The packet that the bytes were checked to be. Looks at none of them.
    pub fn known(bytes: &'a [u8]) -> Packet<'a>
        requires { IsTrue (is_packet MAX_PACKET bytes.now) }
        ensures { result ≡ bytes.now }
    {
        Packet { bytes }
    }

    /// The only unit, where the packet is a message.
    pub fn alone(&self) -> Option<Unit<'a>>
        ensures only { IfSome result (λ unit. units_read self.now ≡ unit ∷ []) }
        ensures none { IsNone result ↔ IsTrue (Reading.is_bundle self.now) }
    {
        if is_bundle(self.bytes) {
            return None;
        }
        Some(Unit::new(IMMEDIATELY, Content::Alone(self.bytes)))
    }

    /// The whole packet.
    pub fn bytes(&self) -> &'a [u8]
        ensures value { result.now ≡ self.now }
        ensures read { IsTrue (is_packet MAX_PACKET self.now) }
        ensures small { length self.now ≤ MAX_PACKET }
        ensures few { length (units_read self.now) ≤ MAX_PACKET }
    {
        self.bytes
    }

    /// How many units there are, one for each bundle, or one for a message alone.
    pub fn count(&self) -> u32
        ensures value { result ≡ length (units_read self.now) }
        ensures few { result ≤ MAX_PACKET }
    {
        self.units().count() as u32
    }

    /// How many blocks the units take where they are kept, each of which begins one.
    pub fn blocks(&self) -> u32
        ensures { result ≡ blocks_of (units_read self.now) }
    {
        let mut blocks = 0;
        for unit in self.units() {
            blocks += unit.blocks();
        }
        blocks
    }

    /// The units in order, the packet's own first, then those of the enclosed bundles in the order of the packet.
    pub fn units(&self) -> Units<'a>
        ensures value { result ≡ units_read self.now }
        ensures written { (packet : Written) → IsValid MAX_PACKET packet
            → self.now ≡ packet_text packet → result ≡ units_of packet }
        ensures few { length (units_read self.now) ≤ MAX_PACKET }
    {
        crate::laws::units_are_read_again();
        Units::new(self.bytes)
    }
}
