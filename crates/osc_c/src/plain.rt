//! Calls without a server.
ghost use Rattle.osc_atoms.specs.declared.limits.TheConstants.{MAX_PACKET};
ghost use Rattle.std.specs.Prelude.{◌≡◌};
ghost use Rattle.osc_packet.specs.Reading.{packet_fault};
ghost use Rattle.osc_c.specs.Plain.{packet_answered};

use crate::answer::Answer;
use crate::shown::{fault_shown, told};
use crate::status;
use osc_packet::{MAX_PACKET, Packet};

/// Whether the bytes are one packet, and else the first fault.
#[unsafe(no_mangle)]
pub extern "C" fn osc_packet_check(bytes: &[u8]) -> Answer
    ensures { result ≡ packet_answered (packet_fault MAX_PACKET bytes.now) }
{
    match Packet::check(bytes, MAX_PACKET) {
        Ok(_) => told(status::OK),
        Err(fault) => fault_shown(fault),
    }
}
