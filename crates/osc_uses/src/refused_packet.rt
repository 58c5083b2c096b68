//! Bytes that may be no packet: the first fault is told by its kind and its place, and the server stays as it was.
ghost use Rattle.osc_atoms.specs.declared.limits.TheConstants.{MAX_PACKET};
ghost use Rattle.std.specs.Prelude.{◌≡◌, ◌↔◌, [], ◌∷◌, IsOk, IfOk, IfErr, OnOk, OnErr};
ghost use Rattle.osc_packet.specs.Packets.{IsPacket};
ghost use Rattle.osc_packet.specs.Wants.{FirstFault};
ghost use Rattle.osc_model.specs.Events.{submit};
ghost use Rattle.osc_model.specs.History.{stepped_in};
ghost use Rattle.osc_core.specs.Answers.{submitted_of};
ghost use Rattle.osc_uses.specs.Played.{played};

use osc_atoms::Fault;
use osc_core::{Core, Submitted};
use osc_method::Method;
use osc_packet::{MAX_PACKET, Packet};

/// Submits the packet that the bytes are. Where they are none, their first fault is told (docs/FORMATS.md, "Packets").
pub fn submit_bytes<M: Method>(core: &mut Core<M>, bytes: &[u8]) -> Result<Submitted, Fault>
    ensures exact { IsOk result ↔ IsPacket MAX_PACKET bytes.now }
    ensures fault { IfErr result (λ fault. FirstFault bytes.now MAX_PACKET fault) }
    ensures unchanged { OnErr result (core.new ≡ core.old) }
    ensures submitted { IfOk result (λ submitted. submitted_of submitted
        ≡ (stepped_in core.old.performance (submit bytes.now)).answer) }
    ensures performance { OnOk result (core.new.performance
        ≡ played core.old.performance (submit bytes.now ∷ [])) }
{
    let packet = Packet::check(bytes, MAX_PACKET)?;
    Ok(core.submit(0, &packet))
}
