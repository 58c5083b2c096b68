//! A method of one's own, and a server that calls it.
ghost use Rattle.osc_atoms.specs.declared.limits.TheConstants.{MAX_PACKET};
ghost use Rattle.std.specs.Prelude.{◌≡◌, false, if◌then◌else◌, [], ◌∷◌, IfOk, OnOk, OnErr, Some};
ghost use Rattle.std.specs.Prelude.{None, IfSome, length};
ghost use Rattle.std.specs.Int.{w32, from_be_bytes};
ghost use Rattle.std.specs.Result.{result_err};
ghost use Rattle.osc_packet.specs.Reading.{packet_fault};
ghost use Rattle.osc_model.specs.Events.{add, submit, release};
ghost use Rattle.osc_model.specs.Recordings.{record_text};
ghost use Rattle.osc_model.specs.Heard.{all_hear};
ghost use Rattle.osc_model.specs.History.{stepped_in, HaveHeard};
ghost use Rattle.osc_laws.specs.Laws.{KeepsTheLaws};
ghost use Rattle.osc_core.specs.Answers.{submitted_of, TellsRelease};
ghost use Rattle.osc_core.specs.Telling.{told};
ghost use Rattle.osc_uses.specs.Played.{opened, played};

use osc_atoms::Fault;
use osc_core::{Closed, Core, Releasing, Submitted};
use osc_method::{Call, Method};
use osc_packet::{MAX_PACKET, Packet};
use osc_pattern::Address;
use osc_record::Caps;
use std::alloc::{AllocError, Global};

/// A fader keeps the last four bytes that it was sent: of a message with the tags `,f` or `,i` these are the number.
#[derive(Clone, Copy, Debug, PartialEq, Eq)]
pub struct Fader {
    sent: bool,
    last: [u8; 4],
}

impl Fader {
    /// A fader that was sent nothing yet.
    pub fn new() -> Fader
        ensures { result.sent ≡ false }
    {
        Fader {
            sent: false,
            last: [0; 4],
        }
    }

    /// The number that it was sent last, as a word: 0x43dc0000 is the float 440.0.
    pub fn level(&self) -> Option<u32>
        ensures value { result
            ≡ (if self.now.sent then Some (from_be_bytes w32 self.now.last) else None) }
        ensures four { IfSome result (λ _. length self.now.last ≡ 4) }
    {
        if self.sent {
            Some(u32::from_be_bytes(self.last))
        } else {
            None
        }
    }
}

impl Method for Fader {
    ghost keep = { λ _. record { most = 4; name = []; outlets = [] } };

    ghost heard = { λ fader. Some (if fader.sent then fader.last else []) };

    fn reset(&mut self) {
        self.sent = false;
    }

    fn invoke(&mut self, call: &Call<'_>) {
        if let Some(last) = call.message.bytes().last_chunk() {
            self.sent = true;
            self.last = *last;
        }
    }

    fn told(&self) -> Option<u32> {
        if self.sent { Some(4) } else { Some(0) }
    }

    fn byte(&self, k: u32) -> u8 {
        if self.sent {
            self.last.get(k as usize).copied().unwrap_or(0)
        } else {
            0
        }
    }
}

/// Submits the packet that the bytes are, and releases the unit that is due first.
pub fn one_packet<M: Method>(
    core: &mut Core<M>,
    bytes: &[u8],
) -> Result<(Submitted, Releasing), Fault>
    ensures fault { result_err result ≡ packet_fault MAX_PACKET bytes.now }
    ensures refused { OnErr result (core.new ≡ core.old) }
    ensures submitted { IfOk result (λ answers. submitted_of answers.0
        ≡ (stepped_in core.old.performance (submit bytes.now)).answer) }
    ensures released { IfOk result (λ answers. TellsRelease answers.1
        (stepped_in (played core.old.performance (submit bytes.now ∷ [])) release).answer) }
    ensures performance { OnOk result (core.new.performance
        ≡ played core.old.performance (submit bytes.now ∷ release ∷ [])) }
    ensures boxes { OnOk result (told M.keep M.heard core.new.boxes.items
        ≡ all_hear
        (stepped_in (played core.old.performance (submit bytes.now ∷ [])) release).invocations
        (told M.keep M.heard core.old.boxes.items)) }
{
    let packet = Packet::check(bytes, MAX_PACKET)?;
    let submitted = core.submit(0, &packet);
    let released = core.release(0);
    Ok((submitted, released))
}

/// A server from its opening to its close: a fader is added at the address, the packet is submitted, and one unit is
/// released. The recording comes out, and the fader, unless its add was refused. The `Err` means out of memory.
pub fn first_run(
    alloc: Global,
    caps: Caps,
    address: Address,
    packet: &Packet<'_>,
) -> Result<Closed<Fader>, AllocError>
    ensures text { IfOk result (λ closed. closed.bytes.items ≡ record_text caps
        (played (opened caps) (add address ∷ submit packet.now ∷ release ∷ [])).history) }
    ensures laws { IfOk result (λ closed. KeepsTheLaws caps
        (played (opened caps) (add address ∷ submit packet.now ∷ release ∷ [])).history) }
    ensures heard { IfOk result (λ closed. HaveHeard
        (played (opened caps) (add address ∷ submit packet.now ∷ release ∷ []))
        (told ⟦<Fader as Method>⟧.keep ⟦<Fader as Method>⟧.heard closed.kept.items)) }
{
    let mut core = Core::open(alloc, caps)?;
    core.add(0, address, Fader::new());
    core.submit(0, packet);
    core.release(0);
    Ok(core.close())
}
