// A unit that waits for its time tag.
ghost use Rattle.std.specs.Prelude.{IfOk};
ghost use Rattle.osc_console.specs.Agenda.{IsPackedUnit};

use osc_atoms::Bytes;
use osc_packet::{Bundler, Packet, Unit};
use std::alloc::{AllocError, Global};
use std::marker::Model;
use std::net::SocketAddrV4;

/// A unit that waits for its time tag, copied into a packet of its own, and who has sent it. A
/// contract sees the unit and the sender.
#[derive(Drop)]
pub(crate) struct Awaited {
    pub(crate) sender: Option<SocketAddrV4>,
    pub(crate) tag: u64,
    packet: Bytes,
}

impl Model for Awaited {
    ghost use Rattle.osc_console.specs.Agenda.{Waiter, unit_in, IsPacked};

    ghost Value = { Waiter };

    ghost view = { λ a. record { sender = a.sender; unit = unit_in a.tag a.packet } };

    ghost invariant = { λ a. IsPacked a.tag a.packet };
}

impl Awaited {
    ghost use Rattle.std.specs.Prelude.{◌≡◌, IfOk};

    /// A copy of the unit. An `Err` means out of memory.
    pub(crate) fn of(
        alloc: Global,
        sender: Option<SocketAddrV4>,
        unit: &Unit<'_>,
    ) -> Result<Awaited, AllocError>
        ensures { IfOk result (λ one. one ≡ record { sender = sender; unit = unit.now }) }
    {
        Ok(Awaited {
            sender,
            tag: unit.tag(),
            packet: packed(alloc, unit)?,
        })
    }

    /// The unit.
    pub(crate) fn unit(&self) -> Unit<'_>
        ensures { result ≡ self.now.unit }
    {
        match Packet::known(self.packet.as_slice()).units().next() {
            Some(unit) => unit,
            None => unreachable!(),
        }
    }
}

/// The unit as a bundle of its own. It is no longer than the packet that it came in, so an `Err`
/// means out of memory.
fn packed(alloc: Global, unit: &Unit<'_>) -> Result<Bytes, AllocError>
    ensures { IfOk result (λ packet. IsPackedUnit unit.now packet) }
{
    let mut bundle = Bundler::open(alloc, unit.tag())?;
    for message in unit.messages() {
        if bundle.push(&message).is_err() {
            return Err(AllocError);
        }
    }
    bundle.finish()
}
