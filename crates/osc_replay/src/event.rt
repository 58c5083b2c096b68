// Events that can be played.

use osc_packet::Packet;

/// An event whose packet is valid, or whose address is lawful.
#[derive(Drop)]
pub(crate) enum LawfulEvent<'a> {
    Enrol,
    Submit(Packet<'a>),
    /// An address.
    Add(&'a [u8]),
    Remove(&'a [u8]),
    /// The moment.
    Tick(u64),
    Release,
}
