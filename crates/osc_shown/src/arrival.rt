//! When something came, and from whom.
use std::net::SocketAddrV4;

/// When a datagram came, or its unit was released, and who has sent it, as far as that is known.
#[derive(Clone, Copy)]
pub struct Arrival {
    /// A time tag; `None` where no clock has ticked yet.
    pub moment: Option<u64>,
    /// `None` where the link doesn't know it.
    pub sender: Option<SocketAddrV4>,
}
