//! What a source of TCP tells the link over it.
use std::net::{Ipv4Addr, SocketAddr, SocketAddrV4};
use std::sync::atomic::{AtomicBool, AtomicU64, Ordering};

/// Who is at the other end of a connection, and whether its last read failed only since no byte
/// came in time. The source and its link are on one thread.
#[derive(Drop)]
pub struct Peer {
    /// The address and the port as one number; 0 where nobody is there.
    address: AtomicU64,
    is_quiet: AtomicBool,
}

impl Peer {
    /// Nobody is there.
    pub fn new() -> Peer {
        Peer {
            address: AtomicU64::new(0),
            is_quiet: AtomicBool::new(false),
        }
    }

    /// Notes who is there, where the address is one of four bytes.
    pub(crate) fn set(&self, peer: SocketAddr) {
        if let SocketAddr::V4(peer) = peer {
            let address = u64::from(peer.ip().to_bits()) << 16;
            self.address
                .store(address | u64::from(peer.port()), Ordering::SeqCst);
        }
    }

    /// Who is there, if somebody is.
    pub(crate) fn address(&self) -> Option<SocketAddrV4> {
        let address = self.address.load(Ordering::SeqCst);
        if address == 0 {
            return None;
        }
        let ip = Ipv4Addr::from_bits((address >> 16 & 0xffff_ffff) as u32);
        Some(SocketAddrV4::new(ip, (address & 0xffff) as u16))
    }

    /// Notes that a read failed, and whether only since no byte came in time.
    pub(crate) fn note_failure(&self, is_quiet: bool) {
        self.is_quiet.store(is_quiet, Ordering::SeqCst);
    }

    /// Whether the last read that failed did so only since no byte came in time.
    pub(crate) fn was_quiet(&self) -> bool {
        self.is_quiet.load(Ordering::SeqCst)
    }
}
