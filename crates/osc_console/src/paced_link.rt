//! A link over one connection of TCP that is quiet where nothing comes in time.
ghost use Rattle.std.specs.Prelude.{◌≡◌, None, IfOk};
ghost use Rattle.osc_edge.specs.Faults.{Rose};

use crate::{Changeover, HeardSource, Pace, Peer, Sender};
use osc_edge::{Datagram, Link};
use osc_stream::{BufferedSource, StreamLink};
use std::alloc::{AllocError, Global};
use std::net::SocketAddrV4;

/// The packets of one connection, as `StreamLink` of `osc_stream` gives them. A call waits no longer
/// for the connection or for bytes than the pace says, and is quiet then; what has come of a packet is
/// kept. It knows who is at the other end.
pub struct PacedLink<'a> {
    link: StreamLink<BufferedSource<HeardSource<'a>>>,
    peer: &'a Peer,
    faults: u64,
    quiets: u64,
}

impl Drop for PacedLink<'_> {
    fn drop(self) {
        let PacedLink {
            link: _,
            peer: _,
            faults: _,
            quiets: _,
        } = self;
    }
}

impl<'a> PacedLink<'a> {
    /// A link for the port, which isn't bound yet. An `Err` means out of memory.
    pub fn open(
        rt: &HostRuntime,
        port: u16,
        pace: &'a Pace,
        changeover: &'a Changeover,
        peer: &'a Peer,
    ) -> Result<Self, AllocError>
        ensures left { IfOk result (λ link. ⟦<PacedLink<'a> as Link>⟧.left link ≡ None) }
        ensures faults { IfOk result (λ link. ⟦<PacedLink<'a> as Link>⟧.faults link ≡ 0) }
        ensures quiets { IfOk result (λ link. ⟦<PacedLink<'a> as Link>⟧.quiets link ≡ 0) }
    {
        let source = HeardSource::at(rt, port, pace, changeover, peer);
        let buffered = BufferedSource::open(rt.alloc(), source)?;
        Ok(PacedLink {
            link: StreamLink::open(rt.alloc(), buffered)?,
            peer,
            faults: 0,
            quiets: 0,
        })
    }

    /// A call that wasn't ready.
    fn quiet(&mut self) -> Datagram
        ensures quiet { result ≡ Datagram.Quiet }
        ensures faults { self.new.faults ≡ self.old.faults }
        ensures counted { Rose self.old.quiets self.new.quiets }
    {
        self.quiets = self.quiets.saturating_add(1);
        Datagram::Quiet
    }
}

impl Sender for PacedLink<'_> {
    fn sender(&self) -> Option<SocketAddrV4> {
        self.peer.address()
    }
}

impl Link for PacedLink<'_> {
    ghost left = { λ _. None };

    ghost faults = { λ l. l.faults };

    ghost quiets = { λ l. l.quiets };

    fn next(&mut self, into: &mut [u8]) -> Datagram {
        match self.link.next(into) {
            Datagram::Failed if self.peer.was_quiet() => self.quiet(),
            Datagram::Failed => {
                self.faults = self.faults.saturating_add(1);
                Datagram::Failed
            }
            Datagram::Quiet => self.quiet(),
            Datagram::Got(count) => Datagram::Got(count),
            Datagram::End => Datagram::End,
        }
    }
}
