//! A link that ends when the show is to end, or to go on in a new recording.
ghost use Rattle.std.specs.Prelude.{◌≡◌, ◌≤◌, None, IfOk, length};

use crate::{Changeover, Sender, Shutdown, Slot};
use osc_edge::{Datagram, Link, MAX_DATAGRAM};
use std::alloc::{AllocError, Global};
use std::net::SocketAddrV4;

/// A link that answers `End` where the show is to end, or its recording has the size at which it
/// goes on in a new one, and else what the link below answers. A datagram for which a recording had
/// no room is given once more, as the first of the next recording. So it tells nothing of the
/// datagrams that are left.
pub struct ShutdownLink<'a, L> {
    link: L,
    shutdown: &'a Shutdown,
    changeover: &'a Changeover,
    slot: &'a Slot,
    /// The last datagram.
    last: Vec<u8>,
}

impl<L: Drop> Drop for ShutdownLink<'_, L> {
    fn drop(self) {
        let ShutdownLink {
            link: _,
            shutdown: _,
            changeover: _,
            slot: _,
            last: _,
        } = self;
    }
}

impl<'a, L: Link + Drop> ShutdownLink<'a, L> {
    /// `slot` is the one in which the link's gate leaves the answers. Reserves the room of a
    /// datagram; an `Err` means out of memory.
    pub fn open(
        alloc: Global,
        link: L,
        shutdown: &'a Shutdown,
        changeover: &'a Changeover,
        slot: &'a Slot,
    ) -> Result<Self, AllocError>
        ensures left { IfOk result (λ ends. ⟦<ShutdownLink<'a, L> as Link>⟧.left ends ≡ None) }
        ensures faults { IfOk result
            (λ ends. ⟦<ShutdownLink<'a, L> as Link>⟧.faults ends ≡ L.faults link) }
        ensures quiets { IfOk result
            (λ ends. ⟦<ShutdownLink<'a, L> as Link>⟧.quiets ends ≡ L.quiets link) }
    {
        Ok(ShutdownLink {
            last: Vec::with_capacity(alloc, MAX_DATAGRAM)?,
            link,
            shutdown,
            changeover,
            slot,
        })
    }
}

impl<L> ShutdownLink<'_, L> {
    /// Keeps a datagram. There is room for it.
    fn keep(&mut self, datagram: &[u8])
        ensures { self.new.link ≡ self.old.link }
    {
        self.last.clear();
        let _kept = self.last.extend_from_slice(datagram);
    }

    /// Copies the last datagram to the front of the slice, and answers how many bytes it has.
    fn repeat(&self, into: &mut [u8]) -> usize
        ensures { result ≤ length into.new }
    {
        let count = self.last.len().min(into.len());
        into[..count].copy_from_slice(&self.last[..count]);
        count
    }
}

impl<L: Sender> Sender for ShutdownLink<'_, L> {
    fn sender(&self) -> Option<SocketAddrV4> {
        self.link.sender()
    }
}

impl<L: Link> Link for ShutdownLink<'_, L> {
    ghost left = { λ _. None };

    ghost faults = { λ e. L.faults e.link };

    ghost quiets = { λ e. L.quiets e.link };

    fn next(&mut self, into: &mut [u8]) -> Datagram {
        if self.shutdown.is_asked() || self.changeover.is_due() {
            return Datagram::End;
        }
        if self.slot.was_full() {
            return Datagram::Got(self.repeat(into));
        }
        let came = self.link.next(into);
        if let Datagram::Got(count) = came {
            self.keep(&into[..count]);
        }
        came
    }
}
