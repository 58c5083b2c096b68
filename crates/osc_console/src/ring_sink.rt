//! A sink whose bytes another thread writes.
ghost use Rattle.std.specs.Prelude.{◌≡◌, ◌≢◌, ◌≤◌, length, Some};
ghost use Rattle.rtrb.specs.Ring.{sent};

use crate::Printer;
use osc_edge::{Put, Sink};
use rtrb::Producer;
use std::alloc::Global;

/// One end of a ring of bytes, and whom to wake: the thread that writes what comes out of it. It
/// takes a piece whole, or fails where the ring has no room for it, and counts that. It never
/// waits.
pub struct RingSink<'a> {
    producer: Producer<u8, Global>,
    printer: &'a Printer,
    faults: u64,
}

impl Drop for RingSink<'_> {
    fn drop(self) {
        let RingSink {
            producer: _,
            printer: _,
            faults: _,
        } = self;
    }
}

impl<'a> RingSink<'a> {
    /// A sink that hands its bytes to the printer by this end of a ring.
    pub fn new(producer: Producer<u8, Global>, printer: &'a Printer) -> RingSink<'a>
        ensures held { ⟦<RingSink<'a> as Sink>⟧.held result ≡ Some (sent producer) }
        ensures faults { ⟦<RingSink<'a> as Sink>⟧.faults result ≡ 0 }
    {
        RingSink {
            producer,
            printer,
            faults: 0,
        }
    }
}

impl Sink for RingSink<'_> {
    ghost held = { λ s. Some (sent s.producer) };

    ghost faults = { λ s. s.faults };

    fn write(&mut self, piece: &[u8]) -> Put {
        match self.producer.push_entire_slice(piece) {
            Ok(()) => {
                self.printer.wake();
                Put::Took(piece.len())
            }
            Err(_) => {
                self.faults = self.faults.saturating_add(1);
                Put::Failed
            }
        }
    }
}
