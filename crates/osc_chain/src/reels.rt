//! Where the recordings of a show go.
use osc_edge::Sink;
use osc_stage::Ended;
use std::alloc::AllocError;

/// Where the recordings of a show go, and whether it goes on in another one.
pub trait Reels {
    type Sink: Sink + Drop;

    /// The sink of the next recording. An `Err` means out of memory.
    fn open(&mut self) -> Result<Self::Sink, AllocError>;

    /// Whether the show goes on after a stage that ended so, with so many bytes of recording, and
    /// after so many datagrams that were no packets.
    fn goes_on(&mut self, ended: Ended, size: usize, refused: usize) -> bool;
}
