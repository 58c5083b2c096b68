//! When a show goes on in a new recording.
use std::sync::atomic::{AtomicU64, Ordering};

/// Which part of the size is left when it is near.
const NEAR: u64 = 16;

/// How much of a recording is written, and at which size the show goes on in a new one. Who writes
/// notes it; the links and the clock look at it when they have waited.
#[derive(Drop)]
pub struct Changeover {
    size: u64,
    written: AtomicU64,
}

impl Changeover {
    ghost use Rattle.std.specs.Prelude.{◌≡◌, ◌-◌, ◌^◌, nat_lt};

    /// At this size; never, where it is the greatest number.
    pub fn at(size: u64) -> Changeover
        ensures { result.size ≡ size }
    {
        Changeover {
            size,
            written: AtomicU64::new(0),
        }
    }

    /// Whether the show goes on in a new recording at any size.
    pub fn is_on(&self) -> bool
        ensures { result ≡ nat_lt self.now.size (2 ^ 64 - 1) }
    {
        self.size < u64::MAX
    }

    /// A new recording begins, of which nothing is written.
    pub fn begin(&self) {
        self.written.store(0, Ordering::SeqCst);
    }

    /// Notes that so much more is written. One thread alone calls it.
    pub(crate) fn note(&self, count: usize) {
        let written = self.written.load(Ordering::SeqCst);
        self.written
            .store(written.saturating_add(count as u64), Ordering::SeqCst);
    }

    /// Whether the recording has the size.
    pub fn is_due(&self) -> bool {
        self.written.load(Ordering::SeqCst) >= self.size
    }

    /// Whether little is left: then nobody waits for long.
    pub(crate) fn is_near(&self) -> bool {
        self.written.load(Ordering::SeqCst) >= self.size - self.size / NEAR
    }
}
