//! How long a link waits for a datagram.
use std::sync::atomic::{AtomicU64, Ordering};

/// How many milliseconds a link waits for a datagram at most: as long as it was opened with, or
/// less, where its lines are waited for sooner. The link and who shows it are on one thread.
#[derive(Drop)]
pub struct Pace {
    longest: u32,
    /// Whether each wait is as long as the longest, so that waits can be counted.
    is_steady: bool,
    next: AtomicU64,
}

impl Pace {
    ghost use Rattle.std.specs.Prelude.{◌≡◌, ◌≤◌, true, false};

    /// Waits of at most so long.
    pub fn new(longest: u32) -> Pace
        ensures longest { result.longest ≡ longest }
        ensures steady { result.is_steady ≡ false }
    {
        Pace {
            longest,
            is_steady: false,
            next: AtomicU64::new(u64::from(longest)),
        }
    }

    /// Waits that are all so long.
    pub fn steady(wait: u32) -> Pace
        ensures longest { result.longest ≡ wait }
        ensures steady { result.is_steady ≡ true }
    {
        Pace {
            longest: wait,
            is_steady: true,
            next: AtomicU64::new(u64::from(wait)),
        }
    }

    /// Has the next wait be so long at most, and no shorter than a millisecond.
    pub(crate) fn set(&self, wait: u64) {
        if !self.is_steady {
            self.next.store(wait.max(1), Ordering::SeqCst);
        }
    }

    /// How long the next wait is at most.
    pub(crate) fn wait(&self) -> u32
        ensures { result ≤ self.now.longest }
    {
        let next = self.next.load(Ordering::SeqCst);
        next.min(u64::from(self.longest)) as u32
    }
}
