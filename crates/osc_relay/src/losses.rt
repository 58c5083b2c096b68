//! How many messages didn't go to a destination, counted by all outlets to it together.
use std::sync::atomic::{AtomicU64, Ordering};

/// How many messages weren't sent to one destination. All outlets to it count here, on whichever threads they are, and
/// another thread may read meanwhile. No clause can say what a shared counter holds.
#[derive(Drop)]
pub struct Losses {
    all: AtomicU64,
    fresh: AtomicU64,
}

impl Losses {
    /// None was lost yet.
    pub fn new() -> Losses {
        Losses {
            all: AtomicU64::new(0),
            fresh: AtomicU64::new(0),
        }
    }

    /// Counts one more.
    pub fn add(&self) {
        self.all.fetch_add(1, Ordering::SeqCst);
        self.fresh.fetch_add(1, Ordering::SeqCst);
    }

    /// How many there are so far.
    pub fn all(&self) -> u64 {
        self.all.load(Ordering::SeqCst)
    }

    /// How many there are since the last call of this.
    pub fn take(&self) -> u64 {
        self.fresh.swap(0, Ordering::SeqCst)
    }
}
