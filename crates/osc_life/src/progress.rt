//! What those who work and those who look tell each other.

use std::sync::Wait;
use std::sync::atomic::{AtomicU64, Ordering};
use std::thread::Parker;
use std::time::Duration;

/// How many milliseconds a pause has at least.
const LEAST: u64 = 50;

/// How many milliseconds it has at most.
const MOST: u64 = 1_000;

/// What tells whoever looks how far the work is that it looks at. One thread looks.
#[derive(Drop)]
pub struct Progress {
    begun: AtomicU64,
    over: AtomicU64,
    looker: Parker,
}

impl Progress {
    /// The work hasn't begun.
    pub fn new() -> Progress {
        Progress {
            begun: AtomicU64::new(0),
            over: AtomicU64::new(0),
            looker: Parker::new(),
        }
    }

    /// Tells that the work begins.
    pub fn begin(&self) {
        self.begun.store(1, Ordering::SeqCst);
    }

    /// Reports that something was done, and ends a pause once that is long enough: the one that
    /// there is, or else the next. It writes one word, and calls the system only where a pause
    /// waits for it.
    pub fn advance(&self) {
        self.looker.unpark();
    }

    /// Tells that the work is over, and ends a pause.
    pub fn end(&self) {
        self.over.store(1, Ordering::SeqCst);
        self.over.wake_all();
        self.looker.unpark();
    }

    /// Whether the work has begun.
    pub fn has_begun(&self) -> bool {
        self.begun.load(Ordering::SeqCst) != 0
    }

    /// Whether it is over.
    pub fn is_over(&self) -> bool {
        self.over.load(Ordering::SeqCst) != 0
    }

    /// Waits for 50 milliseconds, and then until something was done since the last pause ended, but
    /// no longer than a second in all; and no longer than the work. What was done before a pause
    /// ended is there to be seen after it.
    pub fn pause<W: Wait>(&self, rt: &W) {
        self.over.park_timeout(rt, 0, Duration::from_millis(LEAST));
        self.looker
            .park_timeout(rt, Duration::from_millis(MOST - LEAST));
    }
}
