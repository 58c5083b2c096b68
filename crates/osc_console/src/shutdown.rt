//! Whether a show is to end.
use std::sync::atomic::{AtomicU64, Ordering};

/// Whether a show is to end. Links look at it when they have waited.
#[derive(Drop)]
pub struct Shutdown {
    is_asked: AtomicU64,
}

impl Shutdown {
    /// A show that goes on.
    pub fn new() -> Shutdown {
        Shutdown {
            is_asked: AtomicU64::new(0),
        }
    }

    /// Ends the show, once and for all.
    pub fn ask(&self) {
        self.is_asked.store(1, Ordering::SeqCst);
    }

    /// Whether it is to end.
    pub fn is_asked(&self) -> bool {
        self.is_asked.load(Ordering::SeqCst) != 0
    }
}
