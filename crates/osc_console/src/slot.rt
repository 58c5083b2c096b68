//! Where a gate leaves what the server answered to a link's last datagram.
use osc_core::Submitted;
use osc_live::Submission;
use std::sync::Mutex;
use std::sync::atomic::{AtomicBool, Ordering};

/// The server's last answer to one link. The gate puts it there and the link takes it, both on the
/// link's own thread.
#[derive(Drop)]
pub struct Slot {
    last: Mutex<Option<Submission>>,
    /// The last datagram found no room in the recording.
    is_full: AtomicBool,
}

impl Slot {
    /// No answer was left yet.
    pub fn new() -> Slot {
        Slot {
            last: Mutex::new(None),
            is_full: AtomicBool::new(false),
        }
    }

    /// Keeps the answer, in place of the one before.
    pub(crate) fn put(&self, submission: Submission) {
        if let Submitted::RecordFull(_) = submission.answer {
            self.is_full.store(true, Ordering::SeqCst);
        }
        if let Some(mut last) = self.last.try_lock() {
            *last = Some(submission);
        }
    }

    /// Whether the last datagram found no room in the recording; asked again, it isn't so.
    pub(crate) fn was_full(&self) -> bool {
        self.is_full.swap(false, Ordering::SeqCst)
    }

    /// The last answer, which then goes.
    pub(crate) fn take(&self) -> Option<Submission> {
        let mut last = self.last.try_lock()?;
        last.take()
    }
}
