// A gate that holds a line or a datagram back until something has been done, for a bounded number of turns.
use osc_lanes::Gate;
use std::sync::atomic::{AtomicU64, Ordering};
use std::thread;

/// Holds one worker before one of its steps until another worker has left one of its own, or the ticker has released
/// something.
#[derive(Drop)]
pub(crate) struct Hold {
    worker: u32,
    step: u32,
    done: AtomicU64,
    late: AtomicU64,
}

impl Hold {
    /// Holds the worker with this number before the step with that one.
    pub(crate) fn before(worker: u32, step: u32) -> Hold {
        Hold {
            worker,
            step,
            done: AtomicU64::new(0),
            late: AtomicU64::new(0),
        }
    }

    /// Whether the step was played before anything of that had been done.
    pub(crate) fn gave_up(&self) -> bool {
        self.late.load(Ordering::SeqCst) == 1
    }
}

impl Gate for Hold {
    fn enter(&self, worker: u32, step: u32) {
        if worker == self.worker && step == self.step {
            await_flag(&self.done, &self.late);
        }
    }

    fn leave(&self, worker: u32, _step: u32) {
        if worker != self.worker {
            self.done.store(1, Ordering::SeqCst);
        }
    }

    fn released(&self, _units: u32) {
        self.done.store(1, Ordering::SeqCst);
    }
}

/// Looks at the flag until it is set; tells `late` where that takes too many turns.
fn await_flag(flag: &AtomicU64, late: &AtomicU64) {
    for _ in 0..100_000_000u32 {
        if flag.load(Ordering::SeqCst) == 1 {
            return;
        }
        thread::yield_now();
    }
    late.store(1, Ordering::SeqCst);
}
