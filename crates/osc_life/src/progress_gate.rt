// A gate that reports to whoever looks that something was done.

use crate::gate::Gate;
use crate::progress::Progress;
use osc_live::Submission;

/// Reports to whoever looks that something was done, after each step and each round that releases,
/// and then calls another gate, which may wait.
#[derive(Clone, Copy)]
pub(crate) struct ProgressGate<'a, G> {
    gate: &'a G,
    progress: &'a Progress,
}

impl<'a, G: Gate> ProgressGate<'a, G> {
    pub(crate) fn new(gate: &'a G, progress: &'a Progress) -> ProgressGate<'a, G> {
        ProgressGate { gate, progress }
    }
}

impl<'a, G: Gate> Gate for ProgressGate<'a, G> {
    fn enter(&self, worker: u32, step: u32) {
        self.gate.enter(worker, step);
    }

    fn answered(&self, worker: u32, step: u32, submission: &Submission) {
        self.gate.answered(worker, step, submission);
    }

    fn leave(&self, worker: u32, step: u32) {
        self.progress.advance();
        self.gate.leave(worker, step);
    }

    fn released(&self, units: u32) {
        self.progress.advance();
        self.gate.released(units);
    }
}
