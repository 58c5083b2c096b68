// Reports what couldn't be sent on.
use crate::bank::Destination;
use osc_console::Chore;
use std::time::{Duration, Instant};

/// How often losses are reported while there are any, in seconds.
const EVERY: u64 = 60;

/// Reports the losses of each destination a minute after the last report, if there are any.
#[derive(Drop)]
pub(crate) struct LossReport<'a> {
    rt: HostRuntime,
    destinations: &'a [Destination],
    /// When losses were reported last; at first, when the show began.
    last: Option<Instant>,
}

impl<'a> LossReport<'a> {
    pub(crate) fn new(rt: &HostRuntime, destinations: &'a [Destination]) -> LossReport<'a> {
        LossReport {
            rt: *rt,
            destinations,
            last: Instant::now(rt).ok(),
        }
    }

    /// Whether a minute is over.
    fn is_due(&self) -> bool {
        match &self.last {
            Some(last) => match last.elapsed(&self.rt) {
                Ok(time) => time >= Duration::from_secs(EVERY),
                Err(_) => false,
            },
            None => false,
        }
    }
}

impl Chore for LossReport<'_> {
    fn run(&mut self) {
        if self.is_due() {
            report_losses(&self.rt, self.destinations);
            self.last = Instant::now(&self.rt).ok();
        }
    }
}

/// Reports how many messages were lost on their way to each destination since it was last asked.
pub(crate) fn report_losses(rt: &HostRuntime, destinations: &[Destination]) {
    for destination in destinations {
        let lost = destination.losses.take();
        if lost > 0 {
            let to = destination.to;
            eprintln!(rt; "oscstage: {lost} messages could not be sent on to {to}").ok();
        }
    }
}
