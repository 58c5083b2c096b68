//! The trusted edge to the time: the system's clock, with waits that a datagram ends.
ghost use Rattle.std.specs.Prelude.{◌≡◌, ◌/◌, None};
ghost use Rattle.osc_console.specs.Waits.{wait_nanos, span_nanos};

use crate::{Changeover, Rounds};
use osc_edge::{Clock, Moment, system_moment};
use std::sync::Wait;
use std::time::Duration;

/// How many nanoseconds a second has.
const SECOND: u64 = 1_000_000_000;

/// How many nanoseconds the clock may stand still where nothing is due.
const LONGEST: u64 = SECOND;

/// How many it waits at most where the recording is soon changed over.
const SHORT_WAIT: u64 = 5_000_000;

/// The fraction of a second in a moment.
const LOW_WORD: u64 = 0xffff_ffff;

/// The system's clock. `now` reads it at once, and answers `Failed` for every error of the system
/// and where the seconds since 1900 aren't 32 bits, and counts it. `until` waits until the moment
/// comes or somebody wakes the ticker, but no longer than a second.
#[derive(Drop)]
pub struct WaitingClock<'a, W> {
    rt: HostRuntime,
    threads: &'a W,
    rounds: &'a Rounds,
    changeover: &'a Changeover,
    /// The moment that was read last.
    last: u64,
    faults: u64,
}

impl<'a, W: Wait> WaitingClock<'a, W> {
    /// Takes no memory, and reads nothing.
    pub fn open(
        rt: &HostRuntime,
        threads: &'a W,
        rounds: &'a Rounds,
        changeover: &'a Changeover,
    ) -> Self
        ensures left { ⟦<WaitingClock<'a, W> as Clock>⟧.left result ≡ None }
        ensures faults { ⟦<WaitingClock<'a, W> as Clock>⟧.faults result ≡ 0 }
    {
        WaitingClock {
            rt: *rt,
            threads,
            rounds,
            changeover,
            last: 0,
            faults: 0,
        }
    }
}

impl<'a, W: Wait> Clock for WaitingClock<'a, W> {
    ghost left = { λ _. None };

    ghost faults = { λ c. c.faults };

    fn now(&mut self) -> Moment {
        match system_moment(&self.rt) {
            Some(moment) => {
                self.last = moment;
                Moment::At(moment)
            }
            None => {
                self.faults = self.faults.saturating_add(1);
                Moment::Failed
            }
        }
    }

    /// Tells the links that the round is over, and waits.
    fn until(&mut self, next: Option<u64>) {
        self.rounds.note(self.last);
        let longest = wait_until(next, system_moment(&self.rt));
        let wait = if self.changeover.is_near() {
            longest.min(SHORT_WAIT)
        } else {
            longest
        };
        if wait > 0 {
            self.rounds.pause(self.threads, Duration::from_nanos(wait));
        }
    }
}

/// How many nanoseconds the clock waits: until the next moment, if there is one, but no longer than
/// it may stand still.
fn wait_until(next: Option<u64>, now: Option<u64>) -> u64
    ensures { result ≡ wait_nanos next now }
{
    match (next, now) {
        (Some(next), Some(now)) => nanos_between(now, next).min(LONGEST),
        _ => LONGEST,
    }
}

/// How many nanoseconds it is from one moment to another, rounded up; none where it isn't later.
pub(crate) fn nanos_between(now: u64, next: u64) -> u64
    ensures { result ≡ span_nanos now next }
{
    let span = next.saturating_sub(now);
    let part = ((span & LOW_WORD) * SECOND).div_ceil(1 << 32);
    (span >> 32) * SECOND + part
}

/// How many whole milliseconds it is from one moment to another; none where it isn't later.
pub(crate) fn millis_between(now: u64, next: u64) -> u64
    ensures { result ≡ span_nanos now next / 1_000_000 }
{
    nanos_between(now, next) / 1_000_000
}
