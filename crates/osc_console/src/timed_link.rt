//! A link whose datagrams come shortly before their moments.
ghost use Rattle.std.specs.Prelude.{◌≡◌};

use crate::Rounds;
use crate::waiting_clock::nanos_between;
use osc_edge::{Datagram, Link, system_moment};
use std::sync::Wait;
use std::sync::atomic::AtomicU64;
use std::time::Duration;

/// How many nanoseconds before its moment a datagram comes.
const LEAD: u64 = 1_000_000_000;

/// How many nanoseconds a wait has at most before the clock is read again.
const LONGEST: u64 = 1_000_000_000;

/// A link that gives what the link below gives: each datagram a second before its moment, and the
/// end once the ticker has played a round at the last moment or after. So what comes of the
/// datagrams is due while the link still stands. Where the system's clock fails it doesn't wait.
pub struct TimedLink<'a, L, W> {
    rt: HostRuntime,
    threads: &'a W,
    rounds: &'a Rounds,
    link: L,
    /// The moments of the datagrams, in their order.
    moments: Vec<u64>,
    /// How many datagrams were asked for.
    asked: usize,
    sleeper: AtomicU64,
}

impl<L: Drop, W> Drop for TimedLink<'_, L, W> {
    fn drop(self) {
        let TimedLink {
            rt: _,
            threads: _,
            rounds: _,
            link: _,
            moments: _,
            asked: _,
            sleeper: _,
        } = self;
    }
}

impl<'a, L: Link, W: Wait> TimedLink<'a, L, W> {
    /// The k-th moment is that of the k-th datagram. Takes no memory.
    pub fn new(
        rt: &HostRuntime,
        threads: &'a W,
        rounds: &'a Rounds,
        link: L,
        moments: Vec<u64>,
    ) -> Self
        ensures left { ⟦<TimedLink<'a, L, W> as Link>⟧.left result ≡ L.left link }
        ensures faults { ⟦<TimedLink<'a, L, W> as Link>⟧.faults result ≡ L.faults link }
        ensures quiets { ⟦<TimedLink<'a, L, W> as Link>⟧.quiets result ≡ L.quiets link }
        ensures moments { result.moments.items ≡ moments.items }
        ensures asked { result.asked ≡ 0 }
    {
        TimedLink {
            rt: *rt,
            threads,
            rounds,
            link,
            moments,
            asked: 0,
            sleeper: AtomicU64::new(0),
        }
    }

    /// Waits until the next datagram is to come, or the last moment is over.
    fn wait_for_next(&self) {
        match (self.moments.get(self.asked), self.moments.last()) {
            (Some(moment), _) => self.wait_until(*moment, LEAD),
            (None, Some(last)) => {
                self.wait_until(*last, 0);
                self.rounds.catch_up(self.threads, *last);
            }
            (None, None) => {}
        }
    }

    /// Waits until so many nanoseconds before the moment.
    fn wait_until(&self, moment: u64, before: u64) {
        for _ in self.threads.forever() {
            let Some(now) = system_moment(&self.rt) else {
                return;
            };
            let span = nanos_between(now, moment).saturating_sub(before);
            if span == 0 {
                return;
            }
            let wait = Duration::from_nanos(span.min(LONGEST));
            self.sleeper.park_timeout(self.threads, 0, wait);
        }
        unreachable!()
    }
}

impl<L: Link, W: Wait> Link for TimedLink<'_, L, W> {
    ghost left = { λ t. L.left t.link };

    ghost faults = { λ t. L.faults t.link };

    ghost quiets = { λ t. L.quiets t.link };

    fn next(&mut self, into: &mut [u8]) -> Datagram {
        self.wait_for_next();
        self.asked = self.asked.saturating_add(1);
        self.link.next(into)
    }
}
