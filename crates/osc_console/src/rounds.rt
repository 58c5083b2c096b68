//! What the ticker and the links tell each other of its rounds.
ghost use Rattle.std.specs.Prelude.{◌≡◌, ◌%◌, ◌^◌};

use std::sync::Wait;
use std::sync::atomic::{AtomicU64, Ordering};
use std::thread::Parker;
use std::time::Duration;

/// How often a link looks for a round at most, and how long it waits each time, in milliseconds.
const LOOKS: u32 = 50;

const LOOK: u64 = 2;

/// How many milliseconds who waits for a round waits at most.
const WAIT: u64 = 1_000;

/// The ticker's last round, and who wakes it for the next one.
#[derive(Drop)]
pub struct Rounds {
    ticker: Parker,
    /// The moment that the last round has handed in, as a time tag; 0 before the first.
    handed: AtomicU64,
}

impl Rounds {
    /// No round was played yet.
    pub fn new() -> Rounds {
        Rounds {
            ticker: Parker::new(),
            handed: AtomicU64::new(0),
        }
    }

    /// Ends the ticker's wait, or else the next one.
    pub fn wake(&self) {
        self.ticker.unpark();
    }

    /// Waits until it is woken, but no longer than so long. The ticker alone calls it.
    pub(crate) fn pause<W: Wait>(&self, rt: &W, time: Duration) {
        self.ticker.park_timeout(rt, time);
    }

    /// Notes that a round has handed in this moment.
    pub(crate) fn note(&self, moment: u64) {
        self.handed.store(moment, Ordering::SeqCst);
        self.handed.wake_all();
    }

    /// The moment that the last round has handed in; 0 before the first.
    pub fn handed(&self) -> u64 {
        self.handed.load(Ordering::SeqCst)
    }

    /// Waits for a round that hands in another moment than this one, or until it is told that none
    /// comes; at most a second.
    pub fn wait<W: Wait>(&self, rt: &W, seen: u64) {
        self.handed
            .park_timeout(rt, low_word(seen), Duration::from_millis(WAIT));
    }

    /// Tells whoever waits for a round that none comes.
    pub fn end(&self) {
        self.handed.wake_all();
    }

    /// Has the ticker play a round, and waits until it has handed in this moment or a later one, at
    /// most a tenth of a second: whoever submits then is judged by a clock that isn't late.
    pub(crate) fn catch_up<W: Wait>(&self, rt: &W, moment: u64) {
        for _ in 0..LOOKS {
            let seen = self.handed();
            if seen >= moment {
                return;
            }
            self.wake();
            self.handed
                .park_timeout(rt, low_word(seen), Duration::from_millis(LOOK));
        }
    }
}

/// The lower 32 bits, by which a thread sees whether the word has changed.
fn low_word(word: u64) -> u32
    ensures { result ≡ word % 2 ^ 32 }
{
    (word & u64::from(u32::MAX)) as u32
}
