//! The trusted edge to the time: the system's clock, of whose moments nothing is told.
ghost use Rattle.std.specs.Prelude.{◌≡◌, None};
ghost use Rattle.std.specs.Duration.{as_nanos};
ghost use Rattle.osc_edge.specs.Times.{time_tag};

use crate::{Clock, Moment};
use std::thread;
use std::time::{Duration, SystemTime, UNIX_EPOCH};

/// How many milliseconds a call sleeps before it looks.
const SLEEP: u64 = 10;

/// Seconds from 1900 to 1970.
const UNIX_SECONDS: u64 = 2_208_988_800;

/// The system's clock, which a call reads after 10 milliseconds. It answers `Failed` for every error of the system and
/// where the seconds since 1900 aren't 32 bits, and counts it.
#[derive(Drop)]
pub struct SystemClock {
    rt: HostRuntime,
    faults: u64,
}

impl SystemClock {
    /// Takes no memory, and reads nothing.
    pub fn open(rt: &HostRuntime) -> Self
        ensures left { ⟦<SystemClock as Clock>⟧.left result ≡ None }
        ensures faults { ⟦<SystemClock as Clock>⟧.faults result ≡ 0 }
    {
        SystemClock { rt: *rt, faults: 0 }
    }
}

/// The moment that the system's clock tells: none for every error of the system, and where the seconds since 1900 aren't
/// 32 bits.
pub fn system_moment(rt: &HostRuntime) -> Option<u64> {
    let now = SystemTime::now(rt).ok()?;
    time_tag_of(now.duration_since(UNIX_EPOCH).ok()?)
}

impl Clock for SystemClock {
    ghost left = { λ _. None };

    ghost faults = { λ c. c.faults };

    fn now(&mut self) -> Moment {
        thread::sleep(&self.rt, Duration::from_millis(SLEEP));
        match system_moment(&self.rt) {
            Some(moment) => Moment::At(moment),
            None => {
                self.faults = self.faults.saturating_add(1);
                Moment::Failed
            }
        }
    }
}

/// The time tag of a time since 1970, where its seconds since 1900 are 32 bits.
fn time_tag_of(since_1970: Duration) -> Option<u64>
    ensures { result ≡ time_tag (as_nanos since_1970) }
{
    let seconds = since_1970.as_secs().checked_add(UNIX_SECONDS)?;
    let fraction = (u64::from(since_1970.subsec_nanos()) << 32) / 1_000_000_000;
    u32::try_from(seconds)
        .ok()
        .map(|seconds| u64::from(seconds) << 32 | fraction)
}
