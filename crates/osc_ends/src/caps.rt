//! The limits of the programs' servers.
ghost use Rattle.std.specs.Prelude.{◌≡◌, ◌≤◌};
ghost use Rattle.osc_words.specs.Ranges.{AreInRange};
ghost use Rattle.osc_ends.specs.Limits as limits;

use osc_record::{Caps, Limits};
use osc_words::Capacities;

/// The limits of a server with these capacities and so many callers.
pub fn limits_for(callers: u32, caps: Capacities) -> Caps
    requires some { 1 ≤ callers }
    requires few { callers ≤ 1024 }
    requires caps { AreInRange caps }
    ensures { result ≡ limits.limits_for callers caps }
{
    match Caps::of(Limits {
        units: caps.units,
        blocks: caps.blocks,
        methods: caps.methods,
        nodes: caps.nodes,
        callers,
        recording: caps.recording,
        late: caps.late,
    }) {
        Ok(limits) => limits,
        Err(_) => unreachable!(),
    }
}
