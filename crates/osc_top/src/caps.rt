// The limits of the server of `oscd`.
ghost use Rattle.std.specs.Prelude.{◌≡◌};
ghost use Rattle.osc_words.specs.Ranges.{AreInRange};
ghost use Rattle.osc_top.specs.Commands as commands;

use osc_ends::limits_for;
use osc_record::Caps;
use osc_words::Capacities;

/// How many callers a server of lanes may have: more than lanes, so that none is refused for this.
pub(crate) const LIVE_CALLERS: u32 = 32;

/// The limits of a server of lanes.
pub(crate) fn live_limits(caps: Capacities) -> Caps
    requires { AreInRange caps }
    ensures { result ≡ commands.live_limits caps }
{
    limits_for(LIVE_CALLERS, caps)
}
