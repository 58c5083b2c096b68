// The limits of the server of `osc`.
ghost use Rattle.std.specs.Prelude.{◌≡◌};
ghost use Rattle.osc_words.specs.Ranges.{AreInRange};
ghost use Rattle.osc_plain.specs.Commands as commands;

use osc_ends::limits_for;
use osc_record::Caps;
use osc_words::{Capacities, default_capacities};

/// A script is played by caller 0 alone.
pub(crate) const PLAIN_CALLERS: u32 = 1;

/// The limits of a server that plays a script as caller 0.
pub(crate) fn plain_limits(caps: Capacities) -> Caps
    requires { AreInRange caps }
    ensures { result ≡ commands.plain_limits caps }
{
    limits_for(PLAIN_CALLERS, caps)
}

/// The limits of the server that plays a script which was drawn.
pub(crate) fn default_limits() -> Caps
    ensures { result ≡ commands.default_limits }
{
    plain_limits(default_capacities())
}
