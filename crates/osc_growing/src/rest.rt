//! Writes what is left of a recording that was written while it grew.
ghost use Rattle.std.specs.Prelude.{length};
ghost use Rattle.osc_ends.specs.declared.status.TheConstants.{DONE};
ghost use Rattle.osc_ends.specs.Ends.{EndsText};
ghost use Rattle.osc_ends.specs.Sinks.{change};
ghost use Rattle.osc_growing.specs.Growing.{HasGrown, IsWithin};

use crate::growth::Growth;
use osc_edge::Sink;
use osc_ends::status::{DONE, NO_MEMORY, SINK_FAILED};
use osc_ends::write_text;

/// Writes what is left of the recording: 0, or 5 where the sink fails or has failed, or 3 where it
/// has no memory.
pub fn write_rest<R: Sink>(recording: &[u8], growth: Growth, rec: &mut R) -> u8
    requires { IsWithin growth (length recording.now) }
    ensures { (start : R)
        → HasGrown growth (change R.Sink start rec.old) recording.now
        → EndsText DONE result recording.now (change R.Sink start rec.new) }
{
    match growth {
        Growth::Written(at) => write_text(DONE, &recording[at as usize..], rec),
        Growth::Failed => SINK_FAILED,
        Growth::NoMemory => NO_MEMORY,
    }
}
