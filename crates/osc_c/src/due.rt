//! When the next unit is due.
ghost use Rattle.std.specs.Prelude.{◌≡◌};
ghost use Rattle.osc_c.specs.Held.{played, TellsDue};

use crate::answer::Answer;
use crate::handle::{Handle, put, take};
use crate::shown::{due_shown, told};
use crate::status;
use std::alloc::Global;

/// The moment of the unit that a release takes next.
#[unsafe(no_mangle)]
pub extern "C" fn osc_server_due(handle: &mut Handle, alloc: Global) -> Answer
    ensures answer { TellsDue (played handle.old.spot.held) result }
    ensures same { handle.new.spot.held ≡ handle.old.spot.held }
{
    let Some(state) = take(handle, alloc) else {
        return told(status::IS_CLOSED);
    };
    let answer = due_shown(state.core.due());
    put(handle, state);
    answer
}
