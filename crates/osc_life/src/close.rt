// How a server is closed.
ghost use Rattle.std.specs.Prelude.{◌≡◌, ◌≤◌, ◌+◌, length, All, IfOk};
ghost use Rattle.osc_core.specs.Telling.{told};
ghost use Rattle.osc_turn.specs.declared.limits.TheConstants.{MAX_PASSES};
ghost use Rattle.osc_live.specs.Seen.{past_of};
ghost use Rattle.osc_live.specs.Tokens.{IsOurs, IsOurGuest};
ghost use Rattle.osc_live.specs.Closing.{Closes, known, views_of, made_by, StartsAtZero};

use osc_core::Closed;
use osc_live::{Caller, Guest, Live, LiveOut};
use osc_method::Method;
use std::alloc::{AllocError, Global};

/// Closes a server whose tokens are all handed in.
pub(crate) fn close_all<M: Method>(
    alloc: Global,
    live: Live<M>,
    callers: Vec<Caller>,
    guests: Vec<Guest>,
) -> Result<Closed<M>, AllocError>
    requires callers_ours { All (IsOurs live) callers.items }
    requires guests_ours { All (IsOurGuest live) guests.items }
    requires first { StartsAtZero callers.items }
    requires few { length callers.items + length guests.items ≤ MAX_PASSES }
    requires all_in { made_by callers.items ≡ length callers.items + length guests.items }
    ensures { IfOk result (λ closed. Closes live.caps (past_of live.turn) (known callers.items)
        (views_of callers.items guests.items) closed.bytes.items
        (told M.keep M.heard closed.kept.items)) }
{
    match live.close(alloc, callers, guests) {
        Ok(closed) => Ok(closed),
        Err(LiveOut::NoMemory { .. }) => Err(AllocError),
        Err(LiveOut::StillOut { .. }) => unreachable!(),
    }
}
