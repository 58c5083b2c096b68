// Enrols the callers of the tests.
ghost use Rattle.std.specs.Prelude.{◌≡◌, [], IfOk};
ghost use Rattle.osc_turn.specs.History.{own};
ghost use Rattle.osc_turn.specs.Rule.{number_of};
ghost use Rattle.osc_turn.specs.Passes.{view};
ghost use Rattle.osc_live.specs.Tokens.{IsOurs};

use osc_live::{Caller, Live};
use osc_method::Method;
use std::sync::Wait;
use std::test::*;

/// Enrols a guest, who has no entries.
pub(crate) fn enrolled<M: Method, W: Wait>(
    rt: &W,
    live: &Live<M>,
    first: Caller,
) -> Result<(Caller, Caller), Fail>
    requires ours { IsOurs live.now first }
    requires first { first.number ≡ 0 }
    ensures ours { IfOk result (λ both. IsOurs live.now both.0) }
    ensures new_ours { IfOk result (λ both. IsOurs live.now both.1) }
    ensures first { IfOk result (λ both. both.0.number ≡ 0) }
    ensures no_entries { IfOk result
        (λ both. own (number_of (view both.1.pass)) (view both.1.pass).seen ≡ []) }
{
    let (first, guest) = live.guest(first);
    let guest = guest.ok().ok_or("a guest")?;
    let (first, new) = live.enrol(rt, first, guest);
    let new = new.ok().ok_or("a caller")?;
    Ok((first, new))
}
