// Servers of two callers, and lists of tokens.
ghost use Rattle.std.specs.Prelude.{◌≡◌, [], ◌∷◌, IfSome};
ghost use Rattle.osc_live.specs.Tokens.{IsOurs, IsOurGuest};

use osc_core::Closed;
use osc_live::{Caller, Guest, Live, LiveOut};
use osc_method::Method;
use osc_record::{Caps, Late};
use std::alloc::Global;
use std::sync::Wait;

/// The limits of a server of two callers.
pub(crate) fn caps() -> Option<Caps> {
    Caps::new(8, 8, 8, 8, 2, 4096, Late::Deliver).ok()
}

pub(crate) fn open<M: Method>(alloc: Global) -> Option<(Live<M>, Caller)>
    ensures ours { IfSome result (λ opened. IsOurs opened.0 opened.1) }
    ensures first { IfSome result (λ opened. opened.1.number ≡ 0) }
{
    Live::open(alloc, caps()?).ok()
}

/// Enrols a guest as the second caller.
pub(crate) fn enrolled<M: Method, W: Wait>(
    rt: &W,
    live: &Live<M>,
    caller: Caller,
) -> Option<(Caller, Caller)>
    requires ours { IsOurs live.now caller }
    requires first { caller.number ≡ 0 }
    ensures ours { IfSome result (λ both. IsOurs live.now both.0) }
    ensures new_ours { IfSome result (λ both. IsOurs live.now both.1) }
    ensures first { IfSome result (λ both. both.0.number ≡ 0) }
{
    let (caller, guest) = live.guest(caller);
    let guest = guest.ok()?;
    let (caller, new) = live.enrol(rt, caller, guest);
    let new = new.ok()?;
    Some((caller, new))
}

/// The list of one token.
fn only<T: Drop>(alloc: Global, token: T) -> Option<Vec<T>>
    ensures { IfSome result (λ tokens. tokens.items ≡ token ∷ []) }
{
    let mut tokens = Vec::with_capacity(alloc, 1).ok()?;
    tokens.push_reserved(token);
    Some(tokens)
}

/// The list of two tokens.
fn both<T: Drop>(alloc: Global, first: T, second: T) -> Option<Vec<T>>
    ensures { IfSome result (λ tokens. tokens.items ≡ first ∷ second ∷ []) }
{
    let mut tokens = Vec::with_capacity(alloc, 2).ok()?;
    tokens.push_reserved(first);
    tokens.push_reserved(second);
    Some(tokens)
}

/// Closes a server of two callers.
pub(crate) fn close_both<M: Method>(
    alloc: Global,
    live: Live<M>,
    first: Caller,
    second: Caller,
) -> Option<Closed<M>>
    requires ours { IsOurs live first }
    requires second_ours { IsOurs live second }
    requires first { first.number ≡ 0 }
{
    let callers = both(alloc, first, second)?;
    live.close(alloc, callers, Vec::new(alloc)).ok()
}

/// A server is closed after a guest was made: at first without the guest's token, and then with it. How many tokens
/// were made and how many handed in, as the refusal tells.
pub(crate) fn close_twice<M: Method>(
    alloc: Global,
    live: Live<M>,
    caller: Caller,
    guest: Guest,
) -> Option<(u32, u32)>
    requires ours { IsOurs live caller }
    requires guest_ours { IsOurGuest live guest }
    requires first { caller.number ≡ 0 }
{
    let callers = only(alloc, caller)?;
    let out = live.close(alloc, callers, Vec::new(alloc)).err()?;
    let LiveOut::StillOut {
        made,
        handed,
        live,
        callers,
        ..
    } = out
    else {
        return None;
    };
    let guests = only(alloc, guest)?;
    if callers.len() != 1 {
        return None;
    }
    live.close(alloc, callers, guests).ok()?;
    Some((made, handed))
}
