//! Enrols the callers of lanes.
ghost use Rattle.std.specs.Prelude.{◌≡◌, ◌<◌, ◌≤◌, ◌+◌, All, IfOk, IfErr, IfSome};
ghost use Rattle.osc_model.specs.Events.{enrol};
ghost use Rattle.osc_turn.specs.History.{StartsWith};
ghost use Rattle.osc_turn.specs.Rule.{number_of};
ghost use Rattle.osc_turn.specs.Passes.{view, one_more};
ghost use Rattle.osc_turn.specs.declared.limits.TheConstants.{MAX_PASSES};
ghost use Rattle.osc_live.specs.Seen.{history_of};
ghost use Rattle.osc_live.specs.Tokens.{IsOurs, IsOurGuest};
ghost use Rattle.osc_live.specs.Calls.{Calls};
ghost use Rattle.osc_live.specs.Enrolments.{enrolment_of};
ghost use Rattle.osc_life.specs.Crews.{names_of, IsSilent, HasSeen, HasCallers, HasEnrolledFrom};
ghost use Rattle.osc_live.specs.Closing.{known};
ghost use Rattle.osc_life.specs.Holders.{Learns};
ghost use Rattle.osc_record.specs.declared.limits.TheConstants.{MAX_CALLERS};

use osc_live::{Caller, EnrolRefusal, Guest, Live};
use osc_method::Method;
use std::alloc::{AllocError, Global};
use std::sync::Wait;

/// A caller, and others: caller 0, and those that it enrolled.
#[derive(Drop)]
pub struct Crew {
    pub first: Caller,
    pub callers: Vec<Caller>,
}

/// Enrols so many callers more, where caller 0 knows how many there are.
pub(crate) fn enrol_more<M: Method, W: Wait>(
    rt: &W,
    alloc: Global,
    live: &Live<M>,
    mut first: Caller,
    count: usize,
) -> Result<(Crew, Option<(EnrolRefusal, Guest)>), AllocError>
    requires ours { IsOurs live.now first }
    requires number { first.number ≡ 0 }
    requires opened { HasCallers (view first.pass).made (view first.pass) }
    requires few { (view first.pass).made + count ≤ live.now.caps.callers }
    requires tokens { (view first.pass).made + count ≤ MAX_CALLERS }
    ensures ours { IfOk result (λ both. IsOurs live.now both.0.first) }
    ensures seen { IfOk result
        (λ both. StartsWith (view both.0.first.pass).seen (view first.pass).seen) }
    ensures number { IfOk result (λ both. both.0.first.number ≡ 0) }
    ensures callers_ours { IfOk result (λ both. All (IsOurs live.now) both.0.callers.items) }
    ensures guest_ours { IfOk result
        (λ both. IfSome both.1 (λ refused. IsOurGuest live.now refused.1)) }
    ensures enrolled { IfOk result (λ both. HasEnrolledFrom (view first.pass).made live.now.caps
        (history_of (view first.pass)) count (view both.0.first.pass) both.0.callers.items
        both.1) }
{
    osc_model::laws::callers_are_counted();
    let mut callers = Vec::with_capacity(alloc, count)?;
    for _ in 0..count {
        let (next, answer) = enrol_next(rt, live, first);
        first = next;
        match answer {
            Ok(caller) => callers.push(caller)?,
            Err(refused) => return Ok((Crew { first, callers }, Some(refused))),
        }
    }
    Ok((Crew { first, callers }, None))
}

/// Enrols one caller more.
fn enrol_next<M: Method, W: Wait>(
    rt: &W,
    live: &Live<M>,
    first: Caller,
) -> (Caller, Result<Caller, (EnrolRefusal, Guest)>)
    requires ours { IsOurs live.now first }
    requires number { first.number ≡ 0 }
    requires room { (view first.pass).made < MAX_PASSES }
    ensures ours { IsOurs live.now result.0 }
    ensures number { result.0.number ≡ 0 }
    ensures call { Calls live.now.caps 0 enrol (enrolment_of result.1)
        (one_more (view first.pass)) (view result.0.pass) }
    ensures new_ours { IfOk result.1 (IsOurs live.now) }
    ensures token { IfOk result.1 (λ new. number_of (view new.pass) ≡ (view first.pass).made) }
    ensures silent { IfOk result.1 IsSilent }
    ensures back_ours { IfErr result.1 (λ refused. IsOurGuest live.now refused.1) }
{
    let (first, guest) = live.guest(first);
    let Ok(guest) = guest else { unreachable!() };
    let (first, answer) = live.enrol(rt, first, guest);
    (first, answer)
}

/// Tells each caller what the first has seen. The `Err` means out of memory.
pub(crate) fn meet_all<M: Method>(
    alloc: Global,
    live: &Live<M>,
    crew: Crew,
) -> Result<Crew, AllocError>
    requires ours { IsOurs live.now crew.first }
    requires callers_ours { All (IsOurs live.now) crew.callers.items }
    requires silent { All IsSilent crew.callers.items }
    ensures ours { IfOk result (λ met. IsOurs live.now met.first) }
    ensures number { IfOk result (λ met. met.first.number ≡ crew.first.number) }
    ensures same { IfOk result (λ met. view met.first.pass ≡ view crew.first.pass) }
    ensures callers_ours { IfOk result (λ met. All (IsOurs live.now) met.callers.items) }
    ensures names { IfOk result (λ met. names_of met.callers.items ≡ names_of crew.callers.items) }
    ensures silent { IfOk result (λ met. All IsSilent met.callers.items) }
    ensures told { IfOk result
        (λ met. All (HasSeen (view crew.first.pass).seen) met.callers.items) }
{
    let Crew { mut first, callers } = crew;
    let mut met = Vec::with_capacity(alloc, callers.len())?;
    for caller in callers {
        let (next, told) = live.meet(first, caller);
        first = next;
        met.push(told)?;
    }
    Ok(Crew {
        first,
        callers: met,
    })
}

/// Tells the first caller what the others have seen. The `Err` means out of memory.
pub(crate) fn learn_all<M: Method>(
    alloc: Global,
    live: &Live<M>,
    mut first: Caller,
    others: Vec<Caller>,
) -> Result<(Caller, Vec<Caller>), AllocError>
    requires ours { IsOurs live.now first }
    requires others_ours { All (IsOurs live.now) others.items }
    ensures ours { IfOk result (λ both. IsOurs live.now both.0) }
    ensures others_ours { IfOk result (λ both. All (IsOurs live.now) both.1.items) }
    ensures number { IfOk result (λ both. both.0.number ≡ first.number) }
    ensures learns { IfOk result (λ both. Learns (view first.pass) (view both.0.pass)) }
    ensures same { IfOk result (λ both. known both.1.items ≡ known others.items) }
    ensures told { IfOk result (λ both. All
        (λ other. StartsWith (view both.0.pass).seen other.1.seen) (known both.1.items)) }
{
    let mut heard = Vec::with_capacity(alloc, others.len())?;
    for other in others {
        let (other, next) = live.meet(other, first);
        first = next;
        heard.push(other)?;
    }
    Ok((first, heard))
}
