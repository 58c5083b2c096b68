// The worker of one link.
ghost use Rattle.std.specs.Prelude.{◌≡◌, ◌<◌, length, IfOk};
ghost use Rattle.osc_edge.specs.declared.limits.TheConstants.{MAX_DATAGRAM};
ghost use Rattle.osc_turn.specs.Passes.{view};
ghost use Rattle.osc_live.specs.Tokens.{IsOurs};
ghost use Rattle.osc_life.specs.Holders.{seen_by, holder_of};
ghost use Rattle.osc_links.specs.Links.{HasEndCause, ServesLink};
ghost use Rattle.osc_links.specs.Taken.{TakesOne, TakesAll};

use crate::link_work::{LinkEnd, LinkWork, Over};
use crate::served::Bounds;
use osc_atoms::{Fault, Room};
use osc_edge::{Datagram, Link, MAX_DATAGRAM};
use osc_lanes::{report_answer, send};
use osc_life::{Desk, Done, Gate, Worker};
use osc_live::{Caller, Live};
use osc_method::Method;
use std::alloc::AllocError;
use std::sync::Wait;

/// A link that isn't over, and the faults of its datagrams so far.
#[derive(Drop)]
pub(crate) struct OpenLink<L> {
    pub(crate) link: u32,
    pub(crate) caller: Caller,
    pub(crate) from: L,
    pub(crate) faults: Vec<(u32, Fault)>,
}

/// The result of one turn of a link.
#[derive(Clone, Copy)]
pub(crate) enum Step {
    /// A datagram was submitted or refused.
    Sent,
    Quiet,
    End,
    Failed,
    /// A datagram for which the recording had no room.
    Full(Room),
}

impl<M: Method, L: Link + Send + Drop> Worker<M> for LinkWork<L> {
    type End = LinkEnd<L>;

    ghost ready = { λ work. (0 < work.bounds.count) × (0 < work.bounds.idle) };

    ghost plays = { λ work end holder here there. ServesLink M.keep M.heard L.left L.faults holder
        work.bounds work.from end here there };

    fn work<W: Wait, G: Gate>(
        self,
        desk: &Desk<'_, M, W, G>,
        caller: Caller,
    ) -> Result<Done<LinkEnd<L>>, AllocError> {
        let LinkWork { link, from, bounds } = self;
        let mut buffer = vec![in desk.alloc; 0; MAX_DATAGRAM]?;
        let opened = OpenLink {
            link,
            caller,
            from,
            faults: Vec::new(desk.alloc),
        };
        let space = buffer.as_mut_slice();
        let (last, over) = take_turns(desk.rt, desk.live, opened, space, bounds, desk.gate)?;
        let OpenLink {
            caller,
            from,
            faults,
            ..
        } = last;
        let end = LinkEnd { from, faults, over };
        Ok(Done { caller, end })
    }
}

/// Takes turns of the link until it is over.
fn take_turns<M: Method, W: Wait, L: Link + Drop, G: Gate>(
    rt: &W,
    live: &Live<M>,
    mut opened: OpenLink<L>,
    space: &mut [u8],
    bounds: Bounds,
    gate: &G,
) -> Result<(OpenLink<L>, Over), AllocError>
    requires ours { IsOurs live.now opened.caller }
    requires space { length space.now ≡ MAX_DATAGRAM }
    requires count { 0 < bounds.count }
    requires idle { 0 < bounds.idle }
    ensures ours { IfOk result (λ r. IsOurs live.now r.0.caller) }
    ensures holder { IfOk result
        (λ r. holder_of live.now.caps r.0.caller ≡ holder_of live.now.caps opened.caller) }
    ensures made { IfOk result
        (λ r. (view r.0.caller.pass).made ≡ (view opened.caller.pass).made) }
    ensures taken { IfOk result (λ r. TakesAll M.keep M.heard
        (holder_of live.now.caps opened.caller) bounds opened.faults.items r.0.faults.items
        (L.left opened.from) (L.left r.0.from) r.1 (seen_by opened.caller) (seen_by r.0.caller)) }
    ensures cause { IfOk result (λ r.
        HasEndCause r.1 (L.left r.0.from) (L.faults opened.from) (L.faults r.0.from)) }
{
    let mut taken = 0;
    let mut quiets = 0;
    for _ in rt.forever() {
        let number = taken + 1;
        let (next, step) = take_turn(rt, live, opened, number, space, gate)?;
        opened = next;
        match step {
            Step::Sent => {
                taken = number;
                quiets = 0;
                if taken == bounds.count {
                    return Ok((opened, Over::Count));
                }
            }
            Step::Quiet => {
                quiets += 1;
                if quiets == bounds.idle {
                    return Ok((opened, Over::Idle));
                }
            }
            Step::End => return Ok((opened, Over::End)),
            Step::Failed => return Ok((opened, Over::Failed)),
            Step::Full(room) => return Ok((opened, Over::Full(room))),
        }
    }
    unreachable!()
}

/// Takes a turn of the link; a datagram has this number.
fn take_turn<M: Method, W: Wait, L: Link + Drop, G: Gate>(
    rt: &W,
    live: &Live<M>,
    mut opened: OpenLink<L>,
    number: u32,
    space: &mut [u8],
    gate: &G,
) -> Result<(OpenLink<L>, Step), AllocError>
    requires ours { IsOurs live.now opened.caller }
    requires space { length space.now ≡ MAX_DATAGRAM }
    ensures space { length space.new ≡ length space.old }
    ensures ours { IfOk result (λ r. IsOurs live.now r.0.caller) }
    ensures holder { IfOk result
        (λ r. holder_of live.now.caps r.0.caller ≡ holder_of live.now.caps opened.caller) }
    ensures made { IfOk result
        (λ r. (view r.0.caller.pass).made ≡ (view opened.caller.pass).made) }
    ensures takes { IfOk result (λ r. TakesOne M.keep M.heard
        (holder_of live.now.caps opened.caller) number opened.faults.items r.0.faults.items
        (L.left opened.from) (L.left r.0.from) (L.faults opened.from) (L.faults r.0.from) r.1
        (seen_by opened.caller) (seen_by r.0.caller)) }
{
    match opened.from.next(space) {
        Datagram::Got(count) => {
            let OpenLink {
                link,
                caller,
                from,
                mut faults,
            } = opened;
            let bytes = &space[..count];
            gate.enter(link, number);
            let (caller, answer) = send(rt, live, caller, number, bytes, &mut faults)?;
            let stop = report_answer(gate, link, number, answer);
            gate.leave(link, number);
            let opened = OpenLink {
                link,
                caller,
                from,
                faults,
            };
            match stop {
                None => Ok((opened, Step::Sent)),
                Some(room) => Ok((opened, Step::Full(room))),
            }
        }
        Datagram::Quiet => Ok((opened, Step::Quiet)),
        Datagram::End => Ok((opened, Step::End)),
        Datagram::Failed => Ok((opened, Step::Failed)),
    }
}
