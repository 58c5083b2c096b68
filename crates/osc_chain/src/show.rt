//! A show on one stage after another.
ghost use Rattle.std.specs.Prelude.{◌≡◌, ◌≤◌, ◌<◌, ◌+◌, length, IfOk, IfSome};
ghost use Rattle.osc_lanes.specs.Performs.{part_of, IsWhole};
ghost use Rattle.osc_links.specs.declared.limits.TheConstants.{MAX_LINKS};
ghost use Rattle.osc_chain.specs.Shows.{CanPlay, GoesOnFrom, IsShowFault, PlaysPart, PlaysShow};

use crate::Reels;
use crate::part::{Part, ShowEnd};
use crate::seam::Seam;
use crate::turnover::turn_over;
use osc_chain_laws::laws::a_show_is_a_chain;
use osc_edge::{Clock, Link};
use osc_lanes::Gate;
use osc_links::Bounds;
use osc_method::Method;
use osc_record::Caps;
use osc_relay::{Outlet, Relay};
use osc_stage::{Stage, Staged, stage_top};
use std::alloc::{AllocError, Global};
use std::sync::Wait;
use std::thread::Threads;

/// Plays a show: a stage, and as long as `reels` says so another one, which carries the one before
/// it on in a recording of its own, with the same relays and links. The end has a fault where `reels`
/// wanted to go on and the show couldn't. An `Err` means out of memory, and the relays and the links
/// are gone then.
pub fn play_show<
    O: Outlet + Send,
    L: Link + Send + Drop,
    C: Clock + Send,
    W: Threads + Wait + Sync,
    G: Gate + Sync,
    R: Reels,
>(
    rt: &W,
    alloc: Global,
    stage: Stage<O, L>,
    clock: &mut C,
    reels: &mut R,
    gate: &G,
) -> Result<ShowEnd<O, L>, AllocError>
    requires callers { length stage.links.from.items + 2 ≤ stage.caps.callers }
    requires few { length stage.links.from.items ≤ MAX_LINKS }
    requires whole { IsWhole (part_of stage.opening) }
    requires count { 0 < stage.links.bounds.count }
    requires idle { 0 < stage.links.bounds.idle }
    ensures show { IfOk result (λ end. PlaysShow ⟦<Relay<O> as Method>⟧.keep
        ⟦<Relay<O> as Method>⟧.heard L.left L.faults O.sent O.losses stage end.staged) }
    ensures fault { IfOk result (λ end. IfSome end.fault
        (λ fault. IsShowFault stage.caps end.staged.recording.items fault)) }
{
    a_show_is_a_chain::<O, L>();
    let mut left = Some(stage);
    for _ in rt.forever() {
        match play_part(rt, alloc, left.take().unwrap(), clock, reels, gate)? {
            Part::GoesOn(next) => left = Some(next),
            Part::Over(end) => return Ok(end),
        }
    }
    unreachable!()
}

/// Plays a part of a show.
fn play_part<
    O: Outlet + Send,
    L: Link + Send + Drop,
    C: Clock + Send,
    W: Threads + Wait + Sync,
    G: Gate + Sync,
    R: Reels,
>(
    rt: &W,
    alloc: Global,
    stage: Stage<O, L>,
    clock: &mut C,
    reels: &mut R,
    gate: &G,
) -> Result<Part<O, L>, AllocError>
    requires { CanPlay stage }
    ensures { IfOk result (λ part. PlaysPart ⟦<Relay<O> as Method>⟧.keep
        ⟦<Relay<O> as Method>⟧.heard L.left L.faults O.sent O.losses stage part) }
{
    let caps = stage.caps;
    let bounds = stage.links.bounds;
    let mut rec = reels.open()?;
    let staged = stage_top(rt, alloc, stage, clock, &mut rec, gate)?;
    if !reels.goes_on(staged.ended, staged.recording.len(), staged.faults.len()) {
        return Ok(Part::Over(ShowEnd {
            staged,
            fault: None,
        }));
    }
    next_part(alloc, caps, bounds, staged)
}

/// What comes after a stage that is to be carried on.
fn next_part<O: Outlet, L: Link + Drop>(
    alloc: Global,
    caps: Caps,
    bounds: Bounds,
    staged: Staged<O, L>,
) -> Result<Part<O, L>, AllocError>
    requires callers { length staged.links.items + 2 ≤ caps.callers }
    requires few { length staged.links.items ≤ MAX_LINKS }
    requires count { 0 < bounds.count }
    requires idle { 0 < bounds.idle }
    ensures { IfOk result (λ part. GoesOnFrom ⟦<Relay<O> as Method>⟧.keep
        ⟦<Relay<O> as Method>⟧.heard L.left L.faults O.sent O.losses caps bounds staged part) }
{
    match turn_over(alloc, caps, bounds, staged)? {
        Seam::GoesOn(next) => Ok(Part::GoesOn(next)),
        Seam::Ends(staged, fault) => Ok(Part::Over(ShowEnd {
            staged,
            fault: Some(fault),
        })),
    }
}
