//! Workers at the same time.
ghost use Rattle.std.specs.Prelude.{◌≡◌, length, map, All, IfOk, Ok};
ghost use Rattle.std.specs.List.{AllZip};
ghost use Rattle.osc_live.specs.Tokens.{IsOurs};
ghost use Rattle.osc_life.specs.Works.{CanPlay, IsDone, caller_of, work_of, caller_in, end_in};

use crate::desk::Desk;
use crate::gate::Gate;
use crate::worker::{Done, Job, Worker};
use osc_live::Caller;
use osc_method::Method;
use std::alloc::{AllocError, Global};
use std::sync::Wait;
use std::thread;
use std::thread::Threads;

/// Plays the jobs, each by a thread of its own where one can be made. The ends stand in the order
/// of the jobs. An `Err` means out of memory.
pub fn play_each<
    M: Method + Send,
    W: Threads + Wait + Sync,
    P: Worker<M> + Send + Drop,
    G: Gate + Sync,
>(desk: &Desk<'_, M, W, G>, jobs: Vec<Job<P>>) -> Result<Vec<Done<P::End>>, AllocError>
    requires { All (CanPlay desk.now.live.now P.ready) jobs.items }
    ensures ours { IfOk result
        (λ all. All (λ done. IsOurs desk.now.live.now done.caller) all.items) }
    ensures done { IfOk result
        (λ all. AllZip (IsDone P.plays desk.now.live.now.caps) jobs.items all.items) }
{
    let rt = desk.rt;
    let alloc = desk.alloc;
    let live = desk.live;
    let gate = desk.gate;
    let worker = |job: Job<P>| -> Result<Done<P::End>, AllocError>
        requires { CanPlay live.now P.ready job }
        ensures { IfOk result
            (λ done. IsOurs live.entry.now done.caller
            × IsDone P.plays live.entry.now.caps job done) }
    {
        let desk = Desk {
            rt,
            alloc,
            live,
            gate,
        };
        play_job(&desk, job)
    };
    let ends = thread::map_vec(rt, jobs, &worker)?;
    let all = all_ended(alloc, ends)?;
    Ok(all)
}

/// Plays one job. An `Err` means out of memory.
fn play_job<M: Method, W: Wait, P: Worker<M>, G: Gate>(
    desk: &Desk<'_, M, W, G>,
    job: Job<P>,
) -> Result<Done<P::End>, AllocError>
    requires { CanPlay desk.now.live.now P.ready job }
    ensures ours { IfOk result (λ done. IsOurs desk.now.live.now done.caller) }
    ensures done { IfOk result (λ done. IsDone P.plays desk.now.live.now.caps job done) }
{
    let Job { caller, work } = job;
    work.work(desk, caller)
}

/// The ends, unless there was no memory for one.
pub fn all_ended<E: Drop>(
    alloc: Global,
    ends: Vec<Result<E, AllocError>>,
) -> Result<Vec<E>, AllocError>
    ensures { IfOk result (λ all. ends.items ≡ map Ok all.items) }
{
    let mut all = Vec::with_capacity(alloc, ends.len())?;
    for end in ends {
        all.push(end?)?;
    }
    Ok(all)
}

/// A job for each work, each with the caller in its place.
pub fn make_jobs<P: Drop>(
    alloc: Global,
    callers: Vec<Caller>,
    works: Vec<P>,
) -> Result<Vec<Job<P>>, AllocError>
    requires { length callers.items ≡ length works.items }
    ensures callers { IfOk result (λ jobs. map caller_of jobs.items ≡ callers.items) }
    ensures works { IfOk result (λ jobs. map work_of jobs.items ≡ works.items) }
{
    let mut jobs = Vec::with_capacity(alloc, works.len())?;
    let mut callers = callers.into_iter();
    for work in works {
        let Some(caller) = callers.next() else {
            unreachable!()
        };
        jobs.push(Job { caller, work })?;
    }
    Ok(jobs)
}

/// The callers, and the results of their works.
pub(crate) fn split_ends<E: Drop>(
    alloc: Global,
    all: Vec<Done<E>>,
) -> Result<(Vec<Caller>, Vec<E>), AllocError>
    ensures callers { IfOk result (λ both. both.0.items ≡ map caller_in all.items) }
    ensures ends { IfOk result (λ both. both.1.items ≡ map end_in all.items) }
{
    let mut callers = Vec::with_capacity(alloc, all.len())?;
    let mut ends = Vec::with_capacity(alloc, all.len())?;
    for done in all {
        let Done { caller, end } = done;
        callers.push(caller)?;
        ends.push(end)?;
    }
    Ok((callers, ends))
}
