// Works with their callers, and what goes on meanwhile with its own.
ghost use Rattle.std.specs.Prelude.{◌≡◌, ◌+◌, ◌∷◌, ◌++◌, [], length, map, IfOk};
ghost use Rattle.osc_life.specs.Works.{caller_of, work_of};

use crate::crowd::make_jobs;
use crate::worker::Job;
use osc_live::Caller;
use std::alloc::{AllocError, Global};

/// What is played at the same time: jobs, and something else meanwhile under a caller of its own.
#[derive(Drop)]
pub(crate) struct Players<P, T> {
    pub(crate) jobs: Vec<Job<P>>,
    pub(crate) caller: Caller,
    pub(crate) meanwhile: T,
}

/// A job for each work, each with the caller in its place. What goes on meanwhile has the last
/// caller.
pub(crate) fn cast<P: Drop, T: Drop>(
    alloc: Global,
    mut callers: Vec<Caller>,
    works: Vec<P>,
    meanwhile: T,
) -> Result<Players<P, T>, AllocError>
    requires { length callers.items ≡ length works.items + 1 }
    ensures callers { IfOk result
        (λ players. callers.items ≡ map caller_of players.jobs.items ++ players.caller ∷ []) }
    ensures works { IfOk result (λ players. map work_of players.jobs.items ≡ works.items) }
    ensures meanwhile { IfOk result (λ players. players.meanwhile ≡ meanwhile) }
{
    let Some(caller) = callers.pop() else {
        unreachable!()
    };
    let jobs = make_jobs(alloc, callers, works)?;
    Ok(Players {
        jobs,
        caller,
        meanwhile,
    })
}
