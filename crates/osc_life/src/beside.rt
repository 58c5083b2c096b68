//! Workers at the same time, while something else goes on.
ghost use Rattle.std.specs.Prelude.{All, IfOk, IsSomeAnd};
ghost use Rattle.std.specs.List.{AllZip};
ghost use Rattle.osc_live.specs.Tokens.{IsOurs};
ghost use Rattle.osc_life.specs.Works.{IsDone, CanPlay, CanGoOn, PlaysOn, IsOver, ArePlayed};

use crate::crew::{Crew, learn_all};
use crate::crowd::{play_each, split_ends};
use crate::desk::Desk;
use crate::gate::Gate;
use crate::meanwhile::Meanwhile;
use crate::worker::{Done, Job, Worker};
use osc_live::Caller;
use osc_method::Method;
use std::alloc::AllocError;
use std::sync::Wait;
use std::sync::atomic::{AtomicU64, Ordering};
use std::thread::{Threads, join_mut};

/// The result of jobs, and of what went on meanwhile.
#[derive(Drop)]
pub struct Beside<E, F> {
    /// The caller of what went on meanwhile, and those of the jobs.
    pub crew: Crew,
    /// The results of the jobs, in their order.
    pub ends: Vec<E>,
    pub end: F,
}

/// Plays rounds until the workers are over, or it has ended.
fn go_on<M: Method, W: Wait, X, T: Meanwhile<M, X>, G: Gate>(
    desk: &Desk<'_, M, W, G>,
    mut caller: Caller,
    meanwhile: &mut T,
    on: &mut X,
    over: &AtomicU64,
) -> Caller
    requires { CanGoOn desk.now.live.now T.rounds on.old meanwhile.old caller }
    ensures { PlaysOn desk.now.live.now T.rounds on.old on.new meanwhile.old meanwhile.new
        caller result }
{
    for _ in desk.rt.forever() {
        let ended = over.load(Ordering::SeqCst) != 0;
        if ended {
            return caller;
        }
        let (next, goes_on) = meanwhile.round(on, desk, caller);
        caller = next;
        if !goes_on {
            return caller;
        }
    }
    unreachable!()
}

/// Plays the jobs, each by a thread of its own where one can be made, and rounds of something else
/// meanwhile. An `Err` means out of memory for the jobs.
fn play_both<
    M: Method + Send,
    W: Threads + Wait + Sync,
    P: Worker<M> + Send + Drop,
    X: Send,
    T: Meanwhile<M, X> + Send,
    G: Gate + Sync,
>(
    desk: &Desk<'_, M, W, G>,
    jobs: Vec<Job<P>>,
    caller: Caller,
    meanwhile: &mut T,
    on: &mut X,
) -> (Caller, Result<Vec<Done<P::End>>, AllocError>)
    requires jobs { All (CanPlay desk.now.live.now P.ready) jobs.items }
    requires goes { CanGoOn desk.now.live.now T.rounds on.old meanwhile.old caller }
    ensures plays { PlaysOn desk.now.live.now T.rounds on.old on.new meanwhile.old meanwhile.new
        caller result.0 }
    ensures ours { IfOk result.1
        (λ all. All (λ done. IsOurs desk.now.live.now done.caller) all.items) }
    ensures done { IfOk result.1
        (λ all. AllZip (IsDone P.plays desk.now.live.now.caps) jobs.items all.items) }
{
    let rt = desk.rt;
    let alloc = desk.alloc;
    let live = desk.live;
    let gate = desk.gate;
    let over = AtomicU64::new(0);
    let mut token = Some(caller);
    let mut given = Some(jobs);
    join_mut(
        rt,
        &mut || -> Caller
            requires { IsSomeAnd token (CanGoOn live.now T.rounds on.now meanwhile.now) }
            ensures { IsSomeAnd token.entry (λ c. PlaysOn live.entry.now T.rounds on.entry.now
                on.exit.now meanwhile.entry.now meanwhile.exit.now c result) }
        {
            let desk = Desk {
                rt,
                alloc,
                live,
                gate,
            };
            go_on(&desk, token.take().unwrap(), meanwhile, on, &over)
        },
        &mut || -> Result<Vec<Done<P::End>>, AllocError>
            requires { IsSomeAnd given (λ jobs. All (CanPlay live.now P.ready) jobs.items) }
            ensures { IfOk result (λ all. IsSomeAnd given.entry (λ jobs.
                All (λ done. IsOurs live.entry.now done.caller) all.items
                × AllZip (IsDone P.plays live.entry.now.caps) jobs.items all.items)) }
        {
            let desk = Desk {
                rt,
                alloc,
                live,
                gate,
            };
            let ends = play_each(&desk, given.take().unwrap());
            over.store(1, Ordering::SeqCst);
            ends
        },
    )
}

/// Tells the first caller what the others have seen, and plays the last round.
pub(crate) fn last_round<M: Method, W: Wait, X, T: Meanwhile<M, X> + Drop, G: Gate>(
    desk: &Desk<'_, M, W, G>,
    crew: Crew,
    meanwhile: T,
    on: &mut X,
) -> Result<(Crew, T::End), AllocError>
    requires goes { CanGoOn desk.now.live.now T.rounds on.old meanwhile crew.first }
    requires others { All (IsOurs desk.now.live.now) crew.callers.items }
    ensures { IfOk result (λ r. IsOver desk.now.live.now T.rounds T.ends on.old on.new meanwhile
        r.1 crew.first r.0.first crew.callers.items r.0.callers.items) }
{
    let Crew { first, callers } = crew;
    let (first, callers) = learn_all(desk.alloc, desk.live, first, callers)?;
    let Done { caller, end } = meanwhile.last(on, desk, first);
    let crew = Crew {
        first: caller,
        callers,
    };
    Ok((crew, end))
}

/// Plays the jobs, each by a thread of its own where one can be made, and rounds of something else
/// meanwhile; then the last round of that, after all that the workers have done. An `Err` means out
/// of memory.
pub fn play_beside<
    M: Method + Send,
    W: Threads + Wait + Sync,
    P: Worker<M> + Send + Drop,
    X: Send,
    T: Meanwhile<M, X> + Send + Drop,
    G: Gate + Sync,
>(
    desk: &Desk<'_, M, W, G>,
    jobs: Vec<Job<P>>,
    caller: Caller,
    mut meanwhile: T,
    on: &mut X,
) -> Result<Beside<P::End, T::End>, AllocError>
    requires jobs { All (CanPlay desk.now.live.now P.ready) jobs.items }
    requires goes { CanGoOn desk.now.live.now T.rounds on.old meanwhile caller }
    ensures { IfOk result (λ both. ArePlayed desk.now.live.now P.plays T.rounds T.ends jobs.items
        on.old on.new meanwhile caller both) }
{
    let (first, ends) = play_both(desk, jobs, caller, &mut meanwhile, on);
    let all = ends?;
    let (callers, ends) = split_ends(desk.alloc, all)?;
    let (crew, end) = last_round(desk, Crew { first, callers }, meanwhile, on)?;
    Ok(Beside { crew, ends, end })
}
