// Workers that play at the same time, while something else goes on, and someone looks.
ghost use Rattle.std.specs.Prelude.{IfOk};
ghost use Rattle.osc_live.specs.Tokens.{IsOurs};
ghost use Rattle.osc_life.specs.Looking.{IsBack, CanLook, CanStart, HasComeBack, HavePlayed};
ghost use Rattle.osc_life.specs.Works.{CanBegin, ArePlayed};

use crate::aside::Aside;
use crate::beside::{Beside, play_beside};
use crate::desk::Desk;
use crate::gate::{Gate, OpenGate};
use crate::meanwhile::Meanwhile;
use crate::players::Players;
use crate::progress::Progress;
use crate::progress_gate::ProgressGate;
use crate::worker::Worker;
use osc_live::{Caller, Live};
use osc_method::Method;
use std::alloc::{AllocError, Global};
use std::sync::Wait;
use std::thread::{Threads, join_mut};

/// Who looks, and under which token.
#[derive(Drop)]
pub(crate) struct Looker<A> {
    pub(crate) first: Caller,
    pub(crate) aside: A,
}

/// Plays the jobs and something else meanwhile as `play_beside` does, in a thread of its own where
/// one can be made, while someone looks. With the results of these comes back the caller who has
/// looked, and the result of that. An `Err` means out of memory.
pub(crate) fn play_seen<
    M: Method + Send,
    W: Threads + Wait + Sync,
    P: Worker<M> + Send + Drop,
    X: Send,
    T: Meanwhile<M, X> + Send + Drop,
    Y,
    A: Aside<M, Y> + Drop,
    G: Gate + Sync,
>(
    desk: &Desk<'_, M, W, G>,
    players: Players<P, T>,
    on: &mut X,
    looker: Looker<A>,
    lent: &mut Y,
) -> Result<(Beside<P::End, T::End>, Caller, A::End), AllocError>
    requires begins { CanBegin desk.now.live.now T.rounds P.ready on.old players }
    requires ours { IsOurs desk.now.live.now looker.first }
    ensures played { IfOk result (λ seen. ArePlayed desk.now.live.now P.plays T.rounds T.ends
        players.jobs.items on.old on.new players.meanwhile players.caller seen.0) }
    ensures back { IfOk result (λ seen. IsBack A.looks desk.now.live.now lent.old lent.new
        looker.first (seen.1, seen.2)) }
{
    let rt = desk.rt;
    let alloc = desk.alloc;
    let live = desk.live;
    let progress = Progress::new();
    let gate = ProgressGate::new(desk.gate, &progress);
    let mut given = Some(players.jobs);
    let mut token = Some(players.caller);
    let mut state = Some(players.meanwhile);
    let mut who = Some(looker);
    let (both, (first, looked)) = join_mut(
        rt,
        &mut || -> Result<Beside<P::End, T::End>, AllocError>
            requires { CanStart live.now T.rounds P.ready on.now given token state }
            ensures { IfOk result (HavePlayed live.entry.now P.plays T.rounds T.ends on.entry.now
                on.exit.now given.entry token.entry state.entry) }
        {
            let desk = Desk {
                rt,
                alloc,
                live,
                gate: &gate,
            };
            let jobs = given.take().unwrap();
            let caller = token.take().unwrap();
            let meanwhile = state.take().unwrap();
            progress.begin();
            let both = play_beside(&desk, jobs, caller, meanwhile, on);
            progress.end();
            both
        },
        &mut || -> (Caller, A::End)
            requires { CanLook live.now who }
            ensures { HasComeBack live.entry.now A.looks lent.entry.now lent.exit.now who.entry
                result }
        { look_on(who.take().unwrap(), lent, rt, alloc, live, &progress) },
    );
    Ok((both?, first, looked))
}

/// Looks under caller 0's token, with what is lent for it. No gate is called.
fn look_on<M: Method, W: Wait, Y, A: Aside<M, Y>>(
    looker: Looker<A>,
    lent: &mut Y,
    rt: &W,
    alloc: Global,
    live: &Live<M>,
    progress: &Progress,
) -> (Caller, A::End)
    requires { IsOurs live.now looker.first }
    ensures { IsBack A.looks live.now lent.old lent.new looker.first result }
{
    let Looker { first, aside } = looker;
    let gate = OpenGate;
    let desk = Desk {
        rt,
        alloc,
        live,
        gate: &gate,
    };
    aside.look(lent, &desk, first, progress)
}
