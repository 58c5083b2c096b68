//! Plays works on a server, each under a caller of its own, while something else goes on, and
//! closes it.
ghost use Rattle.std.specs.Prelude.{◌≡◌, ◌≢◌, ◌≤◌, ◌+◌, ◌∷◌, ◌++◌, List, [], length, All, IfOk};
ghost use Rattle.osc_core.specs.Telling.{told};
ghost use Rattle.osc_record.specs.declared.limits.TheConstants.{MAX_CALLERS};
ghost use Rattle.osc_turn.specs.declared.limits.TheConstants.{MAX_PASSES};
ghost use Rattle.osc_turn.specs.declared.view.Entry.{Entry as Seen};
ghost use Rattle.osc_turn.specs.declared.view.View.{View};
ghost use Rattle.osc_turn.specs.History.{StartsWith};
ghost use Rattle.osc_turn.specs.Passes.{view};
ghost use Rattle.osc_live.specs.Closing.{Closes, known, views_of};
ghost use Rattle.osc_live.specs.Seen.{past_of};
ghost use Rattle.osc_live.specs.declared.guest.EnrolRefusal.TheVariants.{CallersFull, RecordFull};
ghost use Rattle.osc_live.specs.Tokens.{IsOurs, IsOurGuest};
ghost use Rattle.osc_life.specs.Holders.{Holder, Stays, holder_at};
ghost use Rattle.osc_life.specs.Lives.{Lives, LivesUnder};
ghost use Rattle.osc_life.specs.Looking.{HasLookedOn};
ghost use Rattle.osc_life.specs.Whole.{IsWhole};

use crate::aside::Aside;
use crate::beside::{Beside, last_round, play_beside};
use crate::close::close_all;
use crate::crew::{Crew, enrol_more, meet_all};
use crate::crowd::make_jobs;
use crate::desk::Desk;
use crate::gate::Gate;
use crate::life::{Life, Lived, Played};
use crate::looker::{Looker, play_seen};
use crate::meanwhile::Meanwhile;
use crate::players::cast;
use crate::worker::Worker;
use osc_atoms::Room;
use osc_core::Closed;
use osc_live::{Caller, EnrolRefusal, Guest, Live};
use osc_method::Method;
use std::alloc::{AllocError, Global};
use std::sync::Wait;
use std::thread::Threads;

/// Enrols a caller for each work, plays the works at the same time, each under the caller in its
/// place, while caller 0 plays rounds of something else; then a last round, after all that the
/// works have done; and closes the server. An `Err` means out of memory.
pub fn live_on<
    M: Method + Send,
    W: Threads + Wait + Sync,
    P: Worker<M> + Send + Drop,
    X: Send,
    T: Meanwhile<M, X> + Send + Drop,
    G: Gate + Sync,
>(
    rt: &W,
    life: Life<M>,
    works: Vec<P>,
    meanwhile: T,
    on: &mut X,
    gate: &G,
) -> Result<Lived<M, P, P::End, T::End>, AllocError>
    requires whole { IsWhole life }
    requires room { 1 + length life.others.items + length works.items ≤ life.live.caps.callers }
    requires few { 1 + length life.others.items + length works.items ≤ MAX_CALLERS }
    requires ready { All P.ready works.items }
    requires begun { (v : View) → StartsWith v.seen (view life.first.pass).seen
        → T.rounds on.old on.old meanwhile (holder_at life.live.caps 0) v v }
    requires stays { (after : X) (end : T.End) (tokens : List (List Seen)) (v w : View)
        → T.ends on.old after end (holder_at life.live.caps 0) tokens v w → Stays v w }
    ensures { IfOk result (λ lived. Lives P.plays T.ends life.live.caps (past_of life.live.turn)
        (view life.first.pass) works.items on.old on.new lived.closed.bytes.items
        (told M.keep M.heard lived.closed.kept.items) lived.works lived.end) }
{
    osc_model::laws::a_server_stays_sound();
    let Life {
        alloc,
        live,
        first,
        others,
    } = life;
    let desk = Desk {
        rt,
        alloc,
        live: &live,
        gate,
    };
    let (crew, refused) = enrol_more(rt, alloc, &live, first, works.len())?;
    match refused {
        None => {
            let Crew { first, callers } = meet_all(alloc, &live, crew)?;
            let jobs = make_jobs(alloc, callers, works)?;
            let Beside { crew, ends, end } = play_beside(&desk, jobs, first, meanwhile, on)?;
            let closed = hand_in(alloc, live, others, crew, Vec::new(alloc))?;
            let works = Played::Each(ends);
            Ok(Lived { closed, works, end })
        }
        Some((why, guest)) => {
            let (crew, end) = last_round(&desk, crew, meanwhile, on)?;
            let mut guests = Vec::with_capacity(alloc, 1)?;
            guests.push(guest)?;
            let closed = hand_in(alloc, live, others, crew, guests)?;
            let works = Played::NoRoom(room_in(why), works);
            Ok(Lived { closed, works, end })
        }
    }
}

/// What `live_under` plays: works that are played at the same time, what goes on meanwhile, and who
/// looks.
#[derive(Drop)]
pub struct Tasks<P, T, A> {
    pub works: Vec<P>,
    pub meanwhile: T,
    pub aside: A,
}

/// Enrols a caller for each work and one more, plays the works at the same time, each under the
/// caller in its place, while the last one plays rounds of something else with `on`, and caller 0
/// looks with `lent`; then a last round, after all that the works have done; and closes the server.
/// Where an enrolment finds no room, nobody looks. An `Err` means out of memory.
pub fn live_under<
    M: Method + Send,
    W: Threads + Wait + Sync,
    P: Worker<M> + Send + Drop,
    X: Send,
    T: Meanwhile<M, X> + Send + Drop,
    Y,
    A: Aside<M, Y> + Drop,
    G: Gate + Sync,
>(
    rt: &W,
    life: Life<M>,
    tasks: Tasks<P, T, A>,
    on: &mut X,
    lent: &mut Y,
    gate: &G,
) -> Result<(Lived<M, P, P::End, Option<T::End>>, Option<A::End>), AllocError>
    requires whole { IsWhole life }
    requires room { 2 + length life.others.items + length tasks.works.items
        ≤ life.live.caps.callers }
    requires few { 2 + length life.others.items + length tasks.works.items ≤ MAX_CALLERS }
    requires ready { All P.ready tasks.works.items }
    requires begun { (holder : Holder) (v : View)
        → T.rounds on.old on.old tasks.meanwhile holder v v }
    ensures lives { IfOk result (λ both. LivesUnder P.plays T.ends life.live.caps
        (past_of life.live.turn) (view life.first.pass) tasks.works.items on.old on.new
        both.0.closed.bytes.items (told M.keep M.heard both.0.closed.kept.items) both.0.works
        both.0.end) }
    ensures looked { IfOk result (λ both. HasLookedOn A.looks life.live.caps lent.old lent.new
        both.0.closed.bytes.items both.1) }
{
    osc_model::laws::a_server_stays_sound();
    let Life {
        alloc,
        live,
        first,
        others,
    } = life;
    let (crew, refused) = enrol_more(rt, alloc, &live, first, tasks.works.len() + 1)?;
    match refused {
        None => {
            let Crew { first, callers } = meet_all(alloc, &live, crew)?;
            let players = cast(alloc, callers, tasks.works, tasks.meanwhile)?;
            let aside = tasks.aside;
            let looker = Looker { first, aside };
            let desk = Desk {
                rt,
                alloc,
                live: &live,
                gate,
            };
            let (both, first, seen) = play_seen(&desk, players, on, looker, lent)?;
            let Beside { crew, ends, end } = both;
            let callers = all_callers(crew)?;
            let crew = Crew { first, callers };
            let closed = hand_in(alloc, live, others, crew, Vec::new(alloc))?;
            let (works, end) = (Played::Each(ends), Some(end));
            Ok((Lived { closed, works, end }, Some(seen)))
        }
        Some((why, guest)) => {
            let mut guests = Vec::with_capacity(alloc, 1)?;
            guests.push(guest)?;
            let closed = hand_in(alloc, live, others, crew, guests)?;
            let (works, end) = (Played::NoRoom(room_in(why), tasks.works), None);
            Ok((Lived { closed, works, end }, None))
        }
    }
}

/// The room for an enrolment that was refused for lack of it.
fn room_in(why: EnrolRefusal) -> Room
    requires { why ≢ CallersFull }
    ensures { why ≡ RecordFull result }
{
    match why {
        EnrolRefusal::RecordFull(room) => room,
        EnrolRefusal::CallersFull => unreachable!(),
    }
}

/// The callers, and the first of them after the others.
fn all_callers(crew: Crew) -> Result<Vec<Caller>, AllocError>
    ensures { IfOk result (λ all. all.items ≡ crew.callers.items ++ crew.first ∷ []) }
{
    let Crew { first, mut callers } = crew;
    callers.push(first)?;
    Ok(callers)
}

/// Closes a server whose tokens are all handed in: caller 0's, those of the others, and these.
fn hand_in<M: Method>(
    alloc: Global,
    live: Live<M>,
    mut others: Vec<Caller>,
    crew: Crew,
    guests: Vec<Guest>,
) -> Result<Closed<M>, AllocError>
    requires ours { IsOurs live crew.first }
    requires number { crew.first.number ≡ 0 }
    requires others_ours { All (IsOurs live) others.items }
    requires callers_ours { All (IsOurs live) crew.callers.items }
    requires guests_ours { All (IsOurGuest live) guests.items }
    requires few { 1 + length others.items + length crew.callers.items + length guests.items
        ≤ MAX_PASSES }
    requires all_in { (view crew.first.pass).made
        ≡ 1 + length others.items + length crew.callers.items + length guests.items }
    ensures { IfOk result (λ closed. Closes live.caps (past_of live.turn)
        (known (crew.first ∷ (others.items ++ crew.callers.items)))
        (views_of (crew.first ∷ (others.items ++ crew.callers.items)) guests.items)
        closed.bytes.items (told M.keep M.heard closed.kept.items)) }
{
    let Crew { first, mut callers } = crew;
    others.insert(0, first)?;
    others.append(&mut callers)?;
    let closed = close_all(alloc, live, others, guests)?;
    Ok(closed)
}
