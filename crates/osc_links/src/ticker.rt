// The ticker's rounds.
ghost use Rattle.std.specs.Prelude.{◌≡◌, [], None};
ghost use Rattle.std.specs.Option.{option_map};
ghost use Rattle.osc_record.specs.Shown.{room_of};
ghost use Rattle.osc_turn.specs.Passes.{view};
ghost use Rattle.osc_live.specs.Tokens.{IsOurs};
ghost use Rattle.osc_script.specs.declared.act.Act.TheVariants.{Tick, Pump};
ghost use Rattle.osc_lanes.specs.Shares.{ended};
ghost use Rattle.osc_life.specs.Holders.{seen_by, holder_of};
ghost use Rattle.osc_lanes.specs.Tells.{TellsAct};
ghost use Rattle.osc_links.specs.Ticks.{is_later, last_after, clock_read, PlaysRound};
ghost use Rattle.osc_links.specs.Rounds.{IsRound, HasTicked, HasEnded, Keeps, end_of};

use crate::served::TickerEnd;
use osc_atoms::Room;
use osc_edge::{Clock, Moment};
use osc_life::{Desk, Done, Gate, Meanwhile};
use osc_live::{Caller, Live, PumpEnd, Pumped};
use osc_method::Method;
use std::sync::Wait;

/// The result of rounds.
#[derive(Clone, Copy)]
pub(crate) enum Round {
    /// There was room for all; the last moment that was handed in is told, if there was one.
    Played(Option<u64>),
    /// The ticker has ended.
    Over(TickerEnd),
}

impl<M: Method, C: Clock> Meanwhile<M, C> for Round {
    type End = TickerEnd;

    ghost rounds = { λ before now state holder v w. HasTicked M.keep M.heard holder
        (clock_read C.left C.faults before now) state v.seen w.seen };

    ghost ends = { λ before after end holder tokens v w. HasEnded M.keep M.heard holder tokens
        (clock_read C.left C.faults before after) end v.seen w.seen };

    fn round<W: Wait, G: Gate>(
        &mut self,
        on: &mut C,
        desk: &Desk<'_, M, W, G>,
        caller: Caller,
    ) -> (Caller, bool) {
        match *self {
            Round::Played(last) => {
                let (caller, round, pumped) = play_round(desk.rt, desk.live, caller, on, last);
                *self = round;
                report_released(desk.gate, pumped);
                let more = goes_on(round);
                wait_until(on, more, next_due(pumped));
                (caller, more)
            }
            Round::Over(_) => (caller, false),
        }
    }

    fn last<W: Wait, G: Gate>(
        self,
        on: &mut C,
        desk: &Desk<'_, M, W, G>,
        caller: Caller,
    ) -> Done<TickerEnd> {
        match self {
            Round::Played(last) => {
                let (caller, round, pumped) = play_round(desk.rt, desk.live, caller, on, last);
                report_released(desk.gate, pumped);
                let end = end_of(round);
                Done { caller, end }
            }
            Round::Over(end) => Done { caller, end },
        }
    }
}

fn goes_on(round: Round) -> bool {
    match round {
        Round::Played(_) => true,
        Round::Over(_) => false,
    }
}

fn end_of(round: Round) -> TickerEnd
    ensures { result ≡ end_of round }
{
    match round {
        Round::Played(_) => TickerEnd::Done,
        Round::Over(end) => end,
    }
}

/// Reports to the gate how many units a round has released, if it has released any.
fn report_released<G: Gate>(gate: &G, pumped: Option<Pumped>) {
    if let Some(Pumped { released, .. }) = pumped
        && released > 0
    {
        gate.released(released);
    }
}

/// Tells the clock until when nothing is to be done, where rounds go on.
fn wait_until<C: Clock>(clock: &mut C, goes_on: bool, due: Option<u64>)
    ensures same { C.left clock.new ≡ C.left clock.old }
    ensures steady { C.faults clock.new ≡ C.faults clock.old }
{
    if goes_on {
        clock.until(due);
    }
}

/// Plays one round, after the one that has handed in `last`, if one has. The third value is the
/// round's pump, if it came to it.
fn play_round<M: Method, W: Wait, C: Clock>(
    rt: &W,
    live: &Live<M>,
    caller: Caller,
    clock: &mut C,
    last: Option<u64>,
) -> (Caller, Round, Option<Pumped>)
    requires ours { IsOurs live.now caller }
    ensures ours { IsOurs live.now result.0 }
    ensures holder { holder_of live.now.caps result.0 ≡ holder_of live.now.caps caller }
    ensures keeps { Keeps (view caller.pass) (view result.0.pass) }
    ensures round { IsRound M.keep M.heard (holder_of live.now.caps caller) last
        (clock_read C.left C.faults clock.old clock.new)
        result.1 (seen_by caller) (seen_by result.0) }
{
    match clock.now() {
        Moment::At(moment) => {
            let after = later(last, moment);
            let (caller, stop, pumped) = play_moment(rt, live, caller, last, moment);
            match stop {
                None => (caller, Round::Played(after), pumped),
                Some(room) => (caller, Round::Over(TickerEnd::Full(room)), pumped),
            }
        }
        Moment::Failed => (caller, Round::Over(TickerEnd::ClockFailed), None),
    }
}

fn play_moment<M: Method, W: Wait>(
    rt: &W,
    live: &Live<M>,
    caller: Caller,
    last: Option<u64>,
    moment: u64,
) -> (Caller, Option<Room>, Option<Pumped>)
    requires ours { IsOurs live.now caller }
    ensures ours { IsOurs live.now result.0 }
    ensures holder { holder_of live.now.caps result.0 ≡ holder_of live.now.caps caller }
    ensures keeps { Keeps (view caller.pass) (view result.0.pass) }
    ensures plays { PlaysRound M.keep M.heard (holder_of live.now.caps caller) last moment
        (option_map room_of result.1) (seen_by caller) (seen_by result.0) }
{
    if !is_later(last, moment) {
        return pump(rt, live, caller);
    }
    let (caller, stop) = tick(rt, live, caller, moment);
    match stop {
        None => pump(rt, live, caller),
        Some(room) => (caller, Some(room), None),
    }
}

fn tick<M: Method, W: Wait>(
    rt: &W,
    live: &Live<M>,
    caller: Caller,
    moment: u64,
) -> (Caller, Option<Room>)
    requires ours { IsOurs live.now caller }
    ensures ours { IsOurs live.now result.0 }
    ensures holder { holder_of live.now.caps result.0 ≡ holder_of live.now.caps caller }
    ensures keeps { Keeps (view caller.pass) (view result.0.pass) }
    ensures played { TellsAct M.keep M.heard (holder_of live.now.caps caller) 0 (Tick moment) [] []
        (ended [] None) (ended [] (option_map room_of result.1)) (seen_by caller)
        (seen_by result.0) }
{
    let (caller, answer) = live.tick(rt, caller, moment);
    (caller, answer.stop())
}

fn pump<M: Method, W: Wait>(
    rt: &W,
    live: &Live<M>,
    caller: Caller,
) -> (Caller, Option<Room>, Option<Pumped>)
    requires ours { IsOurs live.now caller }
    ensures ours { IsOurs live.now result.0 }
    ensures holder { holder_of live.now.caps result.0 ≡ holder_of live.now.caps caller }
    ensures keeps { Keeps (view caller.pass) (view result.0.pass) }
    ensures played { TellsAct M.keep M.heard (holder_of live.now.caps caller) 0 Pump [] []
        (ended [] None) (ended [] (option_map room_of result.1)) (seen_by caller)
        (seen_by result.0) }
{
    let (caller, pumped) = live.pump(rt, caller);
    (caller, pumped.end.stop(), Some(pumped))
}

/// The least due moment that a pump has left in the queue.
fn next_due(pumped: Option<Pumped>) -> Option<u64> {
    match pumped?.end {
        PumpEnd::NothingDue { next } => next,
        PumpEnd::RecordFull(_) => None,
    }
}

/// Whether the moment is the first, or greater than the last one that was handed in.
fn is_later(last: Option<u64>, moment: u64) -> bool
    ensures { result ≡ is_later last moment }
{
    match last {
        None => true,
        Some(last) => last < moment,
    }
}

/// The last moment that was handed in, after a round that has read this one.
fn later(last: Option<u64>, moment: u64) -> Option<u64>
    ensures { result ≡ last_after last moment }
{
    if is_later(last, moment) {
        Some(moment)
    } else {
        last
    }
}
