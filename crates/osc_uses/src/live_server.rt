//! A server that three threads call at once: one adds a method and removes it, one sends a packet, and one moves the
//! clock and releases.
ghost use Rattle.std.specs.Prelude.{◌≡◌, ◌<◌, ◌+◌, [], ◌∷◌, length, IfOk, IfErr, IfSome};
ghost use Rattle.std.specs.Option.{option_to_list};
ghost use Rattle.osc_turn.specs.declared.limits.TheConstants.{MAX_PASSES};
ghost use Rattle.osc_turn.specs.Passes.{view, one_more};
ghost use Rattle.osc_model.specs.Events.{enrol};
ghost use Rattle.osc_core.specs.Answers.{adding_of, removing_of, ticking_of};
ghost use Rattle.osc_core.specs.Telling.{told};
ghost use Rattle.osc_live.specs.Seen.{past_of};
ghost use Rattle.osc_live.specs.Tokens.{IsOurs, IsOurGuest};
ghost use Rattle.osc_live.specs.Calls.{Calls};
ghost use Rattle.osc_live.specs.Enrolments.{refusal_of};
ghost use Rattle.osc_live.specs.Outs.{AreOurs, live_back};
ghost use Rattle.osc_live.specs.Closing.{Closes};
ghost use Rattle.osc_uses.specs.Live.{ComesAndGoes, Sends, Ticks, AreOneHistory, AllAreOurs};
ghost use Rattle.osc_uses.specs.Live.{Enrols, HasEnrolled, own_entries, OnOpen, IsShort};
ghost use Rattle.osc_uses.specs.Live.{HasEnrolCause, IsRefused, OnNotEnrolled};

use osc_atoms::Fault;
use osc_core::{Adding, Closed, Removing, Submitted, Ticking};
use osc_live::{Caller, EnrolRefusal, Guest, Live, LiveOut, Pumped};
use osc_method::Method;
use osc_packet::{MAX_PACKET, Packet};
use osc_pattern::Address;
use osc_record::Caps;
use std::alloc::{AllocError, Global};
use std::sync::Wait;
use std::thread::{Threads, join};

/// A method, and the address at which it is added.
#[derive(Drop)]
pub struct Placed<M> {
    /// The address.
    pub address: Address,
    /// The method.
    pub method: M,
}

/// What three threads were answered by one server, and what the server left.
#[derive(Drop)]
pub struct LiveRun<M> {
    /// What the first thread was answered for its add.
    pub added: Adding<M>,
    /// And for its removal.
    pub removed: Removing<M>,
    /// What the second was answered, or the first fault of its packet.
    pub sent: Result<Submitted, Fault>,
    /// What the third was answered for its moment.
    pub ticked: Ticking,
    /// And what it released.
    pub pumped: Pumped,
    /// The recording and the boxes.
    pub closed: Closed<M>,
}

/// Why a live server wasn't run to its close.
#[derive(Drop)]
pub enum Unfinished<M: Method> {
    /// There is no memory for the server, or for a list of its callers.
    NoMemory,
    /// The limits admit fewer than three callers, or the recording has no room for them. The server was closed.
    NotEnrolled(EnrolRefusal),
    /// The server isn't closed: it comes back with the tokens of its callers.
    Open(LiveOut<M>),
}

/// Caller 0 and two more.
#[derive(Drop)]
struct Callers {
    first: Caller,
    second: Caller,
    third: Caller,
}

/// A method, the address at which it is added, and the same address again, to remove it.
#[derive(Drop)]
struct Visitor<M> {
    address: Address,
    again: Address,
    method: M,
}

/// The caller that adds a method and removes it, and its answers.
#[derive(Drop)]
struct Visit<M> {
    caller: Caller,
    added: Adding<M>,
    removed: Removing<M>,
}

/// The caller that sends a packet, and its answer, or the first fault of the packet.
#[derive(Drop)]
struct Sending {
    caller: Caller,
    sent: Result<Submitted, Fault>,
}

/// The caller that moves the clock and releases, and its answers.
#[derive(Drop)]
pub(crate) struct Clocked {
    pub(crate) caller: Caller,
    pub(crate) ticked: Ticking,
    pub(crate) pumped: Pumped,
}

/// Caller 0, and the caller that it enrolled.
#[derive(Drop)]
struct Admitted {
    first: Caller,
    new: Caller,
}

/// A guest that wasn't enrolled, and caller 0.
#[derive(Drop)]
struct Refused {
    first: Caller,
    guest: Guest,
    refusal: EnrolRefusal,
}

/// Enrols a guest.
#[tactic(auto, using(crate::proofs::Enrolments::enrolments))]
fn enrolled<M: Method, W: Wait>(rt: &W, live: &Live<M>, first: Caller) -> Result<Admitted, Refused>
    requires ours { IsOurs live.now first }
    requires first { first.number ≡ 0 }
    requires room { (view first.pass).made < MAX_PASSES }
    ensures ours { IfOk result (λ both. IsOurs live.now both.first) }
    ensures new_ours { IfOk result (λ both. IsOurs live.now both.new) }
    ensures first { IfOk result (λ both. both.first.number ≡ 0) }
    ensures enrols { IfOk result
        (λ both. Enrols both.new.number (view first.pass) (view both.first.pass)) }
    ensures no_entries { IfOk result (λ both. own_entries (view both.new.pass) ≡ []) }
    ensures made { IfOk result
        (λ both. (view both.first.pass).made ≡ (view first.pass).made + 1) }
    ensures back_ours { IfErr result
        (λ back. IsOurs live.now back.first × IsOurGuest live.now back.guest) }
    ensures back_first { IfErr result (λ back. back.first.number ≡ 0) }
    ensures back_made { IfErr result
        (λ back. (view back.first.pass).made ≡ (view first.pass).made + 1) }
    ensures back_none { IfErr result (λ back. own_entries (view back.guest.pass) ≡ []) }
    ensures refused { IfErr result (λ back. Calls live.now.caps 0 enrol (refusal_of back.refusal)
        (one_more (view first.pass)) (view back.first.pass)) }
{
    let (first, guest) = live.guest(first);
    let Ok(guest) = guest else { unreachable!() };
    let (first, new) = live.enrol(rt, first, guest);
    match new {
        Ok(new) => Ok(Admitted { first, new }),
        Err((refusal, guest)) => Err(Refused {
            first,
            guest,
            refusal,
        }),
    }
}

/// Caller 0, and the second one, if there is one.
fn both_of(alloc: Global, first: Caller, second: Option<Caller>) -> Result<Vec<Caller>, AllocError>
    ensures { IfOk result (λ callers. callers.items ≡ first ∷ option_to_list second) }
{
    let mut callers = Vec::with_capacity(alloc, 2)?;
    callers.push_reserved(first);
    if let Some(second) = second {
        callers.push_reserved(second);
    }
    Ok(callers)
}

/// Closes a server by which a guest wasn't enrolled. No thread has called it, so its history has the enrolment of the
/// second caller alone, if there is one.
fn close_refused<M: Method>(
    alloc: Global,
    live: Live<M>,
    back: Refused,
    second: Option<Caller>,
) -> Unfinished<M>
    requires empty { past_of live.turn ≡ [] }
    requires ours { IsOurs live back.first × IsOurGuest live back.guest }
    requires second_ours { IfSome second (IsOurs live) }
    requires first { back.first.number ≡ 0 }
    requires made { (view back.first.pass).made ≡ length (option_to_list second) + 2 }
    requires refused { IsRefused live.caps second back.refusal (view back.guest.pass)
        (view back.first.pass) }
    ensures cause { OnNotEnrolled result (HasEnrolCause live.caps) }
    ensures back_ours { OnOpen result (λ out. AreOurs out live.caps) }
    ensures short { OnOpen result IsShort }
{
    let Refused {
        first,
        guest,
        refusal,
    } = back;
    let Ok(callers) = both_of(alloc, first, second) else {
        return Unfinished::NoMemory;
    };
    let Ok(mut guests) = Vec::with_capacity(alloc, 1) else {
        return Unfinished::NoMemory;
    };
    guests.push_reserved(guest);
    match live.close(alloc, callers, guests) {
        Ok(_) => Unfinished::NotEnrolled(refusal),
        Err(out) => Unfinished::Open(out),
    }
}

/// Opens a server with these limits, and enrols two guests.
#[tactic(auto, using(crate::proofs::Enrolments::enrolments))]
fn open_three<M: Method, W: Wait>(
    rt: &W,
    alloc: Global,
    caps: Caps,
) -> Result<(Live<M>, Callers), Unfinished<M>>
    ensures limits { IfOk result (λ opened. opened.0.caps ≡ caps) }
    ensures empty { IfOk result (λ opened. past_of opened.0.turn ≡ []) }
    ensures ours { IfOk result (λ opened. AllAreOurs opened.0 opened.1) }
    ensures first { IfOk result (λ opened. opened.1.first.number ≡ 0) }
    ensures enrolled { IfOk result (λ opened. HasEnrolled opened.1.second.number
        opened.1.third.number (view opened.1.first.pass)) }
    ensures second_new { IfOk result (λ opened. own_entries (view opened.1.second.pass) ≡ []) }
    ensures third_new { IfOk result (λ opened. own_entries (view opened.1.third.pass) ≡ []) }
    ensures made { IfOk result (λ opened. (view opened.1.first.pass).made ≡ 3) }
    ensures cause { IfErr result (λ unfinished. OnNotEnrolled unfinished (HasEnrolCause caps)) }
    ensures back_ours { IfErr result (λ unfinished. OnOpen unfinished (λ out. AreOurs out caps)) }
    ensures short { IfErr result (λ unfinished. OnOpen unfinished IsShort) }
{
    let Ok((live, first)) = Live::open(alloc, caps) else {
        return Err(Unfinished::NoMemory);
    };
    let Admitted { first, new: second } = match enrolled(rt, &live, first) {
        Ok(both) => both,
        Err(back) => return Err(close_refused(alloc, live, back, None)),
    };
    let Admitted { first, new: third } = match enrolled(rt, &live, first) {
        Ok(both) => both,
        Err(back) => return Err(close_refused(alloc, live, back, Some(second))),
    };
    let callers = Callers {
        first,
        second,
        third,
    };
    Ok((live, callers))
}

/// Adds the method at the address, and removes it again.
fn add_and_remove<M: Method, W: Wait>(
    rt: &W,
    live: &Live<M>,
    caller: Caller,
    visitor: Visitor<M>,
) -> Visit<M>
    requires ours { IsOurs live.now caller }
    requires again { visitor.again ≡ visitor.address }
    ensures ours { IsOurs live.now result.caller }
    ensures number { result.caller.number ≡ caller.number }
    ensures calls { ComesAndGoes live.now.caps caller.number visitor.address
        (adding_of result.added) (removing_of result.removed)
        (view caller.pass) (view result.caller.pass) }
{
    let Visitor {
        address,
        again,
        method,
    } = visitor;
    let (caller, added) = live.add(rt, caller, address, method);
    let (caller, removed) = live.remove(rt, caller, &again);
    Visit {
        caller,
        added,
        removed,
    }
}

/// Submits the packet that the bytes are.
fn send<M: Method, W: Wait>(rt: &W, live: &Live<M>, caller: Caller, bytes: &[u8]) -> Sending
    requires ours { IsOurs live.now caller }
    ensures ours { IsOurs live.now result.caller }
    ensures number { result.caller.number ≡ caller.number }
    ensures calls { Sends live.now.caps caller.number bytes.now result.sent
        (view caller.pass) (view result.caller.pass) }
{
    match Packet::check(bytes, MAX_PACKET) {
        Ok(packet) => {
            let (caller, submitted) = live.submit(rt, caller, &packet);
            Sending {
                caller,
                sent: Ok(submitted),
            }
        }
        Err(fault) => Sending {
            caller,
            sent: Err(fault),
        },
    }
}

/// Sets the clock to the moment, and releases until nothing is due.
pub(crate) fn tick_and_pump<M: Method, W: Wait>(
    rt: &W,
    live: &Live<M>,
    caller: Caller,
    moment: u64,
) -> Clocked
    requires ours { IsOurs live.now caller }
    ensures ours { IsOurs live.now result.caller }
    ensures number { result.caller.number ≡ caller.number }
    ensures calls { Ticks live.now.caps caller.number moment (ticking_of result.ticked)
        result.pumped
        (view caller.pass) (view result.caller.pass) }
{
    let (caller, ticked) = live.tick(rt, caller, moment);
    let (caller, pumped) = live.pump(rt, caller);
    Clocked {
        caller,
        ticked,
        pumped,
    }
}

/// One thread sends, and the other moves the clock and releases.
fn send_and_tick<M: Method + Send, R: Threads + Wait + Sync>(
    rt: &R,
    live: &Live<M>,
    sender: Caller,
    bytes: &[u8],
    ticker: Caller,
    moment: u64,
) -> (Sending, Clocked)
    requires ours { IsOurs live.now sender }
    requires ticker_ours { IsOurs live.now ticker }
    ensures ours { IsOurs live.now result.0.caller }
    ensures number { result.0.caller.number ≡ sender.number }
    ensures sends { Sends live.now.caps sender.number bytes.now result.0.sent
        (view sender.pass) (view result.0.caller.pass) }
    ensures ticker_ours { IsOurs live.now result.1.caller }
    ensures ticker_number { result.1.caller.number ≡ ticker.number }
    ensures ticks { Ticks live.now.caps ticker.number moment (ticking_of result.1.ticked)
        result.1.pumped (view ticker.pass) (view result.1.caller.pass) }
{
    join(
        rt,
        || -> Sending
            requires { IsOurs live.now sender }
            ensures ours { IsOurs live.entry.now result.caller }
            ensures number { result.caller.number ≡ sender.number }
            ensures sends { Sends live.entry.now.caps sender.number bytes.entry.now result.sent
                (view sender.pass) (view result.caller.pass) }
        { send(rt, live, sender, bytes) },
        || -> Clocked
            requires { IsOurs live.now ticker }
            ensures ours { IsOurs live.entry.now result.caller }
            ensures number { result.caller.number ≡ ticker.number }
            ensures ticks { Ticks live.entry.now.caps ticker.number moment
                (ticking_of result.ticked) result.pumped
                (view ticker.pass) (view result.caller.pass) }
        { tick_and_pump(rt, live, ticker, moment) },
    )
}

/// One thread adds and removes, one sends, and one moves the clock and releases.
fn three_at_once<M: Method + Send, R: Threads + Wait + Sync>(
    rt: &R,
    live: &Live<M>,
    callers: Callers,
    visitor: Visitor<M>,
    bytes: &[u8],
    moment: u64,
) -> (Visit<M>, (Sending, Clocked))
    requires ours { AllAreOurs live.now callers }
    requires again { visitor.again ≡ visitor.address }
    ensures ours { IsOurs live.now result.0.caller }
    ensures number { result.0.caller.number ≡ callers.first.number }
    ensures comes { ComesAndGoes live.now.caps callers.first.number visitor.address
        (adding_of result.0.added) (removing_of result.0.removed)
        (view callers.first.pass) (view result.0.caller.pass) }
    ensures second_ours { IsOurs live.now result.1.0.caller }
    ensures second_number { result.1.0.caller.number ≡ callers.second.number }
    ensures sends { Sends live.now.caps callers.second.number bytes.now result.1.0.sent
        (view callers.second.pass) (view result.1.0.caller.pass) }
    ensures third_ours { IsOurs live.now result.1.1.caller }
    ensures third_number { result.1.1.caller.number ≡ callers.third.number }
    ensures ticks { Ticks live.now.caps callers.third.number moment
        (ticking_of result.1.1.ticked) result.1.1.pumped
        (view callers.third.pass) (view result.1.1.caller.pass) }
{
    let Callers {
        first,
        second,
        third,
    } = callers;
    join(
        rt,
        || -> Visit<M>
            requires ours { IsOurs live.now first }
            requires again { visitor.again ≡ visitor.address }
            ensures ours { IsOurs live.entry.now result.caller }
            ensures number { result.caller.number ≡ first.number }
            ensures comes { ComesAndGoes live.entry.now.caps first.number visitor.address
                (adding_of result.added) (removing_of result.removed)
                (view first.pass) (view result.caller.pass) }
        { add_and_remove(rt, live, first, visitor) },
        || -> (Sending, Clocked)
            requires ours { IsOurs live.now second }
            requires third_ours { IsOurs live.now third }
            ensures ours { IsOurs live.entry.now result.0.caller }
            ensures number { result.0.caller.number ≡ second.number }
            ensures sends { Sends live.entry.now.caps second.number bytes.entry.now result.0.sent
                (view second.pass) (view result.0.caller.pass) }
            ensures third_ours { IsOurs live.entry.now result.1.caller }
            ensures third_number { result.1.caller.number ≡ third.number }
            ensures ticks { Ticks live.entry.now.caps third.number moment
                (ticking_of result.1.ticked) result.1.pumped
                (view third.pass) (view result.1.caller.pass) }
        { send_and_tick(rt, live, second, bytes, third, moment) },
    )
}

/// Closes the server, which was opened on nothing.
fn close_three<M: Method>(
    alloc: Global,
    live: Live<M>,
    callers: Callers,
) -> Result<Closed<M>, Unfinished<M>>
    requires empty { past_of live.turn ≡ [] }
    requires ours { AllAreOurs live callers }
    requires first { callers.first.number ≡ 0 }
    requires made { (view callers.first.pass).made ≡ 3 }
    ensures closes { IfOk result (λ closed. Closes live.caps []
        ((0, view callers.first.pass) ∷ (callers.second.number, view callers.second.pass)
        ∷ (callers.third.number, view callers.third.pass) ∷ [])
        (view callers.first.pass ∷ view callers.second.pass ∷ view callers.third.pass ∷ [])
        closed.bytes.items (told M.keep M.heard closed.kept.items)) }
    ensures live_back { IfErr result (λ unfinished.
        OnOpen unfinished (λ out. live_back out ≡ live)) }
    ensures back_ours { IfErr result (λ unfinished.
        OnOpen unfinished (λ out. AreOurs out live.caps)) }
    ensures short { IfErr result (λ unfinished. OnOpen unfinished IsShort) }
    ensures enrolled { IfErr result (λ unfinished. OnNotEnrolled unfinished (λ _. ⊥)) }
{
    let Callers {
        first,
        second,
        third,
    } = callers;
    let Ok(mut tokens) = Vec::with_capacity(alloc, 3) else {
        return Err(Unfinished::NoMemory);
    };
    tokens.push_reserved(first);
    tokens.push_reserved(second);
    tokens.push_reserved(third);
    match live.close(alloc, tokens, Vec::new(alloc)) {
        Ok(closed) => Ok(closed),
        Err(out) => Err(Unfinished::Open(out)),
    }
}

/// A server of three callers, from its opening to its close. Each caller is a thread: the first adds the method at the
/// address and removes it, the second submits the bytes, and the third sets the clock to the moment and releases until
/// nothing is due. In which order their calls come is not said; each is answered by the rules at its place in the one
/// history that is recorded.
pub fn live_run<M: Method + Send, R: Threads + Wait + Sync>(
    rt: &R,
    alloc: Global,
    caps: Caps,
    placed: Placed<M>,
    bytes: &[u8],
    moment: u64,
) -> Result<LiveRun<M>, Unfinished<M>>
    ensures one_history { IfOk result (λ run. AreOneHistory caps placed.address bytes.now moment run
        (told M.keep M.heard run.closed.kept.items)) }
    ensures back_ours { IfErr result (λ unfinished. OnOpen unfinished (λ out. AreOurs out caps)) }
    ensures short { IfErr result (λ unfinished. OnOpen unfinished IsShort) }
    ensures not_enrolled { IfErr result
        (λ unfinished. OnNotEnrolled unfinished (HasEnrolCause caps)) }
{
    let Placed { address, method } = placed;
    let Ok(again) = address.copied(alloc) else {
        return Err(Unfinished::NoMemory);
    };
    let (live, callers) = open_three(rt, alloc, caps)?;
    let visitor = Visitor {
        address,
        again,
        method,
    };
    let (visit, (sending, clocked)) = three_at_once(rt, &live, callers, visitor, bytes, moment);
    let callers = Callers {
        first: visit.caller,
        second: sending.caller,
        third: clocked.caller,
    };
    let closed = close_three(alloc, live, callers)?;
    Ok(LiveRun {
        added: visit.added,
        removed: visit.removed,
        sent: sending.sent,
        ticked: clocked.ticked,
        pumped: clocked.pumped,
        closed,
    })
}
