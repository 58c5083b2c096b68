//! The calls that hand an event in.
ghost use Rattle.osc_atoms.specs.declared.limits.TheConstants.{MAX_PACKET};
ghost use Rattle.std.specs.Prelude.{◌≡◌, ◌<◌, Some, map};
ghost use Rattle.osc_packet.specs.Reading.{packet_fault};
ghost use Rattle.osc_model.specs.Events.{enrol, tick, release, submit};
ghost use Rattle.osc_model.specs.History.{state_of, stepped_in};
ghost use Rattle.osc_c.specs.Held.{played, left, answered, after, submit_answered, after_submit};
ghost use Rattle.osc_c.specs.Held.{released_in, answered_to, done_by};
ghost use Rattle.osc_core.specs.Invoked.{call_of};
ghost use Rattle.osc_c.specs.Reading.{left_of};

use crate::answer::Answer;
use crate::handle::{Handle, put, take};
use crate::shown::{
    enrolled_shown, fault_shown, releasing_shown, submitted_shown, ticking_shown, told,
};
use crate::state::State;
use crate::status;
use osc_core::Releasing;
use osc_packet::{MAX_PACKET, Packet};
use std::alloc::Global;

/// Enrols a caller, whose number is answered. It is caller 0's event.
#[unsafe(no_mangle)]
pub extern "C" fn osc_server_enrol(handle: &mut Handle, alloc: Global) -> Answer
    ensures answer { result ≡ answered (played handle.old.spot.held) enrol }
    ensures performance { played handle.new.spot.held
        ≡ after (played handle.old.spot.held) 0 enrol }
    ensures unread { left handle.new.spot.held ≡ left handle.old.spot.held }
{
    osc_server_enrol_by(handle, 0, alloc)
}

/// The same as an event of this caller.
#[unsafe(no_mangle)]
pub extern "C" fn osc_server_enrol_by(handle: &mut Handle, caller: u32, alloc: Global) -> Answer
    ensures answer { result ≡ answered_to (played handle.old.spot.held) caller
        (answered (played handle.old.spot.held) enrol) }
    ensures performance { played handle.new.spot.held ≡ done_by (played handle.old.spot.held) caller
        (after (played handle.old.spot.held) caller enrol)
        (played handle.old.spot.held) }
    ensures unread { left handle.new.spot.held ≡ left handle.old.spot.held }
{
    let Some(mut state) = take(handle, alloc) else {
        return told(status::IS_CLOSED);
    };
    let answer = enrol_as(&mut state, caller);
    put(handle, state);
    answer
}

fn enrol_as(state: &mut State, caller: u32) -> Answer
    ensures answer { result ≡ answered_to (Some state.old.core.performance) caller
        (answered (Some state.old.core.performance) enrol) }
    ensures performance { Some state.new.core.performance
        ≡ done_by (Some state.old.core.performance) caller
        (after (Some state.old.core.performance) caller enrol)
        (Some state.old.core.performance) }
    ensures unread { left_of state.new ≡ left_of state.old }
{
    if caller >= state.core.callers() {
        return told(status::NOT_ENROLLED);
    }
    enrol_in(state, caller)
}

fn enrol_in(state: &mut State, caller: u32) -> Answer
    requires { caller < (state_of state.old.core.performance).callers }
    ensures answer { result ≡ answered (Some state.old.core.performance) enrol }
    ensures performance { Some state.new.core.performance
        ≡ after (Some state.old.core.performance) caller enrol }
    ensures unread { left_of state.new ≡ left_of state.old }
{
    enrolled_shown(state.core.enrol(caller))
}

/// Queues the units of the packet that the bytes are. It is caller 0's event.
#[unsafe(no_mangle)]
pub extern "C" fn osc_server_submit(handle: &mut Handle, bytes: &[u8], alloc: Global) -> Answer
    ensures answer { result
        ≡ submit_answered (packet_fault MAX_PACKET bytes.now) (played handle.old.spot.held)
        bytes.now }
    ensures performance { played handle.new.spot.held
        ≡ after_submit (packet_fault MAX_PACKET bytes.now) (played handle.old.spot.held) 0
        bytes.now }
    ensures unread { left handle.new.spot.held ≡ left handle.old.spot.held }
{
    osc_server_submit_by(handle, 0, bytes, alloc)
}

/// The same as an event of this caller.
#[unsafe(no_mangle)]
pub extern "C" fn osc_server_submit_by(
    handle: &mut Handle,
    caller: u32,
    bytes: &[u8],
    alloc: Global,
) -> Answer
    ensures answer { result ≡ answered_to (played handle.old.spot.held) caller
        (submit_answered (packet_fault MAX_PACKET bytes.now) (played handle.old.spot.held)
        bytes.now) }
    ensures performance { played handle.new.spot.held ≡ done_by (played handle.old.spot.held) caller
        (after_submit (packet_fault MAX_PACKET bytes.now) (played handle.old.spot.held) caller
        bytes.now)
        (played handle.old.spot.held) }
    ensures unread { left handle.new.spot.held ≡ left handle.old.spot.held }
{
    let Some(mut state) = take(handle, alloc) else {
        return told(status::IS_CLOSED);
    };
    let answer = submit_as(&mut state, caller, bytes);
    put(handle, state);
    answer
}

fn submit_as(state: &mut State, caller: u32, bytes: &[u8]) -> Answer
    ensures answer { result ≡ answered_to (Some state.old.core.performance) caller
        (submit_answered (packet_fault MAX_PACKET bytes.now) (Some state.old.core.performance)
        bytes.now) }
    ensures performance { Some state.new.core.performance
        ≡ done_by (Some state.old.core.performance) caller
        (after_submit (packet_fault MAX_PACKET bytes.now) (Some state.old.core.performance) caller
        bytes.now)
        (Some state.old.core.performance) }
    ensures unread { left_of state.new ≡ left_of state.old }
{
    if caller >= state.core.callers() {
        return told(status::NOT_ENROLLED);
    }
    submit_in(state, caller, bytes)
}

fn submit_in(state: &mut State, caller: u32, bytes: &[u8]) -> Answer
    requires { caller < (state_of state.old.core.performance).callers }
    ensures answer { result
        ≡ submit_answered (packet_fault MAX_PACKET bytes.now) (Some state.old.core.performance)
        bytes.now }
    ensures performance { Some state.new.core.performance
        ≡ after_submit (packet_fault MAX_PACKET bytes.now) (Some state.old.core.performance) caller
        bytes.now }
    ensures unread { left_of state.new ≡ left_of state.old }
{
    match Packet::check(bytes, MAX_PACKET) {
        Ok(packet) => submit_packet(state, caller, &packet),
        Err(fault) => fault_shown(fault),
    }
}

fn submit_packet(state: &mut State, caller: u32, packet: &Packet<'_>) -> Answer
    requires { caller < (state_of state.old.core.performance).callers }
    ensures answer { result ≡ answered (Some state.old.core.performance) (submit packet.now) }
    ensures performance { Some state.new.core.performance
        ≡ after (Some state.old.core.performance) caller (submit packet.now) }
    ensures unread { left_of state.new ≡ left_of state.old }
{
    submitted_shown(state.core.submit(caller, packet))
}

/// Sets the clock. It is caller 0's event.
#[unsafe(no_mangle)]
pub extern "C" fn osc_server_tick(handle: &mut Handle, moment: u64, alloc: Global) -> Answer
    ensures answer { result ≡ answered (played handle.old.spot.held) (tick moment) }
    ensures performance { played handle.new.spot.held
        ≡ after (played handle.old.spot.held) 0 (tick moment) }
    ensures unread { left handle.new.spot.held ≡ left handle.old.spot.held }
{
    osc_server_tick_by(handle, 0, moment, alloc)
}

/// The same as an event of this caller.
#[unsafe(no_mangle)]
pub extern "C" fn osc_server_tick_by(
    handle: &mut Handle,
    caller: u32,
    moment: u64,
    alloc: Global,
) -> Answer
    ensures answer { result ≡ answered_to (played handle.old.spot.held) caller
        (answered (played handle.old.spot.held) (tick moment)) }
    ensures performance { played handle.new.spot.held ≡ done_by (played handle.old.spot.held) caller
        (after (played handle.old.spot.held) caller (tick moment))
        (played handle.old.spot.held) }
    ensures unread { left handle.new.spot.held ≡ left handle.old.spot.held }
{
    let Some(mut state) = take(handle, alloc) else {
        return told(status::IS_CLOSED);
    };
    let answer = tick_as(&mut state, caller, moment);
    put(handle, state);
    answer
}

fn tick_as(state: &mut State, caller: u32, moment: u64) -> Answer
    ensures answer { result ≡ answered_to (Some state.old.core.performance) caller
        (answered (Some state.old.core.performance) (tick moment)) }
    ensures performance { Some state.new.core.performance
        ≡ done_by (Some state.old.core.performance) caller
        (after (Some state.old.core.performance) caller (tick moment))
        (Some state.old.core.performance) }
    ensures unread { left_of state.new ≡ left_of state.old }
{
    if caller >= state.core.callers() {
        return told(status::NOT_ENROLLED);
    }
    tick_in(state, caller, moment)
}

fn tick_in(state: &mut State, caller: u32, moment: u64) -> Answer
    requires { caller < (state_of state.old.core.performance).callers }
    ensures answer { result ≡ answered (Some state.old.core.performance) (tick moment) }
    ensures performance { Some state.new.core.performance
        ≡ after (Some state.old.core.performance) caller (tick moment) }
    ensures unread { left_of state.new ≡ left_of state.old }
{
    ticking_shown(state.core.tick(caller, moment))
}

/// Releases the unit that is due first. Its calls can be read then. It is caller 0's event.
#[unsafe(no_mangle)]
pub extern "C" fn osc_server_release(handle: &mut Handle, alloc: Global) -> Answer
    ensures answer { result ≡ answered (played handle.old.spot.held) release }
    ensures performance { played handle.new.spot.held
        ≡ after (played handle.old.spot.held) 0 release }
    ensures unread { left handle.new.spot.held ≡ released_in (played handle.old.spot.held) }
{
    osc_server_release_by(handle, 0, alloc)
}

/// The same as an event of this caller.
#[unsafe(no_mangle)]
pub extern "C" fn osc_server_release_by(handle: &mut Handle, caller: u32, alloc: Global) -> Answer
    ensures answer { result ≡ answered_to (played handle.old.spot.held) caller
        (answered (played handle.old.spot.held) release) }
    ensures performance { played handle.new.spot.held ≡ done_by (played handle.old.spot.held) caller
        (after (played handle.old.spot.held) caller release)
        (played handle.old.spot.held) }
    ensures unread { left handle.new.spot.held ≡ done_by (played handle.old.spot.held) caller
        (released_in (played handle.old.spot.held)) (left handle.old.spot.held) }
{
    let Some(mut state) = take(handle, alloc) else {
        return told(status::IS_CLOSED);
    };
    let answer = release_as(&mut state, caller);
    put(handle, state);
    answer
}

fn release_as(state: &mut State, caller: u32) -> Answer
    ensures answer { result ≡ answered_to (Some state.old.core.performance) caller
        (answered (Some state.old.core.performance) release) }
    ensures performance { Some state.new.core.performance
        ≡ done_by (Some state.old.core.performance) caller
        (after (Some state.old.core.performance) caller release)
        (Some state.old.core.performance) }
    ensures unread { left_of state.new ≡ done_by (Some state.old.core.performance) caller
        (map call_of (stepped_in state.old.core.performance release).invocations)
        (left_of state.old) }
{
    if caller >= state.core.callers() {
        return told(status::NOT_ENROLLED);
    }
    release_in(state, caller)
}

fn release_in(state: &mut State, caller: u32) -> Answer
    requires { caller < (state_of state.old.core.performance).callers }
    ensures answer { result ≡ answered (Some state.old.core.performance) release }
    ensures performance { Some state.new.core.performance
        ≡ after (Some state.old.core.performance) caller release }
    ensures unread { left_of state.new
        ≡ map call_of (stepped_in state.old.core.performance release).invocations }
{
    osc_model::laws::a_server_stays_sound();
    // The history is legal, as the recording tells.
    let _ = state.core.bytes();
    let releasing = state.core.release(caller);
    match releasing {
        Releasing::Released { calls, .. } => {
            state.calls = calls;
            state.read = 0;
        }
        _ => state.read = state.calls,
    }
    releasing_shown(releasing)
}
