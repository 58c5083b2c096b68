//! Adding and removing methods.
ghost use Rattle.std.specs.Prelude.{◌≡◌, ◌≢◌, ◌<◌, Some, None};
ghost use Rattle.osc_pattern.specs.Addresses.{address_fault};
ghost use Rattle.osc_model.specs.History.{state_of};
ghost use Rattle.osc_c.specs.Held.{played, left, add_answered, after_add, remove_answered};
ghost use Rattle.osc_c.specs.Held.{after_remove, answered_to, done_by};
ghost use Rattle.osc_c.specs.Opening.{address_number};
ghost use Rattle.osc_c.specs.Reading.{left_of};

use crate::answer::Answer;
use crate::handle::{Handle, put, take};
use crate::shown::{adding_shown, numbered, removing_shown, told};
use crate::state::State;
use crate::status;
use osc_method::Mute;
use osc_pattern::{Address, AddressFault};
use std::alloc::Global;

/// Adds a method at the address, which takes memory. It is caller 0's event.
#[unsafe(no_mangle)]
pub extern "C" fn osc_server_add(handle: &mut Handle, address: &[u8], alloc: Global) -> Answer
    ensures answer { result.status ≢ 15
        → result ≡ add_answered (address_fault address.now) (played handle.old.spot.held)
        address.now }
    ensures performance { result.status ≢ 15
        → played handle.new.spot.held
        ≡ after_add (address_fault address.now) (played handle.old.spot.held) 0 address.now }
    ensures no_memory { result.status ≡ 15
        → played handle.new.spot.held ≡ played handle.old.spot.held }
    ensures unread { left handle.new.spot.held ≡ left handle.old.spot.held }
{
    let Some(mut state) = take(handle, alloc) else {
        return told(status::IS_CLOSED);
    };
    let answer = add_bytes(&mut state, 0, address, alloc);
    put(handle, state);
    answer
}

/// The same as an event of this caller.
#[unsafe(no_mangle)]
pub extern "C" fn osc_server_add_by(
    handle: &mut Handle,
    caller: u32,
    address: &[u8],
    alloc: Global,
) -> Answer
    ensures answer { result.status ≢ 15
        → result ≡ answered_to (played handle.old.spot.held) caller
        (add_answered (address_fault address.now) (played handle.old.spot.held) address.now) }
    ensures performance { result.status ≢ 15
        → played handle.new.spot.held ≡ done_by (played handle.old.spot.held) caller
        (after_add (address_fault address.now) (played handle.old.spot.held) caller address.now)
        (played handle.old.spot.held) }
    ensures no_memory { result.status ≡ 15
        → played handle.new.spot.held ≡ played handle.old.spot.held }
    ensures unread { left handle.new.spot.held ≡ left handle.old.spot.held }
{
    let Some(mut state) = take(handle, alloc) else {
        return told(status::IS_CLOSED);
    };
    let answer = add_as(&mut state, caller, address, alloc);
    put(handle, state);
    answer
}

fn add_as(state: &mut State, caller: u32, bytes: &[u8], alloc: Global) -> Answer
    ensures answer { result.status ≢ 15
        → result ≡ answered_to (Some state.old.core.performance) caller
        (add_answered (address_fault bytes.now) (Some state.old.core.performance) bytes.now) }
    ensures performance { result.status ≢ 15
        → Some state.new.core.performance ≡ done_by (Some state.old.core.performance) caller
        (after_add (address_fault bytes.now) (Some state.old.core.performance) caller bytes.now)
        (Some state.old.core.performance) }
    ensures no_memory { result.status ≡ 15
        → state.new.core.performance ≡ state.old.core.performance }
    ensures unread { left_of state.new ≡ left_of state.old }
{
    if caller >= state.core.callers() {
        return told(status::NOT_ENROLLED);
    }
    add_bytes(state, caller, bytes, alloc)
}

fn add_bytes(state: &mut State, caller: u32, bytes: &[u8], alloc: Global) -> Answer
    requires { caller < (state_of state.old.core.performance).callers }
    ensures answer { result.status ≢ 15
        → result ≡ add_answered (address_fault bytes.now) (Some state.old.core.performance)
        bytes.now }
    ensures performance { result.status ≢ 15
        → Some state.new.core.performance
        ≡ after_add (address_fault bytes.now) (Some state.old.core.performance) caller bytes.now }
    ensures no_memory { result.status ≡ 15
        → state.new.core.performance ≡ state.old.core.performance }
    ensures unread { left_of state.new ≡ left_of state.old }
{
    match Address::read(alloc, bytes) {
        Ok(address) => add_in(state, caller, address),
        Err(fault) => address_fault_shown(fault),
    }
}

fn add_in(state: &mut State, caller: u32, address: Address) -> Answer
    requires { caller < (state_of state.old.core.performance).callers }
    ensures answer { result ≡ add_answered None (Some state.old.core.performance) address }
    ensures performance { Some state.new.core.performance
        ≡ after_add None (Some state.old.core.performance) caller address }
    ensures memory { result.status ≢ 15 }
    ensures unread { left_of state.new ≡ left_of state.old }
{
    adding_shown(&state.core.add(caller, address, Mute))
}

/// Removes the method at the address, for which it takes memory for a while. It is caller 0's
/// event.
#[unsafe(no_mangle)]
pub extern "C" fn osc_server_remove(handle: &mut Handle, address: &[u8], alloc: Global) -> Answer
    ensures answer { result.status ≢ 15
        → result ≡ remove_answered (address_fault address.now) (played handle.old.spot.held)
        address.now }
    ensures performance { result.status ≢ 15
        → played handle.new.spot.held
        ≡ after_remove (address_fault address.now) (played handle.old.spot.held) 0 address.now }
    ensures no_memory { result.status ≡ 15
        → played handle.new.spot.held ≡ played handle.old.spot.held }
    ensures unread { left handle.new.spot.held ≡ left handle.old.spot.held }
{
    let Some(mut state) = take(handle, alloc) else {
        return told(status::IS_CLOSED);
    };
    let answer = remove_bytes(&mut state, 0, address, alloc);
    put(handle, state);
    answer
}

/// The same as an event of this caller.
#[unsafe(no_mangle)]
pub extern "C" fn osc_server_remove_by(
    handle: &mut Handle,
    caller: u32,
    address: &[u8],
    alloc: Global,
) -> Answer
    ensures answer { result.status ≢ 15
        → result ≡ answered_to (played handle.old.spot.held) caller
        (remove_answered (address_fault address.now) (played handle.old.spot.held) address.now) }
    ensures performance { result.status ≢ 15
        → played handle.new.spot.held ≡ done_by (played handle.old.spot.held) caller
        (after_remove (address_fault address.now) (played handle.old.spot.held) caller address.now)
        (played handle.old.spot.held) }
    ensures no_memory { result.status ≡ 15
        → played handle.new.spot.held ≡ played handle.old.spot.held }
    ensures unread { left handle.new.spot.held ≡ left handle.old.spot.held }
{
    let Some(mut state) = take(handle, alloc) else {
        return told(status::IS_CLOSED);
    };
    let answer = remove_as(&mut state, caller, address, alloc);
    put(handle, state);
    answer
}

fn remove_as(state: &mut State, caller: u32, bytes: &[u8], alloc: Global) -> Answer
    ensures answer { result.status ≢ 15
        → result ≡ answered_to (Some state.old.core.performance) caller
        (remove_answered (address_fault bytes.now) (Some state.old.core.performance) bytes.now) }
    ensures performance { result.status ≢ 15
        → Some state.new.core.performance ≡ done_by (Some state.old.core.performance) caller
        (after_remove (address_fault bytes.now) (Some state.old.core.performance) caller bytes.now)
        (Some state.old.core.performance) }
    ensures no_memory { result.status ≡ 15
        → state.new.core.performance ≡ state.old.core.performance }
    ensures unread { left_of state.new ≡ left_of state.old }
{
    if caller >= state.core.callers() {
        return told(status::NOT_ENROLLED);
    }
    remove_bytes(state, caller, bytes, alloc)
}

fn remove_bytes(state: &mut State, caller: u32, bytes: &[u8], alloc: Global) -> Answer
    requires { caller < (state_of state.old.core.performance).callers }
    ensures answer { result.status ≢ 15
        → result ≡ remove_answered (address_fault bytes.now) (Some state.old.core.performance)
        bytes.now }
    ensures performance { result.status ≢ 15
        → Some state.new.core.performance
        ≡ after_remove (address_fault bytes.now) (Some state.old.core.performance) caller
        bytes.now }
    ensures no_memory { result.status ≡ 15
        → state.new.core.performance ≡ state.old.core.performance }
    ensures unread { left_of state.new ≡ left_of state.old }
{
    match Address::read(alloc, bytes) {
        Ok(address) => remove_in(state, caller, &address),
        Err(fault) => address_fault_shown(fault),
    }
}

fn remove_in(state: &mut State, caller: u32, address: &Address) -> Answer
    requires { caller < (state_of state.old.core.performance).callers }
    ensures answer { result ≡ remove_answered None (Some state.old.core.performance) address.now }
    ensures performance { Some state.new.core.performance
        ≡ after_remove None (Some state.old.core.performance) caller address.now }
    ensures memory { result.status ≢ 15 }
    ensures unread { left_of state.new ≡ left_of state.old }
{
    removing_shown(&state.core.remove(caller, address))
}

/// What an address's fault is in C.
fn address_fault_shown(fault: AddressFault) -> Answer
    ensures { result ≡ address_number fault }
{
    match fault {
        AddressFault::NoSlash => numbered(status::BAD_ADDRESS, 1),
        AddressFault::EmptyName => numbered(status::BAD_ADDRESS, 2),
        AddressFault::BadByte => numbered(status::BAD_ADDRESS, 3),
        AddressFault::NameLong => numbered(status::BAD_ADDRESS, 4),
        AddressFault::AddressLong => numbered(status::BAD_ADDRESS, 5),
        AddressFault::TooManyParts => numbered(status::BAD_ADDRESS, 6),
        AddressFault::NoMemory => told(status::NO_MEMORY),
    }
}
