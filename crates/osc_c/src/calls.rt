//! Reading the calls of a release.
ghost use Rattle.std.specs.Prelude.{◌≡◌};
ghost use Rattle.osc_c.specs.Held.{played, NextOf};
ghost use Rattle.osc_c.specs.Reading.{TellsNext, left_of};

use crate::called::Called;
use crate::handle::{Handle, put, take};
use crate::state::State;
use crate::status;
use std::alloc::Global;

/// Tells the next call of the release, and copies its message.
#[unsafe(no_mangle)]
pub extern "C" fn osc_server_next_call(
    handle: &mut Handle,
    call: &mut Called,
    buffer: &mut [u8],
    alloc: Global,
) -> u32
    ensures performance { played handle.new.spot.held ≡ played handle.old.spot.held }
    ensures next { NextOf handle.old.spot.held handle.new.spot.held result call.old call.new
        buffer.old buffer.new }
{
    let Some(mut state) = take(handle, alloc) else {
        return status::IS_CLOSED;
    };
    let status = next_in(&mut state, call, buffer);
    put(handle, state);
    status
}

fn next_in(state: &mut State, call: &mut Called, buffer: &mut [u8]) -> u32
    ensures core { state.new.core ≡ state.old.core }
    ensures next { TellsNext (left_of state.old) (left_of state.new) result call.old call.new
        buffer.old buffer.new }
{
    let mut left = state.core.calls_from(state.read);
    let Some(next) = left.next() else {
        return status::NO_CALL;
    };
    let message = next.message;
    *call = Called {
        unit: next.unit,
        method: next.method,
        index: next.index,
        size: message.len() as u32,
    };
    if buffer.len() < message.len() {
        return status::BUFFER_SMALL;
    }
    buffer[..message.len()].copy_from_slice(message);
    state.read += 1;
    status::OK
}
