//! Reading the recording.
ghost use Rattle.std.specs.Prelude.{◌≡◌, take, drop, length};
ghost use Rattle.osc_c.specs.Arguments.{written_over};
ghost use Rattle.osc_c.specs.Held.{played, recording_in};

use crate::handle::{Handle, put, take};
use std::alloc::Global;

/// How many bytes the recording has; none where the server is closed.
#[unsafe(no_mangle)]
pub extern "C" fn osc_server_recorded(handle: &mut Handle, alloc: Global) -> usize
    ensures size { result ≡ length (recording_in (played handle.old.spot.held)) }
    ensures same { handle.new.spot.held ≡ handle.old.spot.held }
{
    let Some(state) = take(handle, alloc) else {
        return 0;
    };
    let size = state.core.bytes().len();
    put(handle, state);
    size
}

/// Copies the recording from a place on, as far as there is room, and tells how many bytes.
#[unsafe(no_mangle)]
pub extern "C" fn osc_server_read_recording(
    handle: &mut Handle,
    from: usize,
    buffer: &mut [u8],
    alloc: Global,
) -> usize
    ensures count { result ≡ length
        (take (length buffer.old) (drop from (recording_in (played handle.old.spot.held)))) }
    ensures bytes { buffer.new ≡ written_over buffer.old
        (drop from (recording_in (played handle.old.spot.held))) }
    ensures same { handle.new.spot.held ≡ handle.old.spot.held }
{
    let Some(state) = take(handle, alloc) else {
        return 0;
    };
    let count = copy_from(state.core.bytes(), from, buffer);
    put(handle, state);
    count
}

/// Copies bytes from a place on, as far as there is room.
fn copy_from(bytes: &[u8], from: usize, buffer: &mut [u8]) -> usize
    ensures count { result ≡ length (take (length buffer.old) (drop from bytes.now)) }
    ensures bytes { buffer.new ≡ written_over buffer.old (drop from bytes.now) }
{
    copy(bytes.get(from..).unwrap_or(&[]), buffer)
}

/// Copies bytes, as far as there is room.
fn copy(bytes: &[u8], buffer: &mut [u8]) -> usize
    ensures count { result ≡ length (take (length buffer.old) bytes.now) }
    ensures bytes { buffer.new ≡ written_over buffer.old bytes.now }
{
    let count = bytes.len().min(buffer.len());
    buffer[..count].copy_from_slice(&bytes[..count]);
    count
}
