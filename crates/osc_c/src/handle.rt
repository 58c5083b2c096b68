//! The handle of C.
ghost use Rattle.std.specs.Option.{option_map};
ghost use Rattle.std.specs.Prelude.{◌≡◌, None, Some, is_some};

use crate::spot::Spot;
use crate::state::State;
use std::alloc::Global;
use std::mem::replace;

/// A server, or none. All zeros are none.
#[repr(C)]
#[derive(Drop)]
pub struct Handle {
    spot: Spot,
    is_open: bool,
    ghost agrees: { is_some spot.held ≡ is_open },
}

/// Takes the server out.
pub(crate) fn take(handle: &mut Handle, alloc: Global) -> Option<Box<State>>
    ensures taken { option_map (λ state. state.value) result ≡ handle.old.spot.held }
    ensures left { handle.new.spot.held ≡ None }
{
    let held = replace(
        handle,
        Handle {
            spot: Spot::empty(alloc),
            is_open: false,
        },
    );
    if !held.is_open {
        return None;
    }
    Some(held.spot.into_box())
}

/// Puts a server in.
pub(crate) fn put(handle: &mut Handle, state: Box<State>)
    ensures { handle.new.spot.held ≡ Some state.value }
{
    *handle = Handle {
        spot: Spot::full(state),
        is_open: true,
    };
}
