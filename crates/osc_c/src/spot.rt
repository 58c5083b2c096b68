//! A box as a pointer, or none: what a handle of C holds.
ghost use Rattle.std.specs.Prelude.{◌≡◌, Some, None, IsSome};
ghost use Rattle.std.specs.declared.option.Option.{Option};
ghost use Rattle.osc_c.specs.declared.state.State.{State};
ghost use Rattle.osc_c.specs.Owned.{held_coded, owned};

mod parts;

use crate::state::State;
use parts::Parts;
use std::alloc::Global;
use std::marker::Model;
use std::ptr::null_mut;

/// The place of a box that it owns, or nothing.
#[repr(C)]
#[derive(Drop)]
pub struct Spot {
    at: *mut u8,
    alloc: Global,
    pub ghost held: { Option State } by { held_coded },
}

impl Model for Spot {
    ghost also_owns = { λ s. owned s.alloc s.at s.held };
}

impl Spot {
    pub(crate) fn empty(alloc: Global) -> Spot
        ensures { result.held ≡ None }
    {
        Spot {
            at: null_mut(),
            alloc,
        }
    }

    pub(crate) fn full(state: Box<State>) -> Spot
        ensures { result.held ≡ Some state.value }
    {
        Spot::of_parts(Parts::of(state))
    }

    pub(crate) fn into_box(self) -> Box<State>
        requires { IsSome self.held }
        ensures { self.held ≡ Some result.value }
    {
        self.into_parts().into_box()
    }

    fn of_parts(parts: Parts<State, Global>) -> Spot
        ensures { result.held ≡ Some parts.value }
    {
        let Parts { ptr, alloc } = parts;
        Spot {
            at: ptr as *mut u8,
            alloc,
        }
    }

    fn into_parts(self) -> Parts<State, Global>
        requires { IsSome self.held }
        ensures { self.held ≡ Some result.value }
    {
        let Spot { at, alloc } = self;
        Parts {
            ptr: at as *mut State,
            alloc,
        }
    }
}
