//! A method that does nothing.
ghost use Rattle.std.specs.Prelude.{None, []};

use crate::{Call, Method};

/// A method that does nothing and tells nothing.
#[derive(Clone, Copy, Debug, PartialEq, Eq)]
pub struct Mute;

impl Method for Mute {
    ghost keep = { λ _. record { most = 0; name = []; outlets = [] } };

    ghost heard = { λ _. None };

    fn reset(&mut self) {}

    fn invoke(&mut self, _call: &Call<'_>) {}

    fn told(&self) -> Option<u32> {
        None
    }

    fn byte(&self, _k: u32) -> u8 {
        0
    }
}
