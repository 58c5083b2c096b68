//! An open server with the calls of the unit that was released last.
ghost use Rattle.std.specs.Prelude.{◌≡◌, ◌≤◌, length, IsTrue};
ghost use Rattle.std.specs.List.{list_all};
ghost use Rattle.osc_core.specs.Invoked.{last_calls};
ghost use Rattle.osc_c.specs.Short.{is_short};

use osc_core::Core;
use osc_method::Mute;

/// A server, and how far the calls of its last release are read.
#[derive(Drop)]
pub struct State {
    pub(crate) core: Core<Mute>,
    /// How many calls the last release of a unit made.
    pub(crate) calls: u32,
    /// How many of them aren't to be read any more.
    pub(crate) read: u32,
    ghost counted: { length (last_calls core.performance) ≡ calls },
    ghost within: { read ≤ calls },
    ghost short: { IsTrue (list_all is_short (last_calls core.performance)) },
}
