// The links to serve.
ghost use Rattle.std.specs.Prelude.{◌<◌, ◌≤◌};
ghost use Rattle.osc_links.specs.declared.limits.TheConstants.{MAX_LINKS};

use osc_links::Bounds;
use osc_words::Transport;

/// The links to serve, and when each ends by itself.
#[derive(Clone, Copy)]
pub(crate) struct Links {
    pub(crate) transport: Transport,
    /// The first link's; each other's is one above the one before.
    pub(crate) port: u16,
    /// How many there are.
    pub(crate) count: u32,
    pub(crate) bounds: Bounds,
    ghost few: { count ≤ MAX_LINKS },
    ghost counted: { 0 < bounds.count },
    ghost idle: { 0 < bounds.idle },
}
