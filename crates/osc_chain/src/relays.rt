// The relays of a stage.
ghost use Rattle.std.specs.Prelude.{◌≡◌, map, IfOk};

use osc_relay::{Outlet, Relay};
use std::alloc::{AllocError, Global};

/// The relays without their ids.
pub(crate) fn relays_of<O: Outlet>(
    alloc: Global,
    kept: Vec<(u32, Relay<O>)>,
) -> Result<Vec<Relay<O>>, AllocError>
    ensures { IfOk result (λ relays. relays.items ≡ map (λ one. one.1) kept.items) }
{
    let mut relays = Vec::with_capacity(alloc, kept.len())?;
    for (_, relay) in kept {
        relays.push(relay)?;
    }
    Ok(relays)
}
