// Where lanes and links play.

use std::alloc::Global;

/// Where lanes and links play: what makes threads, the memory, and what is called round each step.
#[derive(Drop)]
pub(crate) struct Venue<'a, W, G> {
    pub(crate) rt: &'a W,
    pub(crate) alloc: Global,
    pub(crate) gate: &'a G,
}
