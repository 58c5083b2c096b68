//! What is at hand where something is played.
use osc_live::Live;
use osc_method::Method;
use std::alloc::Global;

/// What is at hand where something is played: a server, and what is called round each step. A
/// closure for a thread makes one of its own.
#[derive(Drop)]
pub struct Desk<'a, M: Method, W, G> {
    pub rt: &'a W,
    pub alloc: Global,
    pub live: &'a Live<M>,
    pub gate: &'a G,
}
