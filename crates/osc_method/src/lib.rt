//! Boxed methods: what a server calls when a message reaches an address, and what such a box tells of its calls.
#![tactic(auto)]

mod boxed;
mod call;
mod method;
mod mute;
mod trace;

pub use call::Call;
pub use method::Method;
pub use mute::Mute;
pub use trace::Trace;
