//! Methods that send: a relay sends each of its calls on, as one message to its own address, to each of its outlets,
//! at the moment at which the call is made.
#![tactic(auto)]

pub mod laws;
mod losses;
mod memory_outlet;
mod outlet;
mod outlets;
mod relay;
mod udp_outlet;

pub use losses::Losses;
pub use memory_outlet::MemoryOutlet;
pub use outlet::{Outlet, Sending};
pub use relay::Relay;
pub use udp_outlet::UdpOutlet;
