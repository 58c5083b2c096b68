//! Carrying on in a new recording: the script that brings a new server to the state of another.
#![tactic(auto)]

mod fault;
pub mod laws;
mod recording;
mod script;
mod unit_packet;

pub use fault::CarryFault;
pub use script::carry;
