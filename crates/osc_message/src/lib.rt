//! Messages of Open Sound Control, borrowed from their bytes.
//!
//! A message is an address pattern, alone or with a type tag string and arguments (OSC 1.0, "OSC Messages"). `laws`
//! says of all messages that what is written is read again.
#![tactic(auto)]

mod args;
mod argument;
mod argument_at;
mod argument_bytes;
mod brackets;
mod build_fault;
mod builder;
pub mod laws;
mod limits;
mod message;
mod parts;
mod tags;

pub use args::Args;
pub use argument::Arg;
pub use argument_bytes::{append_argument, argument_size};
pub use brackets::are_balanced;
pub use build_fault::BuildFault;
pub use builder::{Builder, message_bytes};
pub use limits::{MAX_BUILT, MAX_BUILT_PATTERN};
pub use message::Message;
pub use osc_atoms::Bytes;
