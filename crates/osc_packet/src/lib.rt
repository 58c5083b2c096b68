//! Packets of Open Sound Control, borrowed from their bytes, and the units that they are released in.
//!
//! A packet is a message or a bundle, and a bundle has a time tag and elements, which are packets (OSC 1.0, "OSC
//! Packets", "OSC Bundles").
#![tactic(auto)]

mod bundle_fault;
mod bundler;
mod checks;
mod content;
pub mod laws;
mod limits;
mod packet;
mod unit;
mod unit_messages;
mod units;
mod walk;

pub use bundle_fault::BundleFault;
pub use bundler::Bundler;
pub use limits::{BLOCK_SIZE, MAX_STORED};
pub use osc_atoms::MAX_PACKET;
pub use packet::Packet;
pub use unit::Unit;
pub use unit_messages::UnitMessages;
pub use units::Units;
