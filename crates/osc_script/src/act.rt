//! What a line says.
use osc_atoms::Bytes;
use osc_pattern::Address;

/// What a line says.
#[derive(Drop)]
pub enum Act {
    /// Add a method at the address.
    Add(Address),
    /// Remove the method at the address.
    Remove(Address),
    /// Submit the bytes, whether they are a packet or not.
    Send(Bytes),
    /// Hand in the moment.
    Tick(u64),
    /// Release until nothing is due.
    Pump,
}
