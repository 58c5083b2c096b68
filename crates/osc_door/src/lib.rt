//! Visitors that come by a door: each says bytes and is told bytes, and no call waits.
#![tactic(auto)]

mod door;
mod memory_door;
mod tcp_door;

pub use door::{Door, Knock, Said, Took, Visitor};
pub use memory_door::{MemoryDoor, MemoryVisitor, Speech};
pub use tcp_door::{TcpDoor, TcpVisitor};
