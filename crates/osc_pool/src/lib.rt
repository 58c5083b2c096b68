//! Bytes of any number in blocks of 64 bytes that are reserved at opening: stored as a chain of blocks, read, and given
//! back.
#![tactic(auto)]

mod chain;
pub mod laws;
mod limits;
mod links;
mod pool;

pub use chain::Chain;
pub use limits::MAX_BLOCKS;
pub use pool::Pool;
