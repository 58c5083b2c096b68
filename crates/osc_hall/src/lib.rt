//! The visitors of a page: a bounded number of them, each for a bounded time, and none is waited
//! for.
#![tactic(auto)]

mod guest;
mod hall;
pub mod laws;
mod limits;
mod visit;

pub use hall::Hall;
pub use limits::{COMERS, GUESTS, PATIENCE};
