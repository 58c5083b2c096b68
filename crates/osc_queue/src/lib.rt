//! A queue of items, each due from a moment on: the least by due moment and unit number is taken first.
#![tactic(auto)]

mod entry;
mod heap;
pub mod laws;
mod queue;
mod uncounted;

pub use queue::{Queue, UnitsFull};
