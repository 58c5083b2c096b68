//! Runs of lines that say the same of an address again and again, each told as one line.
#![tactic(auto)]

pub mod laws;
mod limits;
mod row;
mod runs;
mod span;
mod step;

pub use limits::GAP;
pub use row::Row;
pub use runs::{Runs, TakeFault};
pub use step::Step;
