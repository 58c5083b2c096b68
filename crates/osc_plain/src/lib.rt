//! All that the program `osc` does, over any source and sink.
#![tactic(auto)]

mod drawn;
pub mod laws;
mod limits;
mod outputs;
mod recordings;
mod report;
mod run;
mod scores;
mod top;

pub use osc_ends::{Ended, traces};
pub use top::plain_top;
