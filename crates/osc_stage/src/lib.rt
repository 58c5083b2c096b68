//! The top call of a stage: relays and links on one new server, whose recording is written while it
//! grows; and what is played first.
#![tactic(auto)]

mod ended;
pub mod laws;
mod opening;
mod stage;
mod top;

pub use ended::Ended;
pub use opening::{adds_of, carried_on};
pub use stage::{Stage, Staged};
pub use top::stage_top;
