//! A server that plays the lines of a script as caller 0, and what becomes of the boxes that it is handed.
#![tactic(auto)]

pub mod laws;
mod performance;
mod player;

pub use performance::{Played, gather, keep_rest, play};
