//! A chain of recordings on a stage.
#![tactic(auto)]

pub mod laws;
