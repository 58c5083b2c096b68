//! Servers that differ in numbers alone.
#![tactic(auto)]

pub mod laws;
