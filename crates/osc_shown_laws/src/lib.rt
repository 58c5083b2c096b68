//! What is shown of arguments is read in a sheet of cues as the same arguments.
#![tactic(auto)]

pub mod laws;
