//! The result of the script of a score on a server: the score is heard, note by note, each at its moment.
#![tactic(auto)]

pub mod laws;
