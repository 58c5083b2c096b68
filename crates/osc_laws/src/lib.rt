//! The laws of every history: a bundle's messages are called together and in order, none before its tag, on exactly the
//! methods that match when it is released, and each accepted unit once (docs/SERVER.md, "The four laws").
#![tactic(auto)]

pub mod laws;
