//! Tests of what no program shows: atoms and messages that are built, the rules of addresses, the turn, and the links, clocks, files
//! and streams. Each module is named after the crate or the call that it tries. What a program prints is tested by tests/rows.
#![tactic(auto)]

#[cfg(test)]
mod atoms;
#[cfg(test)]
mod edges;
#[cfg(test)]
mod files;
#[cfg(test)]
mod message;
#[cfg(test)]
mod pattern;
#[cfg(test)]
mod streams;
#[cfg(test)]
mod turn;
