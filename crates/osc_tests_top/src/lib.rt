//! Tests of the program of many threads, over the public calls of its top.
#![tactic(auto)]

#[cfg(test)]
mod growth;
#[cfg(test)]
mod live;
#[cfg(test)]
mod names;
#[cfg(test)]
mod ports;
