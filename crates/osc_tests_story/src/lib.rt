//! Tests of what stands after a recording. Each module is named after the crate that it tries.
#![tactic(auto)]

#[cfg(test)]
mod drawing;
#[cfg(test)]
mod report;
#[cfg(test)]
mod runs;
#[cfg(test)]
mod story;
