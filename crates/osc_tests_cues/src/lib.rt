//! Tests of sheets of cues, over their public calls.
#![tactic(auto)]

#[cfg(test)]
mod notes;
#[cfg(test)]
mod sheets;
