//! Tests of lanes and links on threads, over their public calls.
#![tactic(auto)]

#[cfg(test)]
mod answers;
#[cfg(test)]
mod callers;
#[cfg(test)]
mod hold;
#[cfg(test)]
mod parts;
#[cfg(test)]
mod two_lanes;
#[cfg(test)]
mod two_links;
