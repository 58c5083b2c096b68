//! Tests of the page of a show, over public calls.
#![tactic(auto)]

#[cfg(test)]
mod board;
#[cfg(test)]
mod hall;
#[cfg(test)]
mod heads;
#[cfg(test)]
mod spy;
