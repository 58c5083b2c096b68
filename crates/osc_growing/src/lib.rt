//! A recording that is written while it grows: what a live server has recorded so far stands in a
//! sink while its callers are at work.
#![tactic(auto)]

mod entries;
mod growth;
mod pieces;
mod rest;
mod writer;

pub use growth::{Growth, growth_of};
pub use pieces::write_while;
pub use rest::write_rest;
pub use writer::Writer;
