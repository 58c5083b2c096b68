//! The registered methods, by their addresses, and those that a pattern matches (OSC 1.0, "OSC
//! Message Dispatching and Pattern Matching").
#![tactic(auto)]

mod admission;
mod agreement;
mod aim;
mod choice;
mod common_names;
mod course;
mod depth;
mod flat;
mod guesses;
mod hits;
mod ids;
pub mod laws;
mod literal;
mod lookup;
mod matches;
mod names;
mod nodes;
mod order;
mod parts;
mod prefix;
mod refusals;
mod registered;
mod search;
mod tree;
mod uncounted;
mod walk;
mod way;

pub use hits::Hits;
pub use refusals::{NotThere, TreeRefusal};
pub use tree::Tree;
