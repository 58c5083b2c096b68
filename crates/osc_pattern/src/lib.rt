//! Address patterns and addresses of Open Sound Control 1.0 ("OSC Message Dispatching and Pattern
//! Matching").
#![tactic(auto)]

mod address;
mod bytes;
mod check;
mod cut;
mod faults;
mod item;
pub mod laws;
mod limits;
mod many;
mod marks;
mod matcher;
mod pattern;
mod places;
mod ready;
mod steps;

pub use address::Address;
pub use faults::{AddressFault, PatternFault};
pub use limits::{MAX_ADDRESS, MAX_NAME, MAX_NAMES, MAX_PATTERN, MAX_PLACES};
pub use pattern::Pattern;
pub use ready::{Part, ReadyPart};
pub use steps::Steps;
