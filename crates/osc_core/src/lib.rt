//! The sequential server: methods by address with their boxes, a queue of units, a clock and
//! callers, what a release invokes, and the recording of it all (docs/SERVER.md).
//!
//! Each call answers what the rules of `osc_model` give, and leaves the state that they give.
#![tactic(auto)]

mod answers;
mod backlog;
mod boxes;
mod called;
mod calls;
mod entry_answers;
mod kept;
mod messages;
mod past;
mod performance;
mod performance_laws;
mod release;
mod sequential;
mod server;
mod shortage;
mod store;
mod units;

pub use answers::{AddRefusal, Adding, Closed, Enrolled, Releasing, Removing, Submitted, Ticking};
pub use called::{Called, Calls};
pub use sequential::Core;
