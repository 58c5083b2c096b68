//! All that the program `oscd` does, over any source and sinks, links and clock; and `osc`'s top
//! call.
#![tactic(auto)]

mod after;
mod bank;
mod caps;
mod counts;
mod intake;
mod lanes;
pub mod laws;
mod link_ports;
mod links;
mod list;
mod live;
mod name;
mod outputs;
mod played;
mod resume;
mod transport;
mod venue;

pub use link_ports::ports;
pub use live::live_top;
pub use name::{recording_name, resume_names};
pub use osc_plain::{Ended, plain_top, traces};
pub use resume::resume_top;
pub use transport::wants_tcp;
