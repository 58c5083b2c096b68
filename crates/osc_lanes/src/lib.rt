//! Lanes: script lines that are played at the same time on one server, each lane by a thread and
//! under a token of its own.
#![tactic(auto)]

mod acts;
mod lane;
mod lanes;
pub mod laws;
mod packet;
mod part;
mod plan;
mod run;
mod work;
mod worker;

pub use lanes::play;
pub use osc_life::{Gate, OpenGate};
pub use packet::{report_answer, send};
pub use part::{LanePart, LaneTold};
pub use plan::{LaneEnd, LanePlan};
pub use run::{Performed, perform_beside, resume_lanes, run_lanes};
pub use work::LaneWork;
pub use worker::play_lane;
