//! The life of a server on threads: it is opened or goes on from a past, callers are enrolled, each
//! plays a work of its own while something else goes on meanwhile, and the server is closed.
#![tactic(auto)]

mod aside;
mod beside;
mod close;
mod crew;
mod crowd;
mod desk;
mod gate;
mod life;
mod lifetime;
mod looker;
mod meanwhile;
mod nobody;
mod players;
mod progress;
mod progress_gate;
mod worker;

pub use aside::Aside;
pub use beside::{Beside, play_beside};
pub use crew::Crew;
pub use crowd::{all_ended, make_jobs, play_each};
pub use desk::Desk;
pub use gate::{Gate, OpenGate};
pub use life::{Life, Lived, Played};
pub use lifetime::{Tasks, live_on, live_under};
pub use meanwhile::Meanwhile;
pub use nobody::Nobody;
pub use progress::Progress;
pub use worker::{Done, Job, Worker};
