//! Lanes that are played next to a display of their server's methods. While they play, a watcher
//! reads the list again and again; then it lists the methods that stand after all of it.
#![tactic(auto)]

mod display;
mod run;
mod watch;

pub use display::WATCHER_LANE;
pub use run::{Displayed, display_lanes};
