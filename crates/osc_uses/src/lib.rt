//! Small callers of the server, each a page that can be copied into a program of one's own: a server with a method of
//! one's own, a bundle that waits for its moment, bytes that are no packet, a recording that is printed, addresses that
//! a pattern matches, a host on one thread, a light on a port of UDP, a server that three threads call, and each way of
//! calling it.
#![tactic(auto, using(crate::proofs::FirstCaller::caller_0))]

mod busy_turn;
mod display;
mod first_server;
mod host_round;
mod light;
mod live_server;
mod matched_addresses;
mod met_callers;
mod printed_recording;
mod refused_packet;
mod replaced_method;
mod running_clock;
mod timed_bundle;

pub use busy_turn::{Soon, entries_since, submit_soon};
pub use display::refresh_display;
pub use first_server::{Fader, first_run, one_packet};
pub use host_round::{HostRound, call_at, fader_level, last_message, play_round};
pub use light::{Light, open_light, serve_light};
pub use live_server::{LiveRun, Placed, Unfinished, live_run};
pub use matched_addresses::count_matching;
pub use met_callers::pump_after;
pub use printed_recording::printed_history;
pub use refused_packet::submit_bytes;
pub use replaced_method::{Replaced, replace};
pub use running_clock::run_clock;
pub use timed_bundle::{TimedRun, release_at, release_due, timed_run};
