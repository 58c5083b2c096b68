//! The words of a command line, and the command that they say.
#![tactic(auto)]

mod command;
pub mod laws;
mod names;
mod number;
mod options;
mod parser;
mod said;
mod verb;

pub use command::{
    Capacities, Command, LiveCommand, Output, PORTS, PlainCommand, Reading, ResumeCommand,
    Transport, default_capacities,
};
pub use names::last_two;
pub use said::{command_of, live_command_of, plain_command_of, resume_command_of};
