//! What a page shows of the show that a recording tells: the methods with their last calls, what
//! waits, and how much was told.
#![tactic(auto)]

mod board;
mod last;
pub mod laws;
mod look;
mod note;
mod past;
mod reader;
mod sight;
mod watcher;
mod words;

pub use board::MOST_WAITS;
pub use past::Past;
pub use sight::Sight;
pub use watcher::Watcher;
