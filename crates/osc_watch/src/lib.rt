//! Watchers of a server's list of methods, which never wait: one board publishes the list, and each watcher reads what
//! was published.
#![tactic(auto)]

mod board;
mod entries;
mod law;
pub mod laws;
mod notes;
mod open;
mod reach;
mod reached;
mod read;
mod recorded;
mod refresh;
mod row;
mod rows;
mod rule;
mod sheet;
mod told;
mod watcher;

pub use board::Board;
pub use open::MAX_WATCHERS;
pub use recorded::Recorded;
pub use refresh::Fresh;
pub use row::{Edit, MethodRow, RowEdit};
pub use watcher::{MethodRows, Methods, Notice, Watcher};
