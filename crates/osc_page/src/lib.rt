//! The page on which a browser shows a running show: what a request is answered, and the state as
//! JSON.
#![tactic(auto)]

mod board;
pub mod laws;
mod limits;
mod page;
mod replies;
mod request;
mod states;

pub use board::{Board, Counts, Row, Wait};
pub use limits::{MAX_FIELDS, MAX_HEAD};
pub use page::PAGE;
pub use replies::reply;
pub use request::{Heard, Want, hear_head};
pub use states::{NO_STATE, state_text};
