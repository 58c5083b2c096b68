//! The rules of the server as plain lists: its state, what each event is answered and leaves, its histories, and what
//! boxed methods hear of them (docs/SERVER.md). The definitions stand in `specs/`; `laws` says what they come to.
#![tactic(auto)]

mod late;
pub mod laws;
mod limits;
mod need;

pub use late::Late;
pub use limits::Limits;
pub use need::{Need, is_late, keeps, need_of};
