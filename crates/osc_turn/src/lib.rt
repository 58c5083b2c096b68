//! The turn: one call at a time changes a value, and all calls share one history of the entries that they added.
//! Each caller has a pass, which knows in the proofs alone how much of the history it has seen.
#![tactic(auto)]

mod act;
mod close;
mod guests;
mod hold;
mod job;
mod limits;
mod open;
mod pass;
mod plays;
mod still_out;
mod tried;
mod turn;
mod view;

pub use guests::GuestRefusal;
pub use job::{Job, Kept};
pub use limits::MAX_PASSES;
pub use pass::Pass;
pub use still_out::StillOut;
pub use tried::Tried;
pub use turn::Turn;
pub use view::{Entry, Past, View};
