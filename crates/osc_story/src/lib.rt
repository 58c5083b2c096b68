//! What stands after the entries of a recording, and what each entry called, with no server and no
//! matching: by the entries alone.
#![tactic(auto)]

mod calls;
mod disagreement;
mod follower;
mod hand;
mod kept_bytes;
mod kept_message;
pub mod laws;
mod look;
mod reader;
mod registered;
mod story;
mod totals;
mod waiter;

pub use calls::{Call, Calls, address_of};
pub use disagreement::{Disagreement, SeeFault};
pub use follower::{Follower, Progress, TakeFault};
pub use kept_bytes::KeptBytes;
pub use kept_message::KeptMessage;
pub use reader::{Stop, see_all};
pub use registered::Registered;
pub use story::Story;
pub use totals::Totals;
pub use waiter::Waiting;
