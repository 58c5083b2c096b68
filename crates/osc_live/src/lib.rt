//! The server of many callers. Its calls share one history: each is answered as the sequential
//! server answers after the entries before it. Each caller has a token, which knows in the proofs
//! how much of the history it has seen.
#![tactic(auto)]

mod ask;
mod back;
mod caller;
mod clock;
mod close;
mod guest;
mod live;
mod meets;
mod methods;
mod play;
mod pumped;
mod reads;
mod redo;
mod resume;
mod rows;
mod submission;
mod turns;

pub use caller::Caller;
pub use close::LiveOut;
pub use guest::{EnrolRefusal, Guest};
pub use live::Live;
pub use pumped::{PumpEnd, Pumped};
pub use resume::LiveResumed;
pub use submission::Submission;
pub use turns::Busy;
