//! Recordings, replayed: each answer is computed again by a plain sequential server, and the
//! performance is printed from it (docs/FORMATS.md, "The recording" and "Printed text").
#![tactic(auto)]

mod agreement;
mod calls;
mod checked;
mod counts;
mod dump_text;
mod event;
mod fault;
mod form;
pub mod laws;
mod old;
mod onward;
mod outcome;
mod played;
mod replay_text;
mod row;
mod server;
mod sums;
mod units;
mod upgrade_text;

pub use checked::{Checked, check};
pub use dump_text::{DumpFault, dump};
pub use fault::ReplayFault;
pub use form::well_formed;
pub use onward::Replay;
pub use replay_text::replay;
pub use sums::summary;
pub use upgrade_text::{UpgradeFault, upgrade};
