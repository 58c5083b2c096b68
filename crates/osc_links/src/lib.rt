//! Links: datagrams that are submitted to one server, each link by a thread and under a token of
//! its own, with a ticker next to them.
#![tactic(auto)]

pub mod laws;
mod limits;
mod link_ends;
mod link_work;
mod link_worker;
mod links;
mod run;
mod served;
mod ticker;

pub use limits::MAX_LINKS;
pub use link_work::{LinkEnd, LinkWork, Over};
pub use links::serve;
pub use run::{HostPart, Hosted, run_links};
pub use served::{Bounds, LinksPart, LinksTold, ServeEnd, TickerEnd};
