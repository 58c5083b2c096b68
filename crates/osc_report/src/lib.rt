//! The report of a recording, as a stage manager would note it: lines of all that its entries tell,
//! with no server and no matching.
#![tactic(auto)]

mod ending;
mod entry;
mod fate;
mod front;
pub mod laws;
mod moved_line;
mod news;
mod note;
mod options;
mod page;
mod release;
mod reporter;
mod run;
mod selector;
mod span;
mod step;
mod stretch;
mod submit;
mod told;

pub use options::Options;
pub use reporter::{Reporter, ShowFault};
pub use selector::Selector;
pub use span::Span;
pub use stretch::Shown;
