//! Scores: text whose lines say when what is played, and the script that plays one
//! (docs/FORMATS.md).
#![tactic(auto)]

mod added_note;
mod argument;
mod fault;
pub mod laws;
mod limits;
mod note;
mod number;
mod reader;
mod run;
mod score;
mod score_lines;
mod script;
mod text;

pub use fault::{ScoreFault, ScoreFaultKind, ScoreRefusal};
pub use limits::{BATCH_SIZE, MAX_ADDRESSES, MAX_NODES, MAX_SCORE};
pub use score::Score;
