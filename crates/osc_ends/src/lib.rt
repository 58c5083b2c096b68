//! What a program reads and writes, and how it ends.
#![tactic(auto)]

mod adds;
mod boxes;
mod caps;
mod ended;
mod input;
mod judgement;
mod lines;
mod outcome;
mod prints;
mod recorded;
mod score_input;
pub mod status;
mod whole;

pub use adds::count_adds;
pub use boxes::traces;
pub use caps::limits_for;
pub use ended::Ended;
pub use input::{read_recording, read_script};
pub use judgement::{Whole, judge_recording, judge_script, read_input};
pub use lines::outcome_line;
pub use outcome::{Outcome, status_of, stopped};
pub use prints::{
    bank_short, callers_full, usage, write_dump, write_replay, write_resumed_text, write_run_text,
    write_text, write_upgrade,
};
pub use recorded::Recorded;
pub use score_input::read_score;
