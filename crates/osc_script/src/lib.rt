//! Scripts: what the lines of an input say, or the first fault; and scripts that are drawn from a
//! seed.
#![tactic(auto)]

mod act;
mod act_words;
mod digits;
mod drawn_lines;
mod drawn_packets;
mod drawn_script;
mod draws;
mod fault;
mod lane;
pub mod laws;
mod line;
mod line_kind;
mod mode;
mod packets;
mod patterns;
mod said;
mod script;
mod script_lines;
mod words;

pub use act::Act;
pub use drawn_lines::{put_digits, put_line};
pub use drawn_script::MAX_GENERATED_LINES;
pub use fault::{LineRefusal, ScriptFault, ScriptFaultKind, ScriptRefusal};
pub use lane::MAX_LANES;
pub use line::Line;
pub use mode::Mode;
pub use script::{MAX_SCRIPT, Script};
pub use words::{first_line, next_word};
