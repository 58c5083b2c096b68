//! Sheets of cues: which messages are sent when, read whole, or all lines that are wrong.
#![tactic(auto)]

mod address;
mod advice;
mod argument;
mod brackets;
mod bundle;
mod cue;
mod cut;
mod draft;
mod fault;
mod guess;
mod limits;
mod message;
mod moment;
mod number;
mod quoted;
mod said;
mod scan;
mod setting;
mod sheet;
mod tempo;
mod told;
mod wrong_line;

pub use argument::put_word;
pub use bundle::Bundle;
pub use cue::Cue;
pub use fault::{Fault, WordError, WordFault};
pub use limits::MAX_SHEET;
pub use moment::read_moment;
pub use setting::{Setting, Tempo};
pub use sheet::Sheet;
pub use wrong_line::{SheetError, WrongLine, WrongLines};
