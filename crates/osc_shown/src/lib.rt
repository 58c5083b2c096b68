//! What comes in and what becomes of it, as lines that a person reads.
#![tactic(auto)]

mod answered;
mod argument;
mod arrival;
mod bytes;
mod called;
mod columns;
mod day;
mod destination;
mod head;
pub mod laws;
mod line;
mod look;
mod message;
mod number;
mod place;
mod quoted;
mod refusal;
mod route;
mod summary;
mod tail;
mod time;
mod unit;
mod wait;
mod wall_clock;

pub use answered::Answered;
pub use argument::argument_words;
pub use arrival::Arrival;
pub use called::{called_mark, called_tail, late_tail, queued_tail};
pub use day::day_line;
pub use head::Head;
pub use line::{message_line, note_line};
pub use look::Look;
pub use number::number_words;
pub use place::Place;
pub use refusal::refusal_line;
pub use route::Route;
pub use summary::{Sums, cut_line, opening_line, totals_line, whole_totals_line};
pub use tail::answer_tail;
pub use time::{day_number, millis_of, time_words};
pub use unit::{join_of, unit_lines};
pub use wall_clock::WallClock;
