//! Reads a recording, and gathers what a picture of it shows: the rows of addresses with their
//! calls, what waited, was discarded or refused, and what called nothing.
#![tactic(auto)]

mod address;
mod arrival;
mod carried;
mod drawing;
mod ending;
mod gathering;
mod heading;
pub mod laws;
mod mark;
mod note;
mod number;
mod reading;
mod row;
mod sketch;
mod sum;
mod target;
mod tie;
mod title;
mod view;
mod words;

pub use drawing::picture_of;
pub use heading::{Heading, heading_of};
pub use reading::entries_of;
pub use sketch::{DrawFault, Sketch};
pub use title::title_of;
