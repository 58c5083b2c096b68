//! The text that the programs print: words, entries, calls and faults (docs/FORMATS.md, "Printed text").
#![tactic(auto)]

mod argument;
mod call;
mod date;
mod dump;
mod entry;
mod fault;
pub mod laws;
mod methods;
mod text;

pub use call::{call_end, call_line, ended_call_line};
pub use dump::{dump_line, header_line};
pub use entry::entry_line;
pub use fault::{fault_line, link_fault_line};
pub use methods::{list_line, method_line};
pub use text::Text;
