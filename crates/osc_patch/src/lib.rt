//! Patches: which methods a stage has, and where each sends its calls.
#![tactic(auto)]

mod advice;
mod clash;
mod draft;
mod entry;
mod fault;
mod host;
pub mod laws;
mod method;
mod patch;
mod port;
mod words;

pub use fault::{Fault, PatchError, WrongLine, WrongLines};
pub use method::{PatchMethod, Route, Routes};
pub use patch::{MAX_PATCH, Patch};
