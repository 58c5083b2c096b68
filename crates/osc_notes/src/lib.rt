//! The notes of a cue, as the lines of a score (docs/FORMATS.md, "Scores").
#![tactic(auto)]

pub mod laws;
mod note;
mod refusal;

pub use note::add_notes;
pub use refusal::NotesError;
