//! Why the notes of a cue aren't added.
ghost use Rattle.std.specs.Prelude.{◌≡◌};
ghost use Rattle.osc_notes.specs.declared.refusal.NotesError.TheVariants.{NoMemory};

use std::alloc::AllocError;

/// Why the notes of a cue aren't added.
#[derive(Clone, Copy, PartialEq)]
pub enum NotesError {
    /// The message has a type tag that the standard doesn't have, and this is the first. A score
    /// has no word for it.
    UnknownTag(u8),
    NoMemory,
}

impl From<AllocError> for NotesError {
    ghost from_gives = { λ _ r. r ≡ NoMemory };

    fn from(_error: AllocError) -> NotesError {
        NotesError::NoMemory
    }
}
