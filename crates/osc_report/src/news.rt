// What is shown of an entry, before it is seen.
use crate::front::Front;
use crate::moved_line::MovedLine;

/// What is shown of an entry.
#[derive(Drop)]
pub(crate) struct News {
    /// The moment of the first line that has a time, with those of the entry.
    pub(crate) first: Option<u64>,
    /// Its lines that are shown.
    pub(crate) lines: Vec<u8>,
    /// Where lines are told as runs.
    pub(crate) run: Option<RunNews>,
}

/// What of an entry matters to runs.
#[derive(Drop)]
pub(crate) struct RunNews {
    pub(crate) front: Front,
    /// Its lines, shown or left out.
    pub(crate) all: Vec<u8>,
    /// What of it may be told with others.
    pub(crate) moved: Option<MovedLine>,
}
