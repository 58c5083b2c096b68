// How the lines of an entry look.
use osc_shown::Look;

/// How lines look, and the moment of all of them.
#[derive(Clone, Copy)]
pub(crate) struct Front {
    pub(crate) look: Look,
    /// A time tag; 1 where nothing has ticked.
    pub(crate) moment: u64,
}
