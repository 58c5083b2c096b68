//! What stands at the front of a line.
use crate::Look;

/// What stands at the front of a line, before its words, and how the line looks.
#[derive(Clone, Copy)]
pub struct Head {
    pub look: Look,
    /// A time tag; `None` where no clock has ticked yet.
    pub moment: Option<u64>,
    /// What happened to it: `!`, `?`, `~`, a space, or another character.
    pub mark: u8,
    /// How a message is joined to those around it: `{`, `|`, `}` or a space.
    pub join: u8,
}
