//! How far the one list of edits was reached, and the edit that ends it.
ghost use Rattle.std.specs.Prelude.{◌≡◌, length};

use crate::law::Law;
use crate::row::{Edit, RowEdit};
use logbook::Seen;

/// A beginning of the one list of edits, which proofs know, and its length.
#[derive(Drop)]
pub struct Reached {
    pub(crate) seen: Seen<Edit, u64, Law>,
    pub(crate) edits: u64,
    ghost counted: { edits ≡ length seen.log },
}

/// An edit, and the list of edits that ends with it.
#[derive(Drop)]
pub struct Change {
    pub(crate) edit: RowEdit,
    pub(crate) reached: Reached,
}
