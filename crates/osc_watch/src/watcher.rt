//! Who watches the list of methods, and what a watcher is told.
use crate::row::MethodRow;
use crate::told::Told;

/// One reader of what a board publishes. Contracts see the edits that it has read or was told of, `watched`.
#[derive(Drop)]
pub struct Watcher {
    pub(crate) told: Told,
}

/// Rows, in ascending byte order of their addresses.
pub type MethodRows = Vec<MethodRow>;

/// The methods that stand after so many edits.
#[derive(Drop)]
pub struct Methods {
    pub edits: u64,
    pub rows: MethodRows,
}

/// The edits that a board had published. It keeps one of the board's places for readers until it is learned or dropped.
#[derive(Drop)]
pub struct Notice {
    pub(crate) told: Told,
}
