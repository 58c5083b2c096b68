//! From when to when something was so.

/// From a moment to another, or to the end.
#[derive(Clone, Copy)]
pub struct Stay {
    pub from: u64,
    pub to: Option<u64>,
}
