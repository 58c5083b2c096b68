//! The limits of a server in C.

/// A server's limits.
#[repr(C)]
#[derive(Clone, Copy, Debug, PartialEq, Eq)]
pub struct Limits {
    pub units: u32,
    pub blocks: u32,
    pub methods: u32,
    pub nodes: u32,
    pub callers: u32,
    pub recording: u32,
    /// Whether late units are discarded.
    pub discards_late: bool,
}
