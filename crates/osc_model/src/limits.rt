//! The limits of a server's tables and of its recording.

use crate::late::Late;

/// How many queued units, blocks of 64 bytes for their messages, methods, nodes of the methods' addresses and callers
/// there may be, and how many bytes of recording; and what becomes of late units. The numbers may be any, as a header or
/// a user gives them.
#[derive(Clone, Copy, Debug, PartialEq, Eq)]
pub struct Limits {
    pub units: u32,
    pub blocks: u32,
    pub methods: u32,
    pub nodes: u32,
    pub callers: u32,
    pub recording: u32,
    pub late: Late,
}
