//! A row of the list of methods, and an edit of it.
use osc_atoms::Bytes;
use std::collections::LinkedList;

/// A method, by its id and its address.
#[derive(Drop)]
pub struct MethodRow {
    pub id: u32,
    pub address: Bytes,
}

/// A row that enters the list, or leaves it.
#[derive(Drop)]
pub struct RowEdit {
    pub row: MethodRow,
    pub enters: bool,
}

/// What a proof knows of an edit. No value of it is made.
pub struct Edit {
    /// The method's id.
    pub id: u64,
    /// Its address.
    pub address: LinkedList<u64>,
    /// Whether the method entered, or left.
    pub enters: bool,
}
