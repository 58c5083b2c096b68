//! What a picture has.
use crate::bundle::Bundle;
use crate::frame::Frame;
use crate::row::Row;
use osc_atoms::Bytes;

/// What is drawn of a recording.
#[derive(Drop)]
pub struct Picture {
    pub frame: Frame,
    pub title: Bytes,
    /// The lines above the rows, but for the one that says how calls are thinned.
    pub sums: Vec<Bytes>,
    pub notes: Vec<Bytes>,
    /// The addresses, in the order of their bytes.
    pub rows: Vec<Row>,
    /// The patterns that called nothing and are no row.
    pub unheard: Vec<Row>,
    pub bundles: Vec<Bundle>,
}
