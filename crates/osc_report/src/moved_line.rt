// What of a line is kept while it may be told with others.

/// A line that may be told with others of its address.
#[derive(Drop)]
pub(crate) struct MovedLine {
    /// By whom it was handed in.
    pub(crate) caller: u32,
    pub(crate) address: Vec<u8>,
    /// The words of its one argument.
    pub(crate) words: Vec<u8>,
}
