// What is played at one moment.
use osc_atoms::Bytes;

/// The notes of one moment, as the bundle that plays them.
#[derive(Drop)]
pub(crate) struct Run {
    /// The moment.
    pub(crate) tag: u64,
    /// A packet: a bundle with this tag, and a message for each note.
    pub(crate) bundle: Bytes,
}
