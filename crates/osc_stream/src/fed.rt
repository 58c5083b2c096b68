//! What a stream answers.

/// The result of taking bytes.
#[derive(Clone, Copy, Debug, PartialEq, Eq)]
pub enum Fed {
    /// The whole piece was taken, and no packet is whole.
    More,
    /// A packet is whole.
    Ready,
    /// The frame at this place begins with a word that is no size of a packet.
    Broken { at: u64, size: u32 },
}
