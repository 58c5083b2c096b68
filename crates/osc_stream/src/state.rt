//! How a link over a stream stands.
ghost use Rattle.std.specs.Prelude.{◌≡◌};
ghost use Rattle.osc_stream.specs.Links.{is_end};

/// How a link over a stream stands: the cause where its last call answered `Failed` or `End`.
#[derive(Clone, Copy, Debug, PartialEq, Eq)]
pub enum StreamState {
    /// The last call gave a packet, or there was no call.
    Going,
    /// The stream ended after a packet, or as many bytes as can be counted were taken.
    Clean,
    /// The stream ended within the frame at this place.
    Cut { at: u64 },
    /// The frame at this place begins with a word that is no size of a packet.
    Broken { at: u64, size: u32 },
    /// The source failed. The next call reads on.
    SourceFailed,
}

impl StreamState {
    /// Whether the link has ended.
    pub(crate) fn is_end(self) -> bool
        ensures { result ≡ is_end self }
    {
        match self {
            StreamState::Going | StreamState::SourceFailed => false,
            StreamState::Clean | StreamState::Cut { .. } | StreamState::Broken { .. } => true,
        }
    }
}
