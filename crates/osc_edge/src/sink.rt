//! A sink of bytes.
ghost use Rattle.std.specs.Prelude.{ℕ, List, Option};
ghost use Rattle.osc_edge.specs.Sink.{IsTookWithin, AddsToEnd, HasWriteCause};

/// What a write answers.
#[derive(Clone, Copy, Debug, PartialEq, Eq)]
pub enum Put {
    /// So many bytes were taken from the front of the piece.
    Took(usize),
    /// The sink failed, counted it, and took nothing.
    Failed,
    /// There was no memory for the bytes, and the sink took nothing.
    NoMemory,
}

/// Something that takes bytes.
pub trait Sink {
    /// The bytes held, where the sink tells.
    ghost held: { Self → Option (List ℕ) };

    /// How often it has failed.
    ghost faults: { Self → ℕ };

    /// Takes bytes from the front of `piece`, at least one where there is one.
    fn write(&mut self, piece: &[u8]) -> Put
        ensures within { IsTookWithin result piece.now }
        ensures bytes { AddsToEnd (held self.old) (held self.new) result piece.now }
        ensures cause { HasWriteCause (faults self.old) (faults self.new) result };
}
