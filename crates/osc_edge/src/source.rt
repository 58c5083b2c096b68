//! A source of bytes.
ghost use Rattle.std.specs.Prelude.{ℕ, List, Option};
ghost use Rattle.osc_edge.specs.Source.{IsTakenWithin, TakesFront, HasReadCause};

/// What a read answers.
#[derive(Clone, Copy, Debug, PartialEq, Eq)]
pub enum Taken {
    /// So many bytes stand at the front of the slice. None, for a slice that has room, is the end.
    Bytes(usize),
    /// The source failed, and counted it.
    Failed,
}

/// Something that gives bytes.
pub trait Source {
    /// The bytes left, where the source tells.
    ghost left: { Self → Option (List ℕ) };

    /// How often it has failed.
    ghost faults: { Self → ℕ };

    /// Moves the next bytes to the front of `into`, as many as the source gives at once.
    fn read(&mut self, into: &mut [u8]) -> Taken
        ensures within { IsTakenWithin result into.new }
        ensures bytes { TakesFront (left self.old) (left self.new) result into.new }
        ensures cause { HasReadCause (faults self.old) (faults self.new) result };
}
