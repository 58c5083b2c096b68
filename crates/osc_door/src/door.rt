//! A door, and the visitors that come by it.
ghost use Rattle.std.specs.Prelude.{◌≡◌, ℕ, List, Option};
ghost use Rattle.osc_door.specs.Visitors.{IsSaidWithin, SaysFront, IsTookWithin, TakesFront};
ghost use Rattle.osc_door.specs.Comers.{IsFreshComer};

/// What a call of a door answers.
#[derive(Drop)]
pub enum Knock<V> {
    /// A visitor.
    Came(V),
    /// No visitor waits.
    Nobody,
    /// The door failed.
    Failed,
}

/// What a visitor has said.
#[derive(Clone, Copy, Debug, PartialEq, Eq)]
pub enum Said {
    /// So many bytes stand at the front of the slice.
    Bytes(usize),
    /// Nothing for now.
    Quiet,
    /// It says no more.
    Gone,
}

/// What a visitor has taken.
#[derive(Clone, Copy, Debug, PartialEq, Eq)]
pub enum Took {
    /// So many bytes from the front of the piece.
    Bytes(usize),
    /// Nothing for now.
    Quiet,
    /// It takes no more.
    Gone,
}

/// Something that visitors come by.
pub trait Door {
    type Visitor: Visitor + Drop;

    /// The next visitor that waits, who has taken nothing yet. Never waits for one.
    fn next(&mut self) -> Knock<Self::Visitor>
        ensures fresh { IsFreshComer Self.Visitor.taken result };
}

/// Someone that says bytes and takes bytes. No call waits.
pub trait Visitor {
    /// The bytes that it still has to say, where it tells.
    ghost left: { Self → Option (List ℕ) };

    /// The bytes that it has taken, where it tells.
    ghost taken: { Self → Option (List ℕ) };

    /// Puts the next bytes that it says at the front of the slice.
    fn read(&mut self, into: &mut [u8]) -> Said
        ensures within { IsSaidWithin result into.new }
        ensures said { SaysFront (left self.old) (left self.new) result into.new }
        ensures taken { taken self.new ≡ taken self.old };

    /// Hands it the piece, from whose front it takes what it can.
    fn write(&mut self, piece: &[u8]) -> Took
        ensures within { IsTookWithin result piece.now }
        ensures took { TakesFront (taken self.old) (taken self.new) result piece.now }
        ensures left { left self.new ≡ left self.old };
}
