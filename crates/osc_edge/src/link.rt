//! A link that gives datagrams.
ghost use Rattle.std.specs.Prelude.{◌≡◌, ℕ, List, Option, length};
ghost use Rattle.osc_edge.specs.Link.{IsGotWithin, TakesTurn, HasLinkCause, HasQuietCause};
ghost use Rattle.osc_edge.specs.declared.limits.TheConstants.{MAX_DATAGRAM};

/// What a call of a link answers.
#[derive(Clone, Copy, Debug, PartialEq, Eq)]
pub enum Datagram {
    /// A datagram of so many bytes stands at the front of the slice.
    Got(usize),
    /// The link wasn't ready, and counted it.
    Quiet,
    /// The link has ended.
    End,
    /// The link failed, and counted it.
    Failed,
}

/// Something that gives datagrams, one a call.
pub trait Link {
    /// The turns left, where the link tells: the bytes of a datagram, or none for a quiet.
    ghost left: { Self → Option (List (Option (List ℕ))) };

    /// How often it has failed.
    ghost faults: { Self → ℕ };

    /// How often it wasn't ready.
    ghost quiets: { Self → ℕ };

    /// Puts the next datagram at the front of `into`, a slice of [`MAX_DATAGRAM`](crate::MAX_DATAGRAM) bytes.
    fn next(&mut self, into: &mut [u8]) -> Datagram
        requires space { length into.old ≡ MAX_DATAGRAM }
        ensures within { IsGotWithin result into.new }
        ensures turns { TakesTurn (left self.old) (left self.new) result into.new }
        ensures cause { HasLinkCause (faults self.old) (faults self.new) result }
        ensures ready { HasQuietCause (quiets self.old) (quiets self.new) result };
}
