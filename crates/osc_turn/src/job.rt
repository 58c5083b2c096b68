//! The value that a turn keeps, and what is done to it while the turn is held.
ghost use Rattle.std.specs.Prelude.{◌≡◌, ℕ, ◌^◌, ◌<◌, List, length};
ghost use Rattle.osc_turn.specs.History.{StartsWith};
ghost use Rattle.osc_turn.specs.Jobs.{IsNext, StandsNext};

/// A value that stands for lists of entries, each entry a list of numbers.
pub trait Kept {
    /// The lists of entries that the value stands for.
    ghost stands: { Self → List (List ℕ) → Type 0 };

    /// What no job changes.
    ghost kind: { Self → List ℕ };

    /// One of the lists that the value stands for, as `entries` ensures.
    ghost history: { Self → List (List ℕ) };

    /// The number of entries.
    fn entries(&self) -> u64
        ensures stands { stands self.now (history self.now) }
        ensures count { result ≡ length (history self.now) };

    /// All lists that the value stands for have one length.
    ghost one_length: { (x : Self) (g h : List (List ℕ)) → stands x g → stands x h
        → length g ≡ length h };

    /// So many entries can be counted by the turn's word.
    ghost short: { (x : Self) (h : List (List ℕ)) → stands x h → length h < 2 ^ 62 };
}

/// What is done to the value by a call that holds the turn.
///
/// A list before is one that the value stands for then and that begins with the job's base. The list after is the
/// same list, and one more entry where `run` answers true.
pub trait Job<S: Kept> {
    /// The kind of value that the job can be run on.
    ghost base_kind: { Self → List ℕ };

    /// What the list before begins with.
    ghost base: { Self → List (List ℕ) };

    /// What holds of the job before and after, of the list before and of the list after.
    ghost did: { Self → Self → List (List ℕ) → List (List ℕ) → Type 0 };

    /// Adds one entry and answers true, or adds none and answers false.
    fn run(&mut self, state: &mut S) -> bool
        requires kind { S.kind state.old ≡ base_kind self.old }
        requires base { (before : List (List ℕ)) × S.stands state.old before
            × StartsWith before (base self.old) }
        ensures kind { S.kind state.new ≡ S.kind state.old }
        ensures stands { (before : List (List ℕ)) → S.stands state.old before
            → StartsWith before (base self.old)
            → StandsNext (S.stands state.new) result before }
        ensures did { (before after : List (List ℕ)) → S.stands state.old before
            → StartsWith before (base self.old)
            → S.stands state.new after → IsNext result before after
            → did self.old self.new before after };
}
