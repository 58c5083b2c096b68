// Sets of places of a name.
ghost use Rattle.osc_pattern.specs.declared.limits.TheConstants.{MAX_NAME, MAX_PLACES};
ghost use Rattle.std.specs.Prelude.{◌≡◌, ◌<◌, ◌+◌, ◌||◌, ◌&&◌, ◌==◌, ℕ, true, false, IsTrue};
ghost use Rattle.std.specs.Int.{bit_at};
ghost use Rattle.osc_pattern.specs.Views.{is_place_of, reached_from};

/// Places of a name, from 0 to 63. Place 0 stands before the first byte.
#[derive(Drop)]
pub(crate) struct Places {
    bits: u64,
}

impl Places {
    /// No place.
    pub(crate) fn none() -> Places
        ensures { (place : ℕ) → is_place_of result place ≡ false }
    {
        Places { bits: 0 }
    }

    /// Whether the place is one of them.
    pub(crate) fn has(&self, place: usize) -> bool
        requires { place < MAX_PLACES }
        ensures { result ≡ is_place_of self.now place }
    {
        (self.bits >> place) & 1 == 1
    }

    /// Adds the place.
    pub(crate) fn add(&mut self, place: usize)
        requires { place < MAX_PLACES }
        ensures { (other : ℕ) → is_place_of self.new other
            ≡ (other == place || is_place_of self.old other) }
    {
        self.bits |= 1 << place;
    }

    /// Whether there is no place.
    pub(crate) fn is_empty(&self) -> bool
        ensures { IsTrue result → (place : ℕ) → is_place_of self.now place ≡ false }
    {
        self.bits == 0
    }

    /// Whether both have the same places.
    pub(crate) fn is_same(&self, other: &Places) -> bool
        ensures { result ≡ true → self.now ≡ other.now }
    {
        self.bits == other.bits
    }

    /// The same places.
    pub(crate) fn again(&self) -> Places
        ensures { result ≡ self.now }
    {
        Places { bits: self.bits }
    }

    /// Adds the places of another set.
    pub(crate) fn join(&mut self, others: &Places)
        ensures { (place : ℕ) → is_place_of self.new place
            ≡ (is_place_of others.now place || is_place_of self.old place) }
    {
        self.bits |= others.bits;
    }

    /// The places right after those that are marked.
    pub(crate) fn after(&self, marks: u64) -> Places
        ensures first { is_place_of result 0 ≡ false }
        ensures others { (place : ℕ) → place < MAX_NAME → is_place_of result (place + 1)
            ≡ (is_place_of self.now place && bit_at marks place == 1) }
    {
        Places {
            bits: (self.bits & marks) << 1,
        }
    }

    /// The first of the places, and all after it.
    pub(crate) fn onward(&self) -> Places
        ensures { (place : ℕ) → place < MAX_PLACES → is_place_of result place
            ≡ reached_from false (is_place_of self.now) 0 place }
    {
        if self.bits == 0 {
            return Places::none();
        }
        Places {
            bits: u64::MAX << self.bits.trailing_zeros(),
        }
    }
}
