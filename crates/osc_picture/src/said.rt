//! A text that a call carried.
ghost use Rattle.std.specs.Prelude.{◌≡◌};

use osc_atoms::Bytes;
use std::marker::Model;

/// The words that a call carried, and when. A contract sees the two.
#[derive(Drop)]
pub struct Said {
    at: u64,
    words: Bytes,
}

impl Model for Said {
    ghost use Rattle.std.specs.Prelude.{ℕ, List};

    ghost Value = { ℕ × List ℕ };

    ghost view = { λ s. (s.at, s.words) };
}

impl Said {
    ghost use Rattle.std.specs.Prelude.{◌≡◌};

    /// The words that a call carried at this moment.
    pub fn new(at: u64, words: Bytes) -> Said
        ensures { result ≡ (at, words) }
    {
        Said { at, words }
    }

    /// When the call was made.
    pub fn at(&self) -> u64
        ensures { result ≡ self.now.0 }
    {
        self.at
    }

    /// The words.
    pub fn words(&self) -> &[u8]
        ensures { result.now ≡ self.now.1 }
    {
        self.words.as_slice()
    }
}
