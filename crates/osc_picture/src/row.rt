//! What is drawn of one address.
ghost use Rattle.std.specs.Prelude.{◌≡◌};

use crate::said::Said;
use crate::stay::Stay;
use osc_atoms::Bytes;
use std::marker::Model;

/// How the calls of a row are drawn.
#[derive(Clone, Copy, PartialEq, Eq)]
pub enum Sort {
    /// Each is a mark.
    Marks,
    /// Each carries one number: a curve.
    Curve,
    /// Each carries one text, which stands above its mark.
    Texts,
}

/// A call that carries one number: when, and the number in 65,536ths, rounded down, and 2^47 more.
#[derive(Clone, Copy)]
pub struct Call {
    pub at: u64,
    pub number: u64,
}

/// The end of a curve's range: a number as calls have it, and its words.
#[derive(Drop)]
pub struct Bound {
    number: u64,
    words: Bytes,
}

impl Model for Bound {
    ghost use Rattle.std.specs.Prelude.{ℕ, List};

    ghost Value = { ℕ × List ℕ };

    ghost view = { λ b. (b.number, b.words) };
}

impl Bound {
    ghost use Rattle.std.specs.Prelude.{◌≡◌};

    /// The end at this number, as it is written.
    pub fn new(number: u64, words: Bytes) -> Bound
        ensures { result ≡ (number, words) }
    {
        Bound { number, words }
    }

    /// The number, as a call has it.
    pub fn number(&self) -> u64
        ensures { result ≡ self.now.0 }
    {
        self.number
    }

    /// Its words.
    pub fn words(&self) -> &[u8]
        ensures { result.now ≡ self.now.1 }
    {
        self.words.as_slice()
    }
}

/// What is drawn of one address, or of a pattern that called nothing. All of it is in the order of
/// time, and what waited in the order in which it came.
#[derive(Drop)]
pub struct Row {
    pub address: Bytes,
    pub sort: Sort,
    /// When the method was there.
    pub lives: Vec<Stay>,
    /// When it was called.
    pub calls: Vec<u64>,
    /// The numbers that calls carried, and the ends of their range.
    pub numbers: Vec<Call>,
    pub low: Bound,
    pub high: Bound,
    /// The texts that calls carried.
    pub texts: Vec<Said>,
    /// From when to when messages waited.
    pub waits: Vec<Stay>,
    /// When messages were discarded or refused.
    pub crosses: Vec<u64>,
    /// When messages were performed that called no method.
    pub unheard: Vec<u64>,
}
