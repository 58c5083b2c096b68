// Sets of bytes.
ghost use Rattle.std.specs.Prelude.{◌≡◌, ◌≤◌, ◌<◌, ◌+◌, ◌||◌, ◌&&◌, ◌==◌, ℕ, false, nat_lt, nat_le};
ghost use Rattle.std.specs.Prelude.{min, length};
ghost use Rattle.osc_pattern.specs.Items.{stands_for, is_in_set, is_between};
ghost use Rattle.osc_pattern.specs.ReadyParts.{is_one_of, is_as};

use crate::item::first_range;
use crate::steps::Steps;
use std::marker::Brand;
use std::sync::ledger::{Blank, Ledger};

/// A set of bytes, a bit for each.
#[derive(Clone, Copy)]
pub(crate) struct ByteSet {
    words: [u64; 4],
}

/// The bytes that a set matches: those of a list, or with a first `!` all but those of the rest of
/// it.
#[derive(Clone, Copy)]
pub(crate) struct ReadSet {
    pub(crate) bytes: ByteSet,
    pub(crate) within: bool,
}

impl ReadSet {
    /// The bytes that a set with this list matches. To read each range takes a step.
    pub(crate) fn of<L: Ledger>(list: &[u8], steps: &mut Steps<L>) -> ReadSet
        ensures value { (byte : ℕ) → is_as result.bytes result.within byte
            ≡ is_in_set list.now byte }
        ensures counted { steps.old ≤ steps.new }
        ensures bounded { steps.new ≤ steps.old + length list.now }
    {
        match list {
            [b'!', rest @ ..] => ReadSet {
                bytes: ByteSet::of(rest, steps),
                within: false,
            },
            _ => ReadSet {
                bytes: ByteSet::of(list, steps),
                within: true,
            },
        }
    }

    /// The same, for whoever counts no steps.
    pub(crate) fn uncounted(list: &[u8]) -> ReadSet
        ensures { (byte : ℕ) → is_as result.bytes result.within byte ≡ is_in_set list.now byte }
    {
        read_uncounted::<Brand>(list, Blank::new(1))
    }
}

impl ByteSet {
    /// The bytes that a list stands for. To read each range takes a step.
    pub(crate) fn of<L: Ledger>(list: &[u8], steps: &mut Steps<L>) -> ByteSet
        ensures value { (byte : ℕ) → is_one_of result byte ≡ stands_for list.now byte }
        ensures counted { steps.old ≤ steps.new }
        ensures bounded { steps.new ≤ steps.old + length list.now }
    {
        let mut bytes = ByteSet { words: [0; 4] };
        let mut rest = list;
        while let Some(((first, last), after)) = first_range(rest) {
            steps.tick();
            bytes.add_range(first, last);
            rest = after;
        }
        bytes
    }

    /// Whether the byte is one of them.
    pub(crate) fn has(&self, byte: u8) -> bool
        ensures { result ≡ is_one_of self.now byte }
    {
        (self.words[byte as usize / 64] >> (byte % 64)) & 1 == 1
    }

    /// Adds the bytes between the two ends, whichever is greater.
    fn add_range(&mut self, first: u8, last: u8)
        ensures { (byte : ℕ) → is_one_of self.new byte
            ≡ (is_between first last byte || is_one_of self.old byte) }
    {
        for byte in first.min(last)..=first.max(last) {
            self.add(byte);
        }
    }

    /// Adds the byte.
    fn add(&mut self, byte: u8)
        ensures { (other : ℕ) → is_one_of self.new other
            ≡ (other == byte || is_one_of self.old other) }
    {
        self.words[byte as usize / 64] |= 1 << (byte % 64);
    }
}

fn read_uncounted<L: Ledger>(list: &[u8], blank: Blank) -> ReadSet
    requires name { blank.name ≡ L.name }
    requires parts { blank.parts ≡ L.parts }
    requires some { 0 < blank.parts }
    ensures { (byte : ℕ) → is_as result.bytes result.within byte ≡ is_in_set list.now byte }
{
    let mut steps = Steps::<L>::new(blank);
    ReadSet::of(list, &mut steps)
}
