//! Why a score isn't read.
use std::alloc::AllocError;
use thiserror::Error;

/// The first line outside the rules, counted from 1, or 0 for an input that is too long. The kinds
/// are tried in the order of their numbers.
#[derive(Clone, Copy, Debug, PartialEq, Eq, Error)]
#[error("line {line} of the score has a fault of kind {kind}")]
pub struct ScoreFault {
    /// The line, counted from 1, or 0 for the whole input.
    pub line: u32,
    /// The number of its kind.
    pub kind: u8,
}

/// The kind of a fault.
#[derive(Clone, Copy, Debug, PartialEq, Eq)]
pub enum ScoreFaultKind {
    /// The input has over 1,048,576 bytes.
    TooLong = 31,
    /// Fewer than two words.
    Count = 32,
    /// The first word isn't exactly 16 hexadecimal digits.
    Tag = 33,
    /// The tag is below 2, or below that of the line before.
    Order = 34,
    /// The second word isn't a lawful address.
    Address = 35,
    /// A word that is no argument.
    Arg = 36,
    /// The array brackets don't balance.
    Brackets = 37,
    /// The bundle with this message would be over 65,504 bytes.
    Bundle = 38,
    /// The address is a proper prefix of an earlier one, or the reverse.
    Clash = 39,
    /// There are more than 1,024 distinct addresses, or they make more than 4,096 nodes.
    TreeFull = 40,
}

impl ScoreFaultKind {
    ghost use Rattle.std.specs.Prelude.{◌≡◌};
    ghost use Rattle.osc_score.specs.Kinds.{kind_number};

    /// Its number, which a `ScoreFault` has.
    pub fn number(self) -> u8
        ensures { result ≡ kind_number self }
    {
        self as u8
    }
}

/// Why a score isn't read.
#[derive(Clone, Copy, Debug, PartialEq, Eq)]
pub enum ScoreRefusal {
    Fault(ScoreFault),
    NoMemory,
}

impl From<AllocError> for ScoreRefusal {
    ghost use Rattle.std.specs.Prelude.{◌≡◌};
    ghost use Rattle.osc_score.specs.declared.fault.ScoreRefusal.TheVariants.{NoMemory};

    ghost from_gives = { λ _ r. r ≡ NoMemory };

    fn from(_error: AllocError) -> ScoreRefusal {
        ScoreRefusal::NoMemory
    }
}
