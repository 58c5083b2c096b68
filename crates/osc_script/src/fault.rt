//! Why a script isn't read.
use std::alloc::AllocError;
use thiserror::Error;

/// The first line outside the rules, counted from 1, or 0 for an input that is too long.
/// docs/FORMATS.md has the order in which the kinds are tried.
#[derive(Clone, Copy, Debug, PartialEq, Eq, Error)]
#[error("line {line} of the script has a fault of kind {kind}")]
pub struct ScriptFault {
    /// The line, counted from 1, or 0 for the whole input.
    pub line: u32,
    /// The number of its kind.
    pub kind: u8,
}

/// The kind of a fault.
#[derive(Clone, Copy, Debug, PartialEq, Eq)]
pub enum ScriptFaultKind {
    /// The input has over 67,108,864 bytes.
    TooLong = 1,
    /// An unknown word, whatever follows it.
    Word = 2,
    /// A wrong number of words for a known word, or none after a lane's number.
    Count = 3,
    /// The operand of `add` or `remove` isn't a lawful address.
    Address = 4,
    /// The joined words of a `send` have a byte that is no hexadecimal digit, or are an odd number
    /// of digits.
    Hex = 5,
    /// The operand of `tick` isn't exactly 16 hexadecimal digits.
    Tag = 6,
    /// In mode `Lanes` the first word isn't a lane's number.
    Lane = 7,
    /// A known word with as many words after it as it takes, which isn't lawful in this mode.
    NotHere = 8,
}

impl ScriptFaultKind {
    ghost use Rattle.std.specs.Prelude.{◌≡◌};
    ghost use Rattle.osc_script.specs.Kinds.{kind_number};

    /// Its number, which a `ScriptFault` has.
    pub fn number(self) -> u8
        ensures { result ≡ kind_number self }
    {
        self as u8
    }
}

/// Why a script isn't read.
#[derive(Clone, Copy, Debug, PartialEq, Eq)]
pub enum ScriptRefusal {
    Fault(ScriptFault),
    NoMemory,
}

/// Why a line isn't read, of a script or of a score.
#[derive(Clone, Copy)]
pub enum LineRefusal<K> {
    /// The kind of its fault.
    Kind(K),
    NoMemory,
}

impl<K> From<AllocError> for LineRefusal<K> {
    ghost use Rattle.std.specs.Prelude.{◌≡◌};
    ghost use Rattle.osc_script.specs.declared.fault.LineRefusal.TheVariants.{NoMemory};

    ghost from_gives = { λ _ r. r ≡ NoMemory };

    fn from(_error: AllocError) -> LineRefusal<K> {
        LineRefusal::NoMemory
    }
}
