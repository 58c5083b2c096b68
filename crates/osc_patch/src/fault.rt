//! Why a patch isn't read.
ghost use Rattle.std.specs.Prelude.{◌≡◌};
ghost use Rattle.osc_patch.specs.declared.fault.PatchError.TheVariants.{NoMemory};

use crate::advice::{add_advice, add_heading, add_word};
use osc_atoms::Bytes;
use std::alloc::{AllocError, Global};
use std::marker::Model;

/// What is wrong with a line, tried in this order; the first that holds is told.
#[derive(Clone, Copy, Debug, PartialEq, Eq)]
pub enum Fault {
    /// The first word isn't `add`.
    UnknownWord,
    /// After `add` there is neither one word nor three.
    WordCount,
    /// The address has a byte that only a pattern has, one of `*?[]{}`.
    Pattern,
    /// The address isn't lawful otherwise (`osc_pattern::Address`).
    Address,
    /// The host is neither an IPv4 address nor a name of letters, digits, `-` and `.`.
    Host,
    /// The port isn't a number from 1 to 65535.
    Port,
    /// The line of this number has sent the same method to the same host and port.
    Repeated(u32),
    /// The address lies under or above the method that the line of this number was the first to add
    /// (`osc_tree`).
    Nested(u32),
    /// There are as many methods already as may be, which is this number.
    TooMany(u32),
}

/// A line that says nothing lawful.
#[derive(Drop)]
pub struct WrongLine {
    /// The line's number in the patch, counted from 1.
    pub line: u32,
    /// What is wrong with it.
    pub fault: Fault,
    /// The word that is wrong, as it stands there.
    pub word: Bytes,
}

impl WrongLine {
    ghost use Rattle.std.specs.Prelude.{◌≡◌, ◌++◌, OnOk};
    ghost use Rattle.osc_patch.specs.Texts.{wrong_text};

    /// Adds what is told of the line, without a line feed: its number, the word with question marks
    /// in place of control characters, and what to write instead. An `Err` means out of memory.
    #[tactic(auto, using(crate::proofs::Texts::four))]
    pub fn add_text(&self, text: &mut Vec<u8>) -> Result<(), AllocError>
        ensures { OnOk result (text.new.items ≡ text.old.items ++ wrong_text self.now) }
    {
        add_heading(text, self.line)?;
        add_word(text, self.word.as_slice())?;
        text.push(b'`')?;
        add_advice(text, self.fault)
    }
}

/// Wrong lines, in the order of the patch. A contract sees the list.
pub struct WrongLines {
    items: Vec<WrongLine>,
}

impl Drop for WrongLines {
    fn drop(self) {
        let WrongLines { items: _ } = self;
    }
}

impl Model for WrongLines {
    ghost use Rattle.std.specs.Prelude.{List};
    ghost use Rattle.osc_patch.specs.declared.fault.WrongLine.{WrongLine};

    ghost Value = { List WrongLine };

    ghost view = { λ w. w.items.items };
}

impl WrongLines {
    ghost use Rattle.std.specs.Prelude.{◌≡◌, ◌++◌, [], ◌∷◌, OnOk};

    /// These lines.
    pub(crate) fn of(lines: Vec<WrongLine>) -> WrongLines
        ensures { result ≡ lines.items }
    {
        WrongLines { items: lines }
    }

    /// Adds a line.
    pub(crate) fn push(&mut self, line: WrongLine) -> Result<(), AllocError>
        ensures { OnOk result (self.new ≡ self.old ++ line ∷ []) }
    {
        self.items.push(line)?;
        Ok(())
    }

    /// The lines. Takes no memory.
    pub fn as_slice(&self) -> &[WrongLine]
        ensures { result.now ≡ self.now }
    {
        &self.items
    }
}

/// Why a patch isn't read.
#[derive(Drop)]
pub enum PatchError {
    NoMemory,
    /// It has over [`MAX_PATCH`](crate::MAX_PATCH) bytes.
    TooLong,
    /// No line is wrong, and none adds a method.
    NoMethod,
    /// All lines that are wrong.
    Lines(WrongLines),
}

impl From<AllocError> for PatchError {
    ghost from_gives = { λ _ r. r ≡ NoMemory };

    fn from(_error: AllocError) -> PatchError {
        PatchError::NoMemory
    }
}
