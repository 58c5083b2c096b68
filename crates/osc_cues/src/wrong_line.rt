//! Why a sheet isn't read.
use crate::advice::{add_caret, add_heading, add_line, add_message};
use crate::fault::Fault;
use jiff_core::Offset;
use osc_atoms::Bytes;
use osc_pattern::Address;
use std::alloc::{AllocError, Global};
use std::marker::Model;

/// A line that is wrong.
#[derive(Drop)]
pub struct WrongLine {
    /// The line's number in the sheet, counted from 1.
    pub line: u32,
    /// Where the fault is, counted from 1 in characters.
    pub column: usize,
    /// The same, counted from 0 in bytes.
    pub at: usize,
    /// What is wrong.
    pub fault: Fault,
    /// The line, without its end.
    pub text: Bytes,
}

impl WrongLine {
    ghost use Rattle.std.specs.Prelude.{◌≡◌, ◌++◌, OnOk};
    ghost use Rattle.osc_cues.specs.Texts.{wrong_text};

    /// Adds three lines: the place and what is wrong, the line itself, and a caret below the
    /// fault. Times are those of a clock at this offset from UTC. Where no method answers an
    /// address, the nearest of these is named. An `Err` means out of memory, which may leave a part
    /// of the text.
    #[tactic(auto, using(crate::proofs::Rows::four))]
    pub fn add_text(
        &self,
        text: &mut Vec<u8>,
        offset: Offset,
        methods: &[Address],
    ) -> Result<(), AllocError>
        ensures { OnOk result (text.new.items
            ≡ text.old.items ++ wrong_text offset.seconds methods.now self.now) }
    {
        let line = self.text.as_slice();
        add_heading(text, self.line, self.column)?;
        add_message(text, offset, methods, self.fault, line, self.at)?;
        add_line(text, line)?;
        add_caret(text, self.column)
    }
}

/// Wrong lines, in the order of the sheet. A contract sees the list.
pub struct WrongLines {
    items: Vec<WrongLine>,
}

impl Drop for WrongLines {
    fn drop(self) {
        let WrongLines { items: _ } = self;
    }
}

impl Model for WrongLines {
    ghost use Rattle.std.specs.Prelude.{List};
    ghost use Rattle.osc_cues.specs.declared.wrong_line.WrongLine.{WrongLine};

    ghost Value = { List WrongLine };

    ghost view = { λ w. w.items.items };
}

impl WrongLines {
    ghost use Rattle.std.specs.Prelude.{◌≡◌, ◌++◌, [], ◌∷◌, OnOk};

    /// No lines.
    pub(crate) fn new(alloc: Global) -> WrongLines
        ensures { result ≡ [] }
    {
        WrongLines {
            items: Vec::new(alloc),
        }
    }

    /// Adds a line.
    pub(crate) fn push(&mut self, line: WrongLine) -> Result<(), AllocError>
        ensures { OnOk result (self.new ≡ self.old ++ line ∷ []) }
    {
        self.items.push(line)?;
        Ok(())
    }

    /// The lines. Takes no memory.
    pub fn as_slice(&self) -> &[WrongLine]
        ensures { result.now ≡ self.now }
    {
        &self.items
    }
}

/// Why a sheet isn't read.
#[derive(Drop)]
pub enum SheetError {
    NoMemory,
    /// It has over [`MAX_SHEET`](crate::MAX_SHEET) bytes.
    TooLong,
    /// All lines that are wrong.
    Lines(WrongLines),
}

impl From<AllocError> for SheetError {
    ghost use Rattle.std.specs.Prelude.{◌≡◌};
    ghost use Rattle.osc_cues.specs.declared.wrong_line.SheetError.TheVariants.{NoMemory};

    ghost from_gives = { λ _ r. r ≡ NoMemory };

    fn from(_error: AllocError) -> SheetError {
        SheetError::NoMemory
    }
}
