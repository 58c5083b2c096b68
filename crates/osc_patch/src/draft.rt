// Reads a patch line by line.
use crate::clash::clash;
use crate::entry::{Entry, LineError, read_line};
use crate::fault::{WrongLine, WrongLines};
use crate::patch::Patch;
use osc_atoms::Bytes;
use std::alloc::{AllocError, Global};

/// The methods, and the wrong lines, of the lines so far.
#[derive(Drop)]
pub(crate) struct Draft {
    pub(crate) methods: Patch,
    pub(crate) wrong: WrongLines,
}

impl Draft {
    ghost use Rattle.std.specs.Prelude.{◌≡◌, OnOk};
    ghost use Rattle.osc_patch.specs.Entries.{line_says};
    ghost use Rattle.osc_patch.specs.Patches.{unread, after_line, settled, clash};

    pub(crate) fn new(alloc: Global) -> Draft
        ensures { result ≡ unread }
    {
        Draft {
            methods: Patch::of(Vec::new(alloc)),
            wrong: WrongLines::of(Vec::new(alloc)),
        }
    }

    /// Reads the line of this number, where there may be so many methods.
    pub(crate) fn read_line(
        &mut self,
        alloc: Global,
        limit: u32,
        number: u32,
        text: &[u8],
    ) -> Result<(), AllocError>
        ensures { OnOk result (self.new ≡ after_line limit self.old (line_says number text.now)) }
    {
        match read_line(alloc, number, text) {
            Ok(None) => Ok(()),
            Ok(Some(entry)) => self.settle(alloc, limit, entry),
            Err(LineError::Wrong(line)) => self.wrong.push(line),
            Err(LineError::NoMemory) => Err(AllocError),
        }
    }

    /// Takes what a line says, or what stands against it.
    fn settle(&mut self, alloc: Global, limit: u32, entry: Entry) -> Result<(), AllocError>
        ensures { OnOk result
            (self.new ≡ settled self.old entry (clash limit self.old.methods entry)) }
    {
        match clash(limit, self.methods.methods(), &entry) {
            None => self.methods.enter(alloc, entry),
            Some(fault) => {
                let word = Bytes::copied(alloc, entry.address.bytes())?;
                self.wrong.push(WrongLine {
                    line: entry.line,
                    fault,
                    word,
                })
            }
        }
    }
}
