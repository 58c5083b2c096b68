//! The lines of a list of methods.
ghost use Rattle.std.specs.Prelude.{◌≡◌, ◌++◌, OnOk, OnErr};
ghost use Rattle.osc_print.specs.Lines.{list_text, method_text};
ghost use Rattle.osc_print.specs.Words.{BeginsWith};

use crate::Text;
use std::alloc::AllocError;

/// Adds the first line of a list of methods, which stands after so many edits. An `Err` means out of memory.
pub fn list_line(text: &mut Text, edits: u64) -> Result<(), AllocError>
    ensures ok { OnOk result (text.new ≡ text.old ++ list_text edits) }
    ensures err { OnErr result (text.new ≡ text.old) }
{
    let start = text.bytes().len();
    let added = text.list_words(edits);
    text.whole_line(start, added)
}

/// Adds the line of a method, by its id and its address. An `Err` means out of memory.
pub fn method_line(text: &mut Text, id: u32, address: &[u8]) -> Result<(), AllocError>
    ensures ok { OnOk result (text.new ≡ text.old ++ method_text id address.now) }
    ensures err { OnErr result (text.new ≡ text.old) }
{
    let start = text.bytes().len();
    let added = text.method_words(id, address);
    text.whole_line(start, added)
}

impl Text {
    fn list_words(&mut self, edits: u64) -> Result<(), AllocError>
        ensures ok { OnOk result (self.new ≡ self.old ++ list_text edits) }
        ensures err { OnErr result (BeginsWith self.new self.old) }
    {
        self.word(b"list")?;
        self.space_number(edits)?;
        self.end_line()
    }

    fn method_words(&mut self, id: u32, address: &[u8]) -> Result<(), AllocError>
        ensures ok { OnOk result (self.new ≡ self.old ++ method_text id address.now) }
        ensures err { OnErr result (BeginsWith self.new self.old) }
    {
        self.word(b"method")?;
        self.space_number(u64::from(id))?;
        self.space_word(address)?;
        self.end_line()
    }
}
