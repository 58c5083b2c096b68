//! The lines of packets that are refused.
ghost use Rattle.std.specs.Prelude.{◌≡◌, ◌++◌, OnOk, OnErr};
ghost use Rattle.std.specs.Fmt.{decimal};
ghost use Rattle.osc_print.specs.Lines.{datagram_words, fault_text, link_fault_text};
ghost use Rattle.osc_print.specs.Words.{spaced, BeginsWith};

use crate::Text;
use osc_atoms::Fault;
use std::alloc::AllocError;

/// Adds the line of the first fault of the packet in a line of a script, which counts from 1. An `Err` means out of
/// memory.
pub fn fault_line(text: &mut Text, line: u32, fault: Fault) -> Result<(), AllocError>
    ensures ok { OnOk result (text.new ≡ text.old ++ fault_text line fault) }
    ensures err { OnErr result (text.new ≡ text.old) }
{
    let start = text.bytes().len();
    let added = text.fault_words(line, fault);
    text.whole_line(start, added)
}

/// Adds the line of the first fault of a datagram: `link` counts the links from 0, and `number` the datagrams of that
/// link from 1 (docs/FORMATS.md, "Printed text"). An `Err` means out of memory.
pub fn link_fault_line(
    text: &mut Text,
    link: u32,
    number: u32,
    fault: Fault,
) -> Result<(), AllocError>
    ensures ok { OnOk result (text.new ≡ text.old ++ link_fault_text link number fault) }
    ensures err { OnErr result (text.new ≡ text.old) }
{
    let start = text.bytes().len();
    let added = text.link_fault_words(link, number, fault);
    text.whole_line(start, added)
}

impl Text {
    fn fault_words(&mut self, line: u32, fault: Fault) -> Result<(), AllocError>
        ensures ok { OnOk result (self.new ≡ self.old ++ fault_text line fault) }
        ensures err { OnErr result (BeginsWith self.new self.old) }
    {
        self.word(b"fault")?;
        self.space_number(u64::from(line))?;
        self.space_fault(fault)?;
        self.end_line()
    }

    fn link_fault_words(&mut self, link: u32, number: u32, fault: Fault) -> Result<(), AllocError>
        ensures ok { OnOk result (self.new ≡ self.old ++ link_fault_text link number fault) }
        ensures err { OnErr result (BeginsWith self.new self.old) }
    {
        self.word(b"fault")?;
        self.space_datagram(link, number)?;
        self.space_fault(fault)?;
        self.end_line()
    }

    /// Adds the numbers of a link and of its datagram.
    fn space_datagram(&mut self, link: u32, number: u32) -> Result<(), AllocError>
        ensures ok { OnOk result (self.new ≡ self.old ++ spaced (datagram_words link number)) }
        ensures err { OnErr result (BeginsWith self.new self.old) }
    {
        self.space_word(b"link")?;
        self.space_number(u64::from(link))?;
        self.space_word(b"datagram")?;
        self.space_number(u64::from(number))
    }

    /// Adds the kind and the place.
    fn space_fault(&mut self, fault: Fault) -> Result<(), AllocError>
        ensures ok { OnOk result
            (self.new ≡ self.old ++ (spaced (decimal fault.kind) ++ spaced (decimal fault.at))) }
        ensures err { OnErr result (BeginsWith self.new self.old) }
    {
        self.space_number(u64::from(fault.kind))?;
        self.space_number(u64::from(fault.at))
    }
}
