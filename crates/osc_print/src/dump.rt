//! The lines of a dump.
ghost use Rattle.std.specs.Prelude.{◌≡◌, ◌++◌, OnOk, OnErr};
ghost use Rattle.osc_record.specs.Left.{placed_of};
ghost use Rattle.osc_record.specs.Shown.{event_of};
ghost use Rattle.osc_print.specs.Words.{spaced, BeginsWith};
ghost use Rattle.osc_print.specs.Dumps.{policy_word, limits_text, placed_text, date_after};

use crate::Text;
use crate::date::date_text;
use osc_record::{Caps, Entry, Event, Late};
use std::alloc::AllocError;

/// Adds the first line of a dump: the version of the format, the limits of the recording, and what becomes of late
/// units (docs/FORMATS.md, "Dumps"). An `Err` means out of memory.
pub fn header_line(text: &mut Text, caps: &Caps) -> Result<(), AllocError>
    ensures ok { OnOk result (text.new ≡ text.old ++ limits_text caps.now) }
    ensures err { OnErr result (text.new ≡ text.old) }
{
    let start = text.bytes().len();
    let added = text.limits_words(caps);
    text.whole_line(start, added)
}

/// Adds the line of an entry after its place in the recording, and after a tick the date of its moment's seconds
/// (docs/FORMATS.md, "Dumps"). An `Err` means out of memory.
pub fn dump_line(text: &mut Text, entry: &Entry<'_>) -> Result<(), AllocError>
    ensures ok { OnOk result (text.new ≡ text.old ++ placed_text (placed_of entry.now)) }
    ensures err { OnErr result (text.new ≡ text.old) }
{
    let start = text.bytes().len();
    let added = text.placed_words(entry);
    text.whole_line(start, added)
}

impl Text {
    fn limits_words(&mut self, caps: &Caps) -> Result<(), AllocError>
        ensures ok { OnOk result (self.new ≡ self.old ++ limits_text caps.now) }
        ensures err { OnErr result (BeginsWith self.new self.old) }
    {
        self.word(b"rec 2")?;
        self.space_number(u64::from(caps.units()))?;
        self.space_number(u64::from(caps.blocks()))?;
        self.space_number(u64::from(caps.methods()))?;
        self.space_number(u64::from(caps.nodes()))?;
        self.space_number(u64::from(caps.callers()))?;
        self.space_number(u64::from(caps.recording()))?;
        self.space_policy(caps.late())?;
        self.end_line()
    }

    /// Adds the word for what becomes of late units.
    fn space_policy(&mut self, late: Late) -> Result<(), AllocError>
        ensures ok { OnOk result (self.new ≡ self.old ++ spaced (policy_word late)) }
        ensures err { OnErr result (BeginsWith self.new self.old) }
    {
        match late {
            Late::Deliver => self.space_word(b"deliver"),
            Late::Discard => self.space_word(b"discard"),
        }
    }

    fn placed_words(&mut self, entry: &Entry<'_>) -> Result<(), AllocError>
        ensures ok { OnOk result (self.new ≡ self.old ++ placed_text (placed_of entry.now)) }
        ensures err { OnErr result (BeginsWith self.new self.old) }
    {
        self.number(u64::from(entry.at))?;
        self.word(b" ")?;
        self.entry_words(entry)?;
        self.date_after(entry.event)?;
        self.end_line()
    }

    /// Adds the date of a tick's moment.
    fn date_after(&mut self, event: Event<'_>) -> Result<(), AllocError>
        ensures ok { OnOk result (self.new ≡ self.old ++ date_after (event_of event.entry)) }
        ensures err { OnErr result (BeginsWith self.new self.old) }
    {
        match event {
            Event::Tick(moment) => {
                let date = date_text(self.allocator(), moment)?;
                self.space_word(date.as_bytes())
            }
            _ => Ok(()),
        }
    }
}
