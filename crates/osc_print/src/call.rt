//! The line of a call.
ghost use Rattle.std.specs.Prelude.{◌≡◌, ◌++◌, OnOk, OnErr};
ghost use Rattle.std.specs.Option.{option_copied};
ghost use Rattle.osc_message.specs.Arguments.{tags_of, message_arguments};
ghost use Rattle.osc_print.specs.Words.{argument_words, spaced, tags_word, BeginsWith};
ghost use Rattle.osc_print.specs.Lines.{call_head, call_end, call_text};
ghost use Rattle.osc_print.specs.Entries.{invocation_text};

use crate::Text;
use osc_message::Message;
use osc_method::Call;
use osc_pattern::Address;
use std::alloc::AllocError;

/// Adds the line of a call of the method with this id and address: the unit's number, the message's index in the unit,
/// the id, the address, the message's tags and a word for each argument (docs/FORMATS.md, "Printed text"). An `Err` is
/// out of memory.
pub fn call_line(
    text: &mut Text,
    call: &Call<'_>,
    id: u32,
    address: &Address,
) -> Result<(), AllocError>
    ensures ok { OnOk result
        (text.new ≡ text.old ++ invocation_text
        (record {
          unit = call.now.unit;
          call = record {
            index = call.now.index;
            id = id;
            address = address.now;
            message = call.now.message;
          };
        })) }
    ensures err { OnErr result (text.new ≡ text.old) }
{
    let start = text.bytes().len();
    let added = text.call_words(call, id, address.bytes());
    text.whole_line(start, added)
}

/// Adds what the lines of all calls with the message end with: its tags, a word for each argument, and the line feed.
/// An `Err` is out of memory.
pub fn call_end(text: &mut Text, message: &Message<'_>) -> Result<(), AllocError>
    ensures ok { OnOk result (text.new ≡ text.old ++ call_end message.now) }
    ensures err { OnErr result (text.new ≡ text.old) }
{
    let start = text.bytes().len();
    let added = text.end_words(message);
    text.whole_line(start, added)
}

/// Adds the line of a call as `call_line` does, where `end` is what it ends with.
pub fn ended_call_line(
    text: &mut Text,
    call: &Call<'_>,
    id: u32,
    address: &Address,
    end: &[u8],
) -> Result<(), AllocError>
    requires { end.now ≡ call_end call.now.message }
    ensures ok { OnOk result
        (text.new ≡ text.old ++ invocation_text
        (record {
          unit = call.now.unit;
          call = record {
            index = call.now.index;
            id = id;
            address = address.now;
            message = call.now.message;
          };
        })) }
    ensures err { OnErr result (text.new ≡ text.old) }
{
    let start = text.bytes().len();
    let added = text.ended_words(call, id, address.bytes(), end);
    text.whole_line(start, added)
}

impl Text {
    fn end_words(&mut self, message: &Message<'_>) -> Result<(), AllocError>
        ensures ok { OnOk result (self.new ≡ self.old ++ call_end message.now) }
        ensures err { OnErr result (BeginsWith self.new self.old) }
    {
        self.message_words(message)?;
        self.end_line()
    }

    fn ended_words(
        &mut self,
        call: &Call<'_>,
        id: u32,
        address: &[u8],
        end: &[u8],
    ) -> Result<(), AllocError>
        requires { end.now ≡ call_end call.now.message }
        ensures ok { OnOk result (self.new ≡ self.old
            ++ call_text call.now.unit call.now.index id address.now call.now.message) }
        ensures err { OnErr result (BeginsWith self.new self.old) }
    {
        self.call_head(call.unit, call.index, id, address)?;
        self.word(end)
    }

    fn call_words(&mut self, call: &Call<'_>, id: u32, address: &[u8]) -> Result<(), AllocError>
        ensures ok { OnOk result (self.new ≡ self.old
            ++ call_text call.now.unit call.now.index id address.now call.now.message) }
        ensures err { OnErr result (BeginsWith self.new self.old) }
    {
        self.call_head(call.unit, call.index, id, address)?;
        self.message_words(&call.message)?;
        self.end_line()
    }

    #[inline(always)]
    fn call_head(
        &mut self,
        unit: u64,
        index: u32,
        id: u32,
        address: &[u8],
    ) -> Result<(), AllocError>
        ensures ok { OnOk result (self.new ≡ self.old ++ call_head unit index id address.now) }
        ensures err { OnErr result (BeginsWith self.new self.old) }
    {
        self.word(b"call")?;
        self.space_number(unit)?;
        self.space_number(u64::from(index))?;
        self.space_number(u64::from(id))?;
        self.space_word(address)
    }

    #[inline(always)]
    fn message_words(&mut self, message: &Message<'_>) -> Result<(), AllocError>
        ensures ok { OnOk result (self.new
            ≡ self.old ++ (spaced (tags_word (tags_of message.now))
            ++ argument_words (message_arguments message.now))) }
        ensures err { OnErr result (BeginsWith self.new self.old) }
    {
        self.space_tags(message.tags())?;
        self.space_arguments(message)
    }

    fn space_tags(&mut self, tags: Option<&[u8]>) -> Result<(), AllocError>
        ensures ok { OnOk result (self.new
            ≡ self.old ++ spaced (tags_word (option_copied tags.entry))) }
        ensures err { OnErr result (BeginsWith self.new self.old) }
    {
        match tags {
            Some(tags) => {
                self.space_word(b",")?;
                self.word(tags)
            }
            None => self.space_word(b"-"),
        }
    }
}
