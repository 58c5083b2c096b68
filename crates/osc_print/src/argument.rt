//! Arguments, as words.
ghost use Rattle.std.specs.Prelude.{◌≡◌, ◌++◌, OnOk, OnErr};
ghost use Rattle.std.specs.Fmt.{signed_decimal};
ghost use Rattle.std.specs.List.{flat_map, list_all};
ghost use Rattle.hex.specs.Hex.{encode_lower};
ghost use Rattle.osc_atoms.specs.Atoms;
ghost use Rattle.osc_message.specs.Arguments.{message_arguments};
ghost use Rattle.osc_message.specs.Shown.{shown};
ghost use Rattle.osc_print.specs.Words.{argument_word, argument_words, spaced, shown_byte};
ghost use Rattle.osc_print.specs.Words.{is_shown, BeginsWith};

use crate::Text;
use itoa::Buffer;
use osc_message::{Arg, Message};
use std::alloc::AllocError;

impl Text {
    /// Adds a space and a word for each argument of the message (docs/FORMATS.md, "Printed text"). After an `Err` some of
    /// them may stand.
    #[inline(always)]
    pub fn space_arguments(&mut self, message: &Message<'_>) -> Result<(), AllocError>
        ensures ok { OnOk result (self.new
            ≡ self.old ++ argument_words (message_arguments message.now)) }
        ensures err { OnErr result (BeginsWith self.new self.old) }
    {
        for argument in message.args() {
            self.space_argument(argument)?;
        }
        Ok(())
    }

    /// Adds a space and the word of an argument.
    fn space_argument(&mut self, argument: Arg<'_>) -> Result<(), AllocError>
        ensures ok { OnOk result (self.new
            ≡ self.old ++ spaced (argument_word (shown argument.entry))) }
        ensures err { OnErr result (BeginsWith self.new self.old) }
    {
        match argument {
            Arg::Int(number) => self.space_signed(b"i:", i64::from(number)),
            Arg::Long(number) => self.space_signed(b"h:", number),
            Arg::Float(bits) => self.space_hex(b"f:", &bits.to_be_bytes()),
            Arg::Char(number) => self.space_hex(b"c:", &number.to_be_bytes()),
            Arg::Rgba(number) => self.space_hex(b"r:", &number.to_be_bytes()),
            Arg::Midi(number) => self.space_hex(b"m:", &number.to_be_bytes()),
            Arg::Time(tag) => self.space_hex(b"t:", &tag.to_be_bytes()),
            Arg::Double(bits) => self.space_hex(b"d:", &bits.to_be_bytes()),
            Arg::Blob(bytes) => self.space_hex(b"b:", bytes),
            Arg::Str(text) => self.space_text(b"s:", text),
            Arg::Symbol(text) => self.space_text(b"S:", text),
            Arg::True => self.space_word(b"T"),
            Arg::False => self.space_word(b"F"),
            Arg::Nil => self.space_word(b"N"),
            Arg::Infinitum => self.space_word(b"I"),
            Arg::ArrayStart => self.space_word(b"["),
            Arg::ArrayEnd => self.space_word(b"]"),
        }
    }

    fn space_signed(&mut self, tag: &[u8], number: i64) -> Result<(), AllocError>
        ensures ok { OnOk result (self.new
            ≡ self.old ++ spaced (tag.now ++ signed_decimal number)) }
        ensures err { OnErr result (BeginsWith self.new self.old) }
    {
        self.space_word(tag)?;
        self.word(Buffer::new().format(number).as_bytes())
    }

    /// Adds the bytes in lower-case hexadecimal digits.
    pub(crate) fn space_hex(&mut self, tag: &[u8], bytes: &[u8]) -> Result<(), AllocError>
        ensures ok { OnOk result (self.new
            ≡ self.old ++ spaced (tag.now ++ encode_lower bytes.now)) }
        ensures err { OnErr result (BeginsWith self.new self.old) }
    {
        self.space_word(tag)?;
        self.hex(bytes)
    }

    fn space_text(&mut self, tag: &[u8], text: &[u8]) -> Result<(), AllocError>
        ensures ok { OnOk result (self.new
            ≡ self.old ++ spaced (tag.now ++ flat_map shown_byte text.now)) }
        ensures err { OnErr result (BeginsWith self.new self.old) }
    {
        self.space_word(tag)?;
        self.shown(text)
    }

    /// Adds bytes that can be read as they are, and any other as `\x` and two digits.
    fn shown(&mut self, text: &[u8]) -> Result<(), AllocError>
        ensures ok { OnOk result (self.new ≡ self.old ++ flat_map shown_byte text.now) }
        ensures err { OnErr result (BeginsWith self.new self.old) }
    {
        if is_all_shown(text) {
            return self.word(text);
        }
        self.shown_bytes(text)
    }

    fn shown_bytes(&mut self, text: &[u8]) -> Result<(), AllocError>
        ensures ok { OnOk result (self.new ≡ self.old ++ flat_map shown_byte text.now) }
        ensures err { OnErr result (BeginsWith self.new self.old) }
    {
        for byte in text {
            self.shown_byte(*byte)?;
        }
        Ok(())
    }

    fn shown_byte(&mut self, byte: u8) -> Result<(), AllocError>
        ensures ok { OnOk result (self.new ≡ self.old ++ shown_byte byte) }
        ensures err { OnErr result (BeginsWith self.new self.old) }
    {
        if is_shown(byte) {
            return self.word(&[byte]);
        }
        self.word(b"\\x")?;
        self.hex(&[byte])
    }
}

/// Whether the whole text is shown as it is.
fn is_all_shown(text: &[u8]) -> bool
    ensures { result ≡ list_all is_shown text.now }
{
    text.iter().all(|byte| is_shown(*byte))
}

/// A byte from `!` to `~` that isn't a backslash.
fn is_shown(byte: u8) -> bool
    ensures { result ≡ is_shown byte }
{
    byte.is_ascii_graphic() && byte != b'\\'
}
