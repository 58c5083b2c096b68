//! Text, word by word.
ghost use Rattle.std.specs.Prelude.{◌≡◌, ◌++◌, ◌∷◌, [], take, OnOk, OnErr};
ghost use Rattle.std.specs.Fmt.{decimal};
ghost use Rattle.hex.specs.Hex.{encode_lower};
ghost use Rattle.osc_print.specs.Words.{spaced, BeginsWith};

use itoa::Buffer;
use std::alloc::{AllocError, Global};
use std::marker::Model;

/// A list of bytes, to whose end words and lines are added. An `Err` of its calls means out of memory.
pub struct Text {
    bytes: Vec<u8>,
}

impl Drop for Text {
    fn drop(self) {
        let Text { bytes: _ } = self;
    }
}

impl Model for Text {
    ghost use Rattle.std.specs.Prelude.{List, ℕ};

    ghost Value = { List ℕ };

    ghost view = { λ t. t.bytes.items };
}

impl Text {
    /// Takes no memory.
    pub fn open(alloc: Global) -> Text
        ensures { result ≡ [] }
    {
        Text {
            bytes: Vec::new(alloc),
        }
    }

    /// Takes all bytes out, and keeps the memory.
    pub fn clear(&mut self)
        ensures { self.new ≡ [] }
    {
        self.bytes.clear();
    }

    /// The whole text.
    pub fn bytes(&self) -> &[u8]
        ensures { result.now ≡ self.now }
    {
        self.bytes.as_slice()
    }

    /// The whole text, as the list that holds it.
    pub fn into_bytes(self) -> Vec<u8>
        ensures { result.items ≡ self }
    {
        let Text { bytes } = self;
        bytes
    }

    /// Adds the bytes.
    pub fn word(&mut self, word: &[u8]) -> Result<(), AllocError>
        ensures ok { OnOk result (self.new ≡ self.old ++ word.now) }
        ensures err { OnErr result (self.new ≡ self.old) }
    {
        self.bytes.extend_from_slice(word)
    }

    /// Adds a space and the bytes. After an `Err` the space may stand.
    pub fn space_word(&mut self, word: &[u8]) -> Result<(), AllocError>
        ensures ok { OnOk result (self.new ≡ self.old ++ spaced word.now) }
        ensures err { OnErr result (BeginsWith self.new self.old) }
    {
        self.byte(b' ')?;
        self.word(word)
    }

    /// Adds the number in decimal.
    pub(crate) fn number(&mut self, number: u64) -> Result<(), AllocError>
        ensures ok { OnOk result (self.new ≡ self.old ++ decimal number) }
        ensures err { OnErr result (self.new ≡ self.old) }
    {
        self.word(Buffer::new().format(number).as_bytes())
    }

    /// Adds a space and the number in decimal. After an `Err` the space may stand.
    pub fn space_number(&mut self, number: u64) -> Result<(), AllocError>
        ensures ok { OnOk result (self.new ≡ self.old ++ spaced (decimal number)) }
        ensures err { OnErr result (BeginsWith self.new self.old) }
    {
        // Most numbers have one digit.
        if number < 10 {
            self.byte(b' ')?;
            return self.byte(b'0' + number as u8);
        }
        self.space_word(Buffer::new().format(number).as_bytes())
    }

    /// Adds a line feed.
    pub fn end_line(&mut self) -> Result<(), AllocError>
        ensures ok { OnOk result (self.new ≡ self.old ++ 10 ∷ []) }
        ensures err { OnErr result (self.new ≡ self.old) }
    {
        self.byte(b'\n')
    }

    fn byte(&mut self, byte: u8) -> Result<(), AllocError>
        ensures ok { OnOk result (self.new ≡ self.old ++ byte ∷ []) }
        ensures err { OnErr result (self.new ≡ self.old) }
    {
        self.bytes.push(byte)?;
        Ok(())
    }

    /// Adds two lower-case hexadecimal digits for each byte.
    pub fn hex(&mut self, bytes: &[u8]) -> Result<(), AllocError>
        ensures ok { OnOk result (self.new ≡ self.old ++ encode_lower bytes.now) }
        ensures err { OnErr result (self.new ≡ self.old) }
    {
        append_hex(&mut self.bytes, bytes)
    }

    /// What memory is taken from.
    pub(crate) fn allocator(&self) -> Global {
        *self.bytes.allocator()
    }

    /// Answers the result of a line, and cuts the text back to where the line began if it wasn't added whole.
    pub(crate) fn whole_line(
        &mut self,
        start: usize,
        added: Result<(), AllocError>,
    ) -> Result<(), AllocError>
        ensures answer { result ≡ added }
        ensures ok { OnOk result (self.new ≡ self.old) }
        ensures err { OnErr result (self.new ≡ take start self.old) }
    {
        match added {
            Ok(()) => Ok(()),
            Err(refused) => {
                self.bytes.truncate(start);
                Err(refused)
            }
        }
    }
}

/// Adds two lower-case hexadecimal digits for each byte.
fn append_hex(text: &mut Vec<u8>, bytes: &[u8]) -> Result<(), AllocError>
    ensures ok { OnOk result (text.new.items ≡ text.old.items ++ encode_lower bytes.now) }
    ensures err { OnErr result (text.new.items ≡ text.old.items) }
{
    let start = text.len();
    let Some(size) = bytes.len().checked_mul(2) else {
        return Err(AllocError);
    };
    let Some(end) = start.checked_add(size) else {
        return Err(AllocError);
    };
    text.resize(end, 0)?;
    match hex::encode_to_slice(bytes, &mut text[start..]) {
        Ok(()) => Ok(()),
        Err(_) => unreachable!(),
    }
}
