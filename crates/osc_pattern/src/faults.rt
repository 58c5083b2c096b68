//! Why a pattern or an address is refused.

/// What is wrong with a pattern, and where: `kind` is one of the constants below, `at` the place of
/// the byte, counted from the pattern's first byte.
#[derive(Clone, Copy, Debug, PartialEq, Eq)]
pub struct PatternFault {
    /// One of the numbers below.
    pub kind: u8,
    /// The place of the byte, counted from the pattern's first.
    pub at: u32,
}

impl PatternFault {
    /// The pattern is empty or its first byte isn't `/`. The place is 0.
    pub const START: u8 = 4;
    /// The byte is outside 0x20 to 0x7E.
    pub const BYTE: u8 = 10;
    /// The `[` or `{` isn't closed in its part.
    pub const OPEN: u8 = 11;
}

/// Why bytes are no address. Each rule is tried over the whole text before the next one.
#[derive(Clone, Copy, Debug, PartialEq, Eq)]
pub enum AddressFault {
    /// The text is empty or its first byte isn't `/`.
    NoSlash = 1,
    /// A name is empty.
    EmptyName = 2,
    /// A byte of a name is outside 0x21 to 0x7E or one of `#*,?[]{}`.
    BadByte = 3,
    /// A name has more than 63 bytes.
    NameLong = 4,
    /// The address has more than 255 bytes.
    AddressLong = 5,
    /// The address has more than 16 names.
    TooManyParts = 6,
    /// There was no memory for a copy.
    NoMemory = 7,
}
