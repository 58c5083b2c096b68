//! What is wrong with bytes that should be a packet, and where.

/// The first fault of bytes. `at` counts from the packet's first byte; docs/FORMATS.md has the order of the checks.
#[derive(Clone, Copy, Debug, PartialEq, Eq)]
pub struct Fault {
    /// One of the numbers below.
    pub kind: u8,
    /// The place of the byte, counted from the first.
    pub at: u32,
}

impl Fault {
    /// There is no byte.
    pub const EMPTY: u8 = 1;
    /// The length isn't a multiple of 4.
    pub const NOT_FOUR: u8 = 2;
    /// There are more bytes than the limit.
    pub const TOO_LONG: u8 = 3;
    /// The first byte of an element is neither `/` nor `#`.
    pub const START: u8 = 4;
    /// A `#` doesn't begin `#bundle` and a zero byte.
    pub const BUNDLE_WORD: u8 = 5;
    /// A bundle has fewer than 16 bytes.
    pub const BUNDLE_HEAD: u8 = 6;
    /// An element's size is no positive multiple of 4, or more than the bundle has left.
    pub const ELEMENT_SIZE: u8 = 7;
    /// No zero byte ends a string.
    pub const UNTERMINATED: u8 = 8;
    /// A padding byte isn't zero.
    pub const PADDING: u8 = 9;
    /// A byte of the address pattern is outside 0x20 to 0x7E.
    pub const PATTERN_BYTE: u8 = 10;
    /// A bracket or brace of the address pattern isn't closed in its part.
    pub const PATTERN_OPEN: u8 = 11;
    /// No type tag string stands before the argument bytes.
    pub const NO_TAGS: u8 = 12;
    /// A blob's count is negative, or its bytes and padding are more than what is left.
    pub const BLOB_SIZE: u8 = 13;
    /// Fewer bytes are left than an argument has.
    pub const SHORT: u8 = 14;
    /// The array brackets of the type tags don't balance.
    pub const BRACKETS: u8 = 15;
    /// Bytes are left after the last argument.
    pub const LEFT_OVER: u8 = 16;
    /// Bundles are nested more than 16 deep.
    pub const TOO_DEEP: u8 = 17;
    /// An enclosed bundle's time tag is earlier than its encloser's.
    pub const TAG_BEFORE: u8 = 18;
}
