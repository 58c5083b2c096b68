//! An argument in C.

/// An argument: its tag, its number, and where its bytes stand in the message.
#[repr(C)]
#[derive(Clone, Copy, Debug, PartialEq, Eq)]
pub struct Argument {
    /// The number of i, f, h, t, d, c, r and m: its bits, or 0.
    pub word: u64,
    /// The place of the bytes of s, S and b, or of the number.
    pub place: u32,
    /// How many bytes there are.
    pub size: u32,
    /// The tag.
    pub tag: u32,
}
