//! The arguments that a message can have.

/// An argument, or an array bracket (OSC 1.0, "OSC Type Tag String"). The floats stay the words that they are sent as.
#[derive(Clone, Copy, Debug, PartialEq, Eq)]
pub enum Arg<'a> {
    /// The tag `i`: an int32.
    Int(i32),
    /// The tag `f`: the bits of a float32.
    Float(u32),
    /// The tag `s`: the bytes of a string.
    Str(&'a [u8]),
    /// The tag `b`: the bytes of a blob.
    Blob(&'a [u8]),
    /// The tag `h`: an int64.
    Long(i64),
    /// The tag `t`: a time tag.
    Time(u64),
    /// The tag `d`: the bits of a float64.
    Double(u64),
    /// The tag `S`: the bytes of an alternate string.
    Symbol(&'a [u8]),
    /// The tag `c`: a character, in four bytes.
    Char(u32),
    /// The tag `r`: a colour, in four bytes.
    Rgba(u32),
    /// The tag `m`: a MIDI message, in four bytes.
    Midi(u32),
    /// The tag `T`.
    True,
    /// The tag `F`.
    False,
    /// The tag `N`.
    Nil,
    /// The tag `I`.
    Infinitum,
    /// The tag `[`, which begins an array.
    ArrayStart,
    /// The tag `]`, which ends an array.
    ArrayEnd,
}
