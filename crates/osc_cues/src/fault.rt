//! Why a word or a line isn't read.
use std::alloc::AllocError;

/// What is wrong with a line.
#[derive(Clone, Copy, PartialEq)]
pub enum Fault {
    /// A word that is neither a number nor any other argument.
    NotArgument,
    /// A word begins as a number does, and isn't one.
    NotNumber,
    /// A number has a comma in place of its point.
    Comma,
    /// What should be a whole number isn't one.
    NotWhole,
    /// A whole number begins with a zero that isn't all of it.
    LeadingZero,
    /// A whole number has more than 32 bits, and at most 64.
    LongInt,
    /// A whole number has more than 64 bits.
    TooLong,
    /// A number is too large for 32 bits.
    LargeFloat,
    /// A number is too large for 64 bits.
    LargeDouble,
    /// Something stands after the quote that closes a text, or nothing is between two quotes that
    /// are one.
    NotText,
    /// A double quote stands within a text.
    InnerQuote,
    /// What stands after a backslash within quotes is none of `"`, `\` and `x` with two digits.
    QuotedEscape,
    /// What stands after a backslash is no `x` with two digits.
    PlainEscape,
    /// A byte stands in a text that stands only within quotes.
    PlainByte,
    /// A text has a zero byte.
    ZeroByte,
    /// A blob isn't two hexadecimal digits for each byte.
    NotBlob,
    /// A character is neither one from `!` to `~` nor 8 hexadecimal digits.
    NotCharacter,
    /// A colour or a MIDI message isn't 8 hexadecimal digits.
    NotEight,
    /// A time tag isn't 16 hexadecimal digits.
    NotSixteen,
    /// No type has this letter.
    NoType,
    /// A word isn't in the form of a moment.
    NotMoment,
    /// An hour is above 23, a minute or a second above 59.
    NotTime,
    /// A time has a zone and no date.
    ZoneAlone,
    /// The calendar has no such day.
    NotDay,
    /// A moment is before 1900, where time tags begin.
    EarlyDay,
    /// A moment is past 2036-02-07T06:28:15Z, where time tags end.
    PastTags,
    /// No line before says how bars and beats are counted.
    NoTempo,
    /// There is no bar 0, and a bar has only so many beats, from 1.
    NotBeat(u32),
    /// A moment is before that of the line before, whose time tag this is.
    BeforeLine(u64),
    /// A moment has gone by: the time tag of now.
    Gone(u64),
    /// The cues of one moment are more than a packet may have.
    LargeMoment,
    /// A line that begins with `tempo` isn't written as `tempo 96 in 4 from 20:00:00`.
    TempoForm,
    /// A tempo is no number of beats a minute.
    NotTempo,
    /// A bar has no such number of beats, from 1 to 99.
    NotMeter,
    /// A line ends before its address.
    NoAddress,
    /// An address doesn't begin with a slash.
    NotAddress,
    /// No address has this byte.
    AddressByte,
    /// A slash has no name after it.
    EmptyName,
    /// A `[` or `{` isn't closed before the next slash.
    OpenGroup,
    /// No method of the patch answers the address.
    NoMethod,
    /// A text isn't closed by a double quote.
    OpenText,
    /// `[` is never closed.
    OpenBracket,
    /// `]` closes no bracket.
    CloseBracket,
}

/// What is wrong with a word, and where in it.
#[derive(Clone, Copy)]
pub struct WordFault {
    /// The place of the byte, counted from the word's first.
    pub at: usize,
    pub fault: Fault,
}

/// Why a word isn't read.
#[derive(Clone, Copy)]
pub enum WordError {
    NoMemory,
    Wrong(WordFault),
}

impl From<AllocError> for WordError {
    ghost use Rattle.std.specs.Prelude.{◌≡◌};
    ghost use Rattle.osc_cues.specs.declared.fault.WordError.TheVariants.{NoMemory};

    ghost from_gives = { λ _ r. r ≡ NoMemory };

    fn from(_error: AllocError) -> WordError {
        WordError::NoMemory
    }
}
