// What is told of wrong lines.
ghost use Rattle.std.specs.Prelude.{◌≡◌, ◌++◌, ◌∷◌, ◌+◌, ◌%◌, ◌-◌, OnOk, map, replicate, take};
ghost use Rattle.std.specs.Prelude.{position, codes, pos, ◌+ℤ◌, unsigned_abs, [], ◌<◌, ◌^◌};
ghost use Rattle.std.specs.List.{list_any};
ghost use Rattle.std.specs.Fmt.{decimal};
ghost use Rattle.osc_cues.specs.Words.{is_blank, begins_char};
ghost use Rattle.osc_cues.specs.Texts;
ghost use Rattle.osc_cues.specs.Texts.{day_time, clock_text, cited, detail, no_method};
ghost use Rattle.osc_cues.specs.Texts.{plain_message, message_text, guess_text, meant_text};
ghost use Rattle.std.specs.Prelude.{option_map};

use crate::fault::Fault;
use crate::guess::nearest;
use crate::scan::front;
use itoa::Buffer;
use jiff_core::Offset;
use osc_pattern::Address;
use std::alloc::{AllocError, Global};

/// What is cited of a line.
#[derive(Clone, Copy)]
pub(crate) enum Cite {
    Nothing,
    /// The rest of the word.
    Rest,
    /// The first ten bytes of that.
    Ten,
    /// Its first character.
    Char,
    /// The first character of the word, two bytes before.
    Letter,
    /// The rest, with points in place of commas.
    Pointed,
}

#[tactic(auto, unfolding(crate::specs::Texts::before))]
fn before(fault: Fault) -> &'static [u8]
    ensures { result.now ≡ Texts.before fault }
{
    match fault {
        Fault::TempoForm => b"a tempo is written as in: tempo 96 in 4 from 20:00:00",
        Fault::NoAddress => b"an address is missing: it begins with a slash",
        Fault::EmptyName => b"a slash has no name after it",
        Fault::AddressByte => b"an address has no ",
        Fault::LeadingZero => b"a whole number has no zero before it",
        Fault::OpenText => b"the text isn't closed by a double quote",
        Fault::InnerQuote => b"a double quote within a text is written \\\"",
        Fault::QuotedEscape => b"after a backslash stands \", \\ or x and two hexadecimal digits",
        Fault::PlainEscape => b"after a backslash stands x and two hexadecimal digits",
        Fault::PlainByte => b"such a character stands in double quotes",
        Fault::ZeroByte => b"a text holds no zero byte",
        Fault::NotBlob => b"a blob is two hexadecimal digits for each byte",
        Fault::NotSixteen => b"t: has 16 hexadecimal digits",
        Fault::NotCharacter => b"c: has one character, or 8 hexadecimal digits",
        Fault::Comma => b"a number has a point and no comma: ",
        Fault::OpenBracket => b"[ is never closed",
        Fault::CloseBracket => b"] closes no bracket",
        Fault::LargeMoment => b"the cues of this moment are more than the 65,504 bytes of a packet",
        _ => b"",
    }
}

#[tactic(auto, unfolding(crate::specs::Texts::after))]
fn after(fault: Fault) -> &'static [u8]
    ensures { result.now ≡ Texts.after fault }
{
    match fault {
        Fault::NotMoment => b" is no moment: a moment is 20:00:00, +0.625, 1|1 or now",
        Fault::NotTime => b" is no time of day: the last is 23:59:59",
        Fault::ZoneAlone => b" has a zone and no date: write 2026-11-29T",
        Fault::NotDay => b" is no day of the calendar",
        Fault::EarlyDay => b" is before 1900-01-01T00:00:00Z, where time tags begin",
        Fault::PastTags => b" is past 2036-02-07T06:28:15Z, where time tags end",
        Fault::BeforeLine(_) => b" is before the line before, which is at ",
        Fault::Gone(_) => b" has gone by: it is ",
        Fault::NoTempo =>
            b" is a bar and a beat, and no line `tempo 96 in 4 from 20:00:00` stands before it",
        Fault::NotBeat(_) => b" is no beat: bars count from 1, and the beats of a bar from 1 to ",
        Fault::NotTempo => b" is no tempo: it is a number of beats a minute, as 96 or 112.5",
        Fault::NotMeter => b" is no number of beats in a bar",
        Fault::NotAddress => b" is no address: an address begins with a slash",
        Fault::OpenGroup => b" isn't closed before the next slash",
        Fault::NotNumber => b" is no number: a number is 7, -7, 0.75 or 1e-3",
        Fault::LongInt => b" is more than 32 bits: h:",
        Fault::TooLong => b" is more than 64 bits",
        Fault::LargeFloat => b" is too large for a float; d:",
        Fault::LargeDouble => b" is too large for a double",
        Fault::NotArgument => b" is no argument: a text stands in double quotes, \"",
        Fault::NotText => b" is no text: a text stands in double quotes",
        Fault::NotWhole => b" is no whole number",
        Fault::NotEight => b": has 8 hexadecimal digits",
        Fault::NoType => b": is no type: the types are i h f d s S b c r m t",
        _ => b"",
    }
}

#[tactic(auto, unfolding(crate::specs::Texts::end))]
fn end(fault: Fault) -> &'static [u8]
    ensures { result.now ≡ Texts.end fault }
{
    match fault {
        Fault::Gone(_) => b"; --skip leaves out what has gone by",
        Fault::LongInt => b" has 64",
        Fault::LargeFloat => b" is a double",
        Fault::NotArgument => b"\"",
        _ => b"",
    }
}

fn cite_of(fault: Fault) -> Cite
    ensures { result ≡ Texts.cite_of fault }
{
    match fault {
        Fault::NotDay => Cite::Ten,
        Fault::TempoForm => Cite::Nothing,
        Fault::NoAddress => Cite::Nothing,
        Fault::EmptyName => Cite::Nothing,
        Fault::AddressByte => Cite::Char,
        Fault::OpenGroup => Cite::Char,
        Fault::LeadingZero => Cite::Nothing,
        Fault::OpenText => Cite::Nothing,
        Fault::InnerQuote => Cite::Nothing,
        Fault::QuotedEscape => Cite::Nothing,
        Fault::PlainEscape => Cite::Nothing,
        Fault::PlainByte => Cite::Nothing,
        Fault::ZeroByte => Cite::Nothing,
        Fault::NotBlob => Cite::Nothing,
        Fault::NotEight => Cite::Letter,
        Fault::NotSixteen => Cite::Nothing,
        Fault::NotCharacter => Cite::Nothing,
        Fault::NoType => Cite::Char,
        Fault::Comma => Cite::Pointed,
        Fault::OpenBracket => Cite::Nothing,
        Fault::CloseBracket => Cite::Nothing,
        Fault::LargeMoment => Cite::Nothing,
        _ => Cite::Rest,
    }
}

/// Adds the bytes.
fn add(out: &mut Vec<u8>, bytes: &[u8]) -> Result<(), AllocError>
    ensures { OnOk result (out.new.items ≡ out.old.items ++ bytes.now) }
{
    out.extend_from_slice(bytes)
}

fn add_byte(out: &mut Vec<u8>, byte: u8) -> Result<(), AllocError>
    ensures { OnOk result (out.new.items ≡ out.old.items ++ byte ∷ []) }
{
    out.push(byte)?;
    Ok(())
}

/// Adds a number in decimal.
fn add_number(out: &mut Vec<u8>, number: u64) -> Result<(), AllocError>
    ensures { OnOk result (out.new.items ≡ out.old.items ++ decimal number) }
{
    add(out, Buffer::new().format(number).as_bytes())
}

/// The last digit.
fn digit(number: u64) -> u8
    ensures { result ≡ 48 + number % 10 }
{
    b'0' + (number % 10) as u8
}

#[tactic(auto, unfolding(crate::specs::Texts::two))]
fn add_two(out: &mut Vec<u8>, number: u64) -> Result<(), AllocError>
    ensures { OnOk result (out.new.items ≡ out.old.items ++ Texts.two number) }
{
    add(out, &[digit(number / 10), digit(number)])
}

#[tactic(auto, unfolding(crate::specs::Texts::three))]
fn add_three(out: &mut Vec<u8>, number: u64) -> Result<(), AllocError>
    ensures { OnOk result (out.new.items ≡ out.old.items ++ Texts.three number) }
{
    add(
        out,
        &[digit(number / 100), digit(number / 10), digit(number)],
    )
}

/// How far a clock is ahead, in seconds, and two days more, so that it is no negative number.
fn ahead_of(offset: Offset) -> u32
    ensures value { result ≡ unsigned_abs (offset.seconds +ℤ pos 172_800) }
    ensures small { result < 2 ^ 20 }
{
    (offset.seconds + 172_800).unsigned_abs()
}

#[tactic(auto, unfolding(crate::specs::Texts::millis_of))]
fn millis_of(offset: Offset, tag: u64) -> u64
    ensures { result ≡ Texts.millis_of offset.seconds tag }
{
    let millis = (u128::from(tag) * 1000 + 0x8000_0000) / 0x1_0000_0000;
    millis as u64 + u64::from(ahead_of(offset)) * 1000
}

fn add_clock(out: &mut Vec<u8>, seconds: u64) -> Result<(), AllocError>
    ensures { OnOk result (out.new.items ≡ out.old.items ++ clock_text seconds) }
{
    add_two(out, seconds / 3600 % 24)?;
    add(out, b":")?;
    add_two(out, seconds / 60 % 60)?;
    add(out, b":")?;
    add_two(out, seconds % 60)
}

fn add_day_time(out: &mut Vec<u8>, millis: u64) -> Result<(), AllocError>
    ensures { OnOk result (out.new.items ≡ out.old.items ++ day_time millis) }
{
    add_clock(out, millis / 1000)?;
    add(out, b".")?;
    add_three(out, millis)
}

fn shown(byte: u8) -> u8
    ensures { result ≡ Texts.shown byte }
{
    if byte == b'\t' {
        return b' ';
    }
    if byte.is_ascii_control() { b'?' } else { byte }
}

fn pointed(byte: u8) -> u8
    ensures { result ≡ Texts.pointed byte }
{
    if byte == b',' { b'.' } else { shown(byte) }
}

/// Adds bytes with a space in place of each tab, and a question mark in place of any other
/// control character.
fn add_shown(out: &mut Vec<u8>, bytes: &[u8]) -> Result<(), AllocError>
    ensures { OnOk result (out.new.items ≡ out.old.items ++ map Texts.shown bytes.now) }
{
    for byte in bytes {
        add_byte(out, shown(*byte))?;
    }
    Ok(())
}

/// The same, and a point in place of each comma.
fn add_pointed(out: &mut Vec<u8>, bytes: &[u8]) -> Result<(), AllocError>
    ensures { OnOk result (out.new.items ≡ out.old.items ++ map Texts.pointed bytes.now) }
{
    for byte in bytes {
        add_byte(out, pointed(*byte))?;
    }
    Ok(())
}

/// What a line has from a place on.
fn back(line: &[u8], at: usize) -> &[u8]
    ensures { result.now ≡ Texts.back line.now at }
{
    &line[at.min(line.len())..]
}

fn first_blank(text: &[u8]) -> Option<usize>
    ensures { result ≡ position is_blank text.now }
{
    text.iter().position(|byte| *byte == b' ' || *byte == b'\t')
}

fn first_char(text: &[u8]) -> Option<usize>
    ensures { result ≡ position begins_char text.now }
{
    text.iter().position(|byte| *byte < 128 || 192 <= *byte)
}

/// The rest of a word from a place on.
fn word_from(line: &[u8], at: usize) -> &[u8]
    ensures { result.now ≡ Texts.word_from line.now at }
{
    let rest = back(line, at);
    match first_blank(rest) {
        Some(place) => &rest[..place],
        None => rest,
    }
}

/// Adds the first character of a text.
fn add_char(out: &mut Vec<u8>, text: &[u8]) -> Result<(), AllocError>
    ensures { OnOk result
        (out.new.items ≡ out.old.items ++ map Texts.shown (Texts.char_of text.now)) }
{
    match text {
        [] => Ok(()),
        [first, others @ ..] => {
            add_byte(out, shown(*first))?;
            match first_char(others) {
                Some(place) => add_shown(out, &others[..place]),
                None => add_shown(out, others),
            }
        }
    }
}

/// Adds what is cited of a line whose fault is at this place.
fn add_cited(out: &mut Vec<u8>, cite: Cite, line: &[u8], at: usize) -> Result<(), AllocError>
    ensures { OnOk result (out.new.items ≡ out.old.items ++ cited cite line.now at) }
{
    match cite {
        Cite::Nothing => Ok(()),
        Cite::Rest => add_shown(out, word_from(line, at)),
        Cite::Ten => add_shown(out, front(word_from(line, at), 10)),
        Cite::Char => add_char(out, word_from(line, at)),
        Cite::Letter => add_char(out, word_from(line, at.saturating_sub(2))),
        Cite::Pointed => add_pointed(out, word_from(line, at)),
    }
}

/// Adds a time, a number, or the word again.
fn add_detail(
    out: &mut Vec<u8>,
    offset: Offset,
    fault: Fault,
    line: &[u8],
    at: usize,
) -> Result<(), AllocError>
    ensures { OnOk result
        (out.new.items ≡ out.old.items ++ detail offset.seconds fault line.now at) }
{
    match fault {
        Fault::BeforeLine(tag) => add_day_time(out, millis_of(offset, tag)),
        Fault::Gone(tag) => add_day_time(out, millis_of(offset, tag)),
        Fault::NotBeat(meter) => add_number(out, u64::from(meter)),
        Fault::ZoneAlone => add_shown(out, word_from(line, at)),
        Fault::LongInt => add_shown(out, word_from(line, at)),
        Fault::LargeFloat => add_shown(out, word_from(line, at)),
        Fault::NotArgument => add_shown(out, word_from(line, at)),
        _ => Ok(()),
    }
}

/// Whether a word has a byte that only a pattern has.
fn is_pattern(word: &[u8]) -> bool
    ensures { result ≡ list_any Texts.is_pattern_byte word.now }
{
    word.iter().any(|byte| b"?*[]{}".contains(byte))
}

/// Adds a name that may have been meant.
fn add_meant(out: &mut Vec<u8>, name: &[u8]) -> Result<(), AllocError>
    ensures { OnOk result (out.new.items ≡ out.old.items ++ meant_text name.now) }
{
    add(out, b"; did you mean ")?;
    add(out, name)?;
    add(out, b"?")
}

/// Adds the name that may have been meant, if there is one.
fn add_guess(out: &mut Vec<u8>, guess: Option<&[u8]>) -> Result<(), AllocError>
    ensures { OnOk result (out.new.items
        ≡ out.old.items ++ guess_text (option_map (λ name. name.now) guess.entry)) }
{
    match guess {
        None => Ok(()),
        Some(name) => add_meant(out, name),
    }
}

/// Adds what is told of an address that none of these methods answers.
#[tactic(auto, using(crate::proofs::Rows::three))]
fn add_no_method(out: &mut Vec<u8>, methods: &[Address], word: &[u8]) -> Result<(), AllocError>
    ensures { OnOk result (out.new.items ≡ out.old.items ++ no_method methods.now word.now) }
{
    if is_pattern(word) {
        add(out, b"the patch has no method that ")?;
        add_shown(out, word)?;
        return add(out, b" matches");
    }
    let alloc: Global = *out.allocator();
    let guess = nearest(alloc, word, methods)?;
    add(out, b"the patch has no method ")?;
    add_shown(out, word)?;
    add_guess(out, guess)
}

#[tactic(auto, using(crate::proofs::Rows::five))]
fn add_plain(
    out: &mut Vec<u8>,
    offset: Offset,
    fault: Fault,
    line: &[u8],
    at: usize,
) -> Result<(), AllocError>
    ensures { OnOk result
        (out.new.items ≡ out.old.items ++ plain_message offset.seconds fault line.now at) }
{
    add(out, before(fault))?;
    add_cited(out, cite_of(fault), line, at)?;
    add(out, after(fault))?;
    add_detail(out, offset, fault, line, at)?;
    add(out, end(fault))
}

/// Adds what is wrong with a line.
pub(crate) fn add_message(
    out: &mut Vec<u8>,
    offset: Offset,
    methods: &[Address],
    fault: Fault,
    line: &[u8],
    at: usize,
) -> Result<(), AllocError>
    ensures { OnOk result (out.new.items
        ≡ out.old.items ++ message_text offset.seconds methods.now fault line.now at) }
{
    match fault {
        Fault::NoMethod => add_no_method(out, methods, word_from(line, at)),
        _ => add_plain(out, offset, fault, line, at),
    }
}

/// Adds the place of a fault.
#[tactic(auto, using(crate::proofs::Rows::five))]
pub(crate) fn add_heading(out: &mut Vec<u8>, line: u32, column: usize) -> Result<(), AllocError>
    ensures { OnOk result (out.new.items ≡ out.old.items ++ Texts.heading line column) }
{
    add(out, b"line ")?;
    add_number(out, u64::from(line))?;
    add(out, b", column ")?;
    add_number(out, column as u64)?;
    add(out, b": ")
}

/// Adds a line by itself, and the spaces that begin the next.
#[tactic(auto, using(crate::proofs::Rows::three))]
pub(crate) fn add_line(out: &mut Vec<u8>, line: &[u8]) -> Result<(), AllocError>
    ensures { OnOk result (out.new.items ≡ out.old.items ++ Texts.line_text line.now) }
{
    add(out, b"\n    ")?;
    add_shown(out, line)?;
    add(out, b"\n    ")
}

/// Adds a caret at a column, and the end of its line.
pub(crate) fn add_caret(out: &mut Vec<u8>, column: usize) -> Result<(), AllocError>
    ensures { OnOk result (out.new.items ≡ out.old.items ++ Texts.caret column) }
{
    let alloc: Global = *out.allocator();
    let spaces = vec![in alloc; b' '; column.saturating_sub(1)]?;
    add(out, &spaces)?;
    add(out, b"^\n")
}
