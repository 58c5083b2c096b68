//! Writing a message.
ghost use Rattle.std.specs.Prelude.{◌≡◌, ◌≢◌, ◌<◌, ◌^◌, nat_lt, if◌then◌else◌, length, IsTrue};
ghost use Rattle.std.specs.Prelude.{Some, None, option_map};
ghost use Rattle.osc_message.specs.ArgumentReading.{word_argument, long_argument, text_argument};
ghost use Rattle.osc_message.specs.ArgumentReading.{bare_argument};
ghost use Rattle.osc_message.specs.Building.{open_refusal};
ghost use Rattle.osc_message.specs.Messages.{content};
ghost use Rattle.osc_message.specs.Shown.{shown};
ghost use Rattle.osc_message.specs.Tags.{is_word_tag, is_long_tag, is_text_tag, is_bare_tag};
ghost use Rattle.osc_c.specs.Building.{bytes_at, argument_of, pattern_answered};
ghost use Rattle.osc_c.specs.Building.{argument_answered, pushed_one, pushed_from, Pushed, Pushes};
ghost use Rattle.osc_c.specs.Building.{Writes, Finishes, WritesText};

use crate::answer::Answer;
use crate::argument::Argument;
use crate::shown::{counted, lacking, numbered, placed, told};
use crate::status;
use osc_atoms::Room;
use osc_message::{Arg, BuildFault, Builder};
use std::alloc::Global;

/// Writes the message with this pattern and these arguments, whose texts and blobs stand among the
/// bytes by their place and size. It takes memory for a while.
#[unsafe(no_mangle)]
pub extern "C" fn osc_message_write(
    pattern: &[u8],
    arguments: &[Argument],
    bytes: &[u8],
    buffer: &mut [u8],
    alloc: Global,
) -> Answer
    ensures answer { result.status ≢ 15 → Writes (open_refusal pattern.now) pattern.now
        arguments.now bytes.now result buffer.old buffer.new }
    ensures no_memory { result.status ≡ 15 → buffer.new ≡ buffer.old }
{
    match Builder::open(alloc, pattern) {
        Ok(mut builder) => write_arguments(&mut builder, arguments, bytes, buffer),
        Err(fault) => pattern_fault_shown(fault),
    }
}

fn write_arguments(
    builder: &mut Builder,
    arguments: &[Argument],
    bytes: &[u8],
    buffer: &mut [u8],
) -> Answer
    ensures answer { result.status ≢ 15 → Pushes (pushed_from bytes.now builder.old 0 arguments.now)
        result buffer.old buffer.new }
    ensures no_memory { result.status ≡ 15 → buffer.new ≡ buffer.old }
{
    match push_all(builder, arguments, bytes) {
        Some(refusal) => refusal,
        None => finish(builder, buffer),
    }
}

/// Pushes the arguments, or tells why the first that isn't pushed is not.
fn push_all(builder: &mut Builder, arguments: &[Argument], bytes: &[u8]) -> Option<Answer>
    ensures { Pushed result (pushed_from bytes.now builder.old 0 arguments.now) builder.new }
{
    let mut at = 0;
    for argument in arguments {
        if let Some(refusal) = push_one(builder, at, argument, bytes) {
            return Some(refusal);
        }
        at += 1;
    }
    None
}

fn push_one(builder: &mut Builder, at: u64, argument: &Argument, bytes: &[u8]) -> Option<Answer>
    ensures { Pushed result (pushed_one bytes.now builder.old at argument.now) builder.new }
{
    let Some(read) = read_argument(argument, bytes) else {
        return Some(placed(status::BAD_ARGUMENT, 1, at));
    };
    match builder.push(read) {
        Ok(()) => None,
        Err(fault) => Some(argument_fault_shown(fault, at)),
    }
}

/// The argument that one of C is, with its bytes among these.
fn read_argument<'a>(argument: &Argument, bytes: &'a [u8]) -> Option<Arg<'a>>
    ensures { option_map shown result ≡ argument_of bytes.now argument.now }
{
    let tag = argument.tag;
    if is_word_tag(tag) {
        read_word(tag, argument.word)
    } else if is_long_tag(tag) {
        Some(long_argument(tag, argument.word))
    } else if is_text_tag(tag) {
        read_text(tag, bytes_at(bytes, argument.place, argument.size))
    } else if tag == 98 {
        read_blob(bytes_at(bytes, argument.place, argument.size))
    } else if is_bare_tag(tag) {
        Some(bare_argument(tag))
    } else {
        None
    }
}

/// So many bytes at a place, if there are as many.
fn bytes_at(bytes: &[u8], place: u32, size: u32) -> Option<&[u8]>
    ensures { option_map (λ found. found.now) result ≡ bytes_at bytes.now place size }
{
    let place = place as usize;
    bytes.get(place..place + size as usize)
}

fn is_word_tag(tag: u32) -> bool
    ensures { result ≡ is_word_tag tag }
{
    tag == 105 || tag == 102 || tag == 99 || tag == 114 || tag == 109
}

fn is_long_tag(tag: u32) -> bool
    ensures { result ≡ is_long_tag tag }
{
    tag == 104 || tag == 116 || tag == 100
}

fn is_text_tag(tag: u32) -> bool
    ensures { result ≡ is_text_tag tag }
{
    tag == 115 || tag == 83
}

fn is_bare_tag(tag: u32) -> bool
    ensures { result ≡ is_bare_tag tag }
{
    tag == 84 || tag == 70 || tag == 78 || tag == 73 || tag == 91 || tag == 93
}

fn read_word<'a>(tag: u32, word: u64) -> Option<Arg<'a>>
    requires { IsTrue (is_word_tag tag) }
    ensures { option_map shown result
        ≡ if nat_lt word (2 ^ 32) then Some (word_argument tag word) else None }
{
    if word < 1 << 32 {
        Some(word_argument(tag, word as u32))
    } else {
        None
    }
}

fn word_argument<'a>(tag: u32, word: u32) -> Arg<'a>
    requires { IsTrue (is_word_tag tag) }
    ensures { shown result ≡ word_argument tag word }
{
    match tag {
        105 => Arg::Int(word.cast_signed()),
        102 => Arg::Float(word),
        99 => Arg::Char(word),
        114 => Arg::Rgba(word),
        109 => Arg::Midi(word),
        _ => unreachable!(),
    }
}

fn long_argument<'a>(tag: u32, word: u64) -> Arg<'a>
    requires { IsTrue (is_long_tag tag) }
    ensures { shown result ≡ long_argument tag word }
{
    match tag {
        104 => Arg::Long(word.cast_signed()),
        116 => Arg::Time(word),
        100 => Arg::Double(word),
        _ => unreachable!(),
    }
}

fn read_text<'a>(tag: u32, text: Option<&'a [u8]>) -> Option<Arg<'a>>
    requires { IsTrue (is_text_tag tag) }
    ensures { option_map shown result
        ≡ option_map (text_argument tag) (option_map (λ found. found.now) text.entry) }
{
    match text {
        Some(text) => Some(text_argument(tag, text)),
        None => None,
    }
}

fn text_argument(tag: u32, text: &[u8]) -> Arg<'_>
    requires { IsTrue (is_text_tag tag) }
    ensures { shown result ≡ text_argument tag text.now }
{
    match tag {
        115 => Arg::Str(text),
        83 => Arg::Symbol(text),
        _ => unreachable!(),
    }
}

fn read_blob(blob: Option<&[u8]>) -> Option<Arg<'_>>
    ensures { option_map shown result
        ≡ option_map (λ bytes. content bytes) (option_map (λ found. found.now) blob.entry) }
{
    match blob {
        Some(blob) => Some(Arg::Blob(blob)),
        None => None,
    }
}

fn bare_argument<'a>(tag: u32) -> Arg<'a>
    ensures { shown result ≡ bare_argument tag }
{
    match tag {
        84 => Arg::True,
        70 => Arg::False,
        78 => Arg::Nil,
        73 => Arg::Infinitum,
        91 => Arg::ArrayStart,
        _ => Arg::ArrayEnd,
    }
}

/// Writes the finished message, where there is room.
fn finish(builder: &Builder, buffer: &mut [u8]) -> Answer
    ensures answer { result.status ≢ 15 → Finishes builder.now result buffer.old buffer.new }
    ensures no_memory { result.status ≡ 15 → buffer.new ≡ buffer.old }
{
    match builder.finish() {
        Ok(message) => write_text(message.as_slice(), buffer),
        Err(BuildFault::Brackets) => told(status::BRACKETS),
        Err(_) => told(status::NO_MEMORY),
    }
}

/// Writes bytes at the beginning of the buffer, where there is room.
fn write_text(text: &[u8], buffer: &mut [u8]) -> Answer
    requires { length text.now < 2 ^ 32 }
    ensures { WritesText text.now result buffer.old buffer.new }
{
    if buffer.len() < text.len() {
        return lacking(
            status::BUFFER_SMALL,
            Room {
                need: text.len() as u64,
                free: buffer.len() as u64,
            },
        );
    }
    buffer[..text.len()].copy_from_slice(text);
    counted(text.len() as u32)
}

fn pattern_fault_shown(fault: BuildFault) -> Answer
    ensures { result ≡ pattern_answered fault }
{
    match fault {
        BuildFault::Pattern(fault) => placed(
            status::BAD_PATTERN,
            u32::from(fault.kind),
            u64::from(fault.at),
        ),
        BuildFault::HasNull { at } => placed(status::BAD_PATTERN, 10, u64::from(at)),
        BuildFault::TooLong => told(status::TOO_LONG),
        BuildFault::Brackets => told(status::BRACKETS),
        BuildFault::NoMemory => told(status::NO_MEMORY),
    }
}

fn argument_fault_shown(fault: BuildFault, at: u64) -> Answer
    ensures { result ≡ argument_answered at fault }
{
    match fault {
        BuildFault::Pattern(fault) => placed(
            status::BAD_PATTERN,
            u32::from(fault.kind),
            u64::from(fault.at),
        ),
        BuildFault::HasNull { .. } => placed(status::BAD_ARGUMENT, 2, at),
        BuildFault::TooLong => placed(status::TOO_LONG, 0, at),
        BuildFault::Brackets => told(status::BRACKETS),
        BuildFault::NoMemory => told(status::NO_MEMORY),
    }
}
