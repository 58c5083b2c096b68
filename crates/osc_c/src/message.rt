//! Reading a message.
ghost use Rattle.osc_atoms.specs.declared.limits.TheConstants.{MAX_PACKET};
ghost use Rattle.std.specs.Prelude.{◌≡◌, ◌+◌, ◌≤◌, ◌<◌, ◌^◌, length, option_map};
ghost use Rattle.std.specs.List.{flat_map};
ghost use Rattle.osc_atoms.specs.Atoms.{string};
ghost use Rattle.osc_message.specs.Messages.{atom_of, tag_string};
ghost use Rattle.osc_message.specs.Left.{left};
ghost use Rattle.osc_message.specs.Arguments.{message_arguments};
ghost use Rattle.osc_message.specs.Reading.{message_fault};
ghost use Rattle.osc_message.specs.Shown.{shown};
ghost use Rattle.osc_c.specs.Arguments.{argument_at, arguments_at, first_place, written_over};
ghost use Rattle.osc_c.specs.Arguments.{ReadsMessage, put_at, tags_size};

use crate::answer::Answer;
use crate::argument::Argument;
use crate::shown::{counted, fault_shown};
use osc_atoms::string_size;
use osc_message::{Arg, Args, Message, argument_size};
use osc_packet::MAX_PACKET;

/// Reads the arguments of the message that the bytes are, as far as there is room: tells how many
/// there are, or the first fault.
#[unsafe(no_mangle)]
pub extern "C" fn osc_message_read(bytes: &[u8], arguments: &mut [Argument]) -> Answer
    ensures { ReadsMessage (message_fault MAX_PACKET bytes.now) bytes.now result arguments.old
        arguments.new }
{
    osc_message::laws::written_is_read_again();
    match Message::check(bytes, MAX_PACKET) {
        Ok(message) => counted(fill(message.args(), first_place(&message), arguments)),
        Err(fault) => fault_shown(fault),
    }
}

/// The place of the first argument's bytes.
fn first_place(message: &Message<'_>) -> usize
    requires { first_place message.now ≤ MAX_PACKET }
    ensures { result ≡ first_place message.now }
{
    pattern_size(message.pattern().bytes()) + tags_size(message.tags())
}

/// How many bytes the string of a pattern has.
fn pattern_size(pattern: &[u8]) -> usize
    requires { length pattern.now ≤ MAX_PACKET }
    ensures { result ≡ length (string pattern.now) }
{
    string_size(pattern.len())
}

/// How many bytes the tag string has, if there is one.
fn tags_size(tags: Option<&[u8]>) -> usize
    requires { tags_size (option_map (λ tags. tags.now) tags) ≤ MAX_PACKET }
    ensures { result ≡ tags_size (option_map (λ tags. tags.now) tags.entry) }
{
    match tags {
        Some(tags) => tag_string_size(tags),
        None => 0,
    }
}

fn tag_string_size(tags: &[u8]) -> usize
    requires { length (tag_string tags.now) ≤ MAX_PACKET }
    ensures { result ≡ length (tag_string tags.now) }
{
    string_size(1 + tags.len())
}

/// Writes the arguments whose bytes begin at the place, as far as there is room, and counts them
/// all.
fn fill(args: Args<'_>, place: usize, arguments: &mut [Argument]) -> u32
    requires inside { place + length (flat_map atom_of (left args)) ≤ MAX_PACKET }
    requires few { length (left args) ≤ MAX_PACKET }
    ensures count { result ≡ length (left args.entry) }
    ensures arguments { arguments.new
        ≡ written_over arguments.old (arguments_at place (left args.entry)) }
{
    let mut place = place;
    let mut count = 0;
    for argument in args {
        put_at(arguments, count, told(argument, place as u32));
        place += argument_size(argument);
        count += 1;
    }
    count as u32
}

/// Writes the argument at the place of the list, if there is room.
fn put_at(arguments: &mut [Argument], at: usize, argument: Argument)
    ensures { arguments.new ≡ put_at arguments.old at argument }
{
    if at < arguments.len() {
        arguments[at] = argument;
    }
}

/// The argument whose bytes begin at the place.
fn told(argument: Arg<'_>, place: u32) -> Argument
    requires { place + length (atom_of (shown argument)) ≤ MAX_PACKET }
    ensures { result ≡ argument_at place (shown argument.entry) }
{
    match argument {
        Arg::Int(number) => number_at(b'i', u64::from(number.cast_unsigned()), place, 4),
        Arg::Float(bits) => number_at(b'f', u64::from(bits), place, 4),
        Arg::Str(text) => bytes_at(b's', place, text.len()),
        Arg::Blob(blob) => bytes_at(b'b', place + 4, blob.len()),
        Arg::Long(number) => number_at(b'h', number.cast_unsigned(), place, 8),
        Arg::Time(tag) => number_at(b't', tag, place, 8),
        Arg::Double(bits) => number_at(b'd', bits, place, 8),
        Arg::Symbol(text) => bytes_at(b'S', place, text.len()),
        Arg::Char(bits) => number_at(b'c', u64::from(bits), place, 4),
        Arg::Rgba(bits) => number_at(b'r', u64::from(bits), place, 4),
        Arg::Midi(bits) => number_at(b'm', u64::from(bits), place, 4),
        Arg::True => bytes_at(b'T', place, 0),
        Arg::False => bytes_at(b'F', place, 0),
        Arg::Nil => bytes_at(b'N', place, 0),
        Arg::Infinitum => bytes_at(b'I', place, 0),
        Arg::ArrayStart => bytes_at(b'[', place, 0),
        Arg::ArrayEnd => bytes_at(b']', place, 0),
    }
}

/// A number of so many bytes at the place.
fn number_at(tag: u8, word: u64, place: u32, size: u32) -> Argument
    ensures { result ≡ record { word = word; place = place; size = size; tag = tag } }
{
    Argument {
        word,
        place,
        size,
        tag: u32::from(tag),
    }
}

/// So many bytes at the place.
fn bytes_at(tag: u8, place: u32, size: usize) -> Argument
    requires { size < 2 ^ 32 }
    ensures { result ≡ record { word = 0; place = place; size = size; tag = tag } }
{
    number_at(tag, 0, place, size as u32)
}
