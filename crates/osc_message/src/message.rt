//! Messages, borrowed from their bytes.
ghost use Rattle.osc_atoms.specs.declared.limits.TheConstants.{MAX_BYTES};
ghost use Rattle.std.specs.Prelude.{◌≡◌, ◌↔◌, ◌≤◌, ℕ, length, IsOk, IfOk, IfErr, Option, List, Err};
ghost use Rattle.std.specs.Prelude.{option_map, is_ok};
ghost use Rattle.osc_atoms.specs.declared.fault.Fault.{Fault};
ghost use Rattle.osc_message.specs.Messages.{IsMessage};
ghost use Rattle.osc_message.specs.Wants.{FirstFault};
ghost use Rattle.osc_message.specs.Reading.{limited_read, is_message, IsReadable};
ghost use Rattle.osc_message.specs.Seen.{seen, KeepsUnknown};
ghost use Rattle.std.specs.Result.{result_map_both, result_err};

use crate::Args;
use crate::parts::{Slices, known_message, read_message};
use osc_atoms::Fault;
use osc_pattern::Pattern;
use std::marker::Model;

/// A message: an address pattern, then nothing, or a type tag string and its arguments (OSC 1.0, "OSC
/// Messages"). A contract sees its bytes.
#[derive(Drop)]
pub struct Message<'a> {
    bytes: &'a [u8],
    slices: Slices<'a>,
}

impl<'a> Model for Message<'a> {
    ghost use Rattle.std.specs.Prelude.{List, ℕ};
    ghost use Rattle.osc_message.specs.Reading.{IsReadable};
    ghost use Rattle.osc_message.specs.Seen.{seen, KeepsUnknown};

    ghost Value = { List ℕ };

    ghost view = { λ m. m.bytes.now };

    ghost invariant = { λ m. IsReadable m.bytes.now (seen m.slices) × KeepsUnknown m.slices };
}

impl<'a> Message<'a> {
    ghost use Rattle.osc_atoms.specs.declared.limits.TheConstants.{MAX_BYTES};
    ghost use Rattle.osc_message.specs.Left.{left};
    ghost use Rattle.std.specs.Prelude.{◌≡◌, ◌↔◌, ◌≤◌, ℕ, length, IsTrue, IsOk, IfOk, IfErr, Some};
    ghost use Rattle.std.specs.Prelude.{Err, IsSome, IfSome, is_ok, option_map};
    ghost use Rattle.std.specs.Result.{result_err};
    ghost use Rattle.osc_atoms.specs.declared.fault.Fault.{Fault};
    ghost use Rattle.osc_message.specs.Messages.{IsMessage};
    ghost use Rattle.osc_message.specs.Wants.{FirstFault};
    ghost use Rattle.osc_message.specs.Reading.{pattern_of, parts_of, is_message, message_fault};
    ghost use Rattle.osc_message.specs.Arguments.{tags_of, unknown_of, message_arguments};

    /// Accepts exactly one message of at most `max` bytes, and borrows it. Else tells its first fault, of the kinds 1
    /// to 4 and 8 to 16; docs/FORMATS.md has the order of the checks. Takes no memory.
    pub fn check(bytes: &'a [u8], max: u32) -> Result<Message<'a>, Fault>
        requires { max ≤ MAX_BYTES }
        ensures ok { IfOk result (λ message. message ≡ bytes.now) }
        ensures exact { IsOk result ↔ IsMessage max bytes.now }
        ensures read { is_ok result ≡ is_message max bytes.now }
        ensures fault { IfErr result (λ fault. FirstFault bytes.now max fault) }
        ensures first { (fault : Fault) → FirstFault bytes.now max fault → result ≡ Err fault }
        ensures fault_read { result_err result ≡ message_fault max bytes.now }
        ensures within { IfErr result (λ fault. fault.at ≤ length bytes.now) }
    {
        let slices = read_limited(bytes, max)?;
        Ok(Message { bytes, slices })
    }

    /// The first fault of the bytes, where they aren't exactly one message of at most `max` bytes, as `check` tells it.
    #[inline(always)]
    pub fn first_fault(bytes: &[u8], max: u32) -> Option<Fault>
        requires { max ≤ MAX_BYTES }
        ensures read { result ≡ message_fault max bytes.now }
        ensures within { IfSome result (λ fault. fault.at ≤ length bytes.now) }
    {
        match read_limited(bytes, max) {
            Ok(_) => None,
            Err(fault) => Some(fault),
        }
    }

    /// The message that the bytes were checked to be. Looks for the ends of the pattern and of the tag string, and at
    /// the tags, and at nothing else.
    #[inline(always)]
    pub fn known(bytes: &'a [u8]) -> Message<'a>
        requires { IsTrue (is_message MAX_BYTES bytes.now) }
        ensures { result ≡ bytes.now }
    {
        Message {
            bytes,
            slices: known_message(bytes),
        }
    }

    /// The whole message.
    pub fn bytes(&self) -> &'a [u8]
        ensures value { result.now ≡ self.now }
        ensures read { IsSome (parts_of self.now) }
        ensures small { length self.now ≤ MAX_BYTES }
        ensures message { IsTrue (is_message MAX_BYTES self.now) }
    {
        self.bytes
    }

    /// The address pattern, without the zero bytes that end it (OSC 1.0, "OSC Address Pattern").
    pub fn pattern(&self) -> Pattern<'a>
        ensures { result ≡ pattern_of self.now }
    {
        Pattern::known(self.slices.pattern)
    }

    /// The type tags without the comma, `None` where there is no tag string.
    pub fn tags(&self) -> Option<&'a [u8]>
        ensures { option_map (λ tags. tags.now) result ≡ tags_of self.now }
    {
        self.slices.tags
    }

    /// The first tag that the standard doesn't have, if there is one.
    pub fn unknown(&self) -> Option<u8>
        ensures { result ≡ unknown_of self.now }
    {
        self.slices.unknown
    }

    /// The arguments, in order. A message with an unknown tag has none that are read.
    pub fn args(&self) -> Args<'a>
        ensures { left result ≡ message_arguments self.now }
    {
        if self.slices.unknown.is_some() {
            return Args::new(&[], self.bytes, self.slices.place);
        }
        let tags = self.slices.tags.unwrap_or(&[]);
        Args::new(tags, self.bytes, self.slices.place)
    }
}

/// The parts of bytes that are a message of at most `max` bytes.
#[inline(always)]
fn read_limited(bytes: &[u8], max: u32) -> Result<Slices<'_>, Fault>
    requires { max ≤ MAX_BYTES }
    ensures read { result_map_both seen (λ fault. fault) result ≡ limited_read max bytes.now }
    ensures readable { IfOk result (λ slices. IsReadable bytes.now (seen slices)) }
    ensures unknown { IfOk result KeepsUnknown }
{
    if bytes.is_empty() {
        return Err(Fault {
            kind: Fault::EMPTY,
            at: 0,
        });
    }
    if bytes.len() > max as usize {
        return Err(Fault {
            kind: Fault::TOO_LONG,
            at: max,
        });
    }
    if bytes.len() % 4 != 0 {
        return Err(Fault {
            kind: Fault::NOT_FOUR,
            at: bytes.len() as u32,
        });
    }
    read_message(bytes)
}
