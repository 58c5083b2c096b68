// Messages after their size, read from borrowed bytes.
ghost use Rattle.osc_model.specs.Limits.{max_recording};
ghost use Rattle.std.specs.Prelude.{◌≡◌, ◌+◌, ◌-◌, ◌%◌, ◌<◌, ◌≤◌, length, drop, option_map, IfSome};
ghost use Rattle.osc_record.specs.Versions.{header_size_of};
ghost use Rattle.osc_record.specs.Reading.{message_first, entry_first, entries_at, outcome};
ghost use Rattle.osc_record.specs.Shown.{parts_of, HasWholeHits};

use crate::entry_messages::read_message;
use crate::limits::{HEADER_SIZE, OLD_HEADER_SIZE};
use crate::parts::Parts;
use crate::version::Version;

/// The message after the size that the bytes begin with.
#[inline(always)]
pub(crate) fn first_message(bytes: &[u8]) -> Option<&[u8]>
    ensures value { option_map (λ message. message.now) result ≡ message_first bytes.now }
    ensures within { IfSome result (λ message. 4 + length message.now ≤ length bytes.now) }
    ensures fours { IfSome result (λ message. length message.now % 4 ≡ 0) }
{
    if bytes.len() < 4 {
        return None;
    }
    let size = u32::from_be_bytes([bytes[0], bytes[1], bytes[2], bytes[3]]) as usize;
    let rest = &bytes[4..];
    if size == 0 || size % 4 != 0 || size > rest.len() {
        return None;
    }
    Some(&rest[..size])
}

/// The entry that the bytes begin with, and its size.
#[inline(always)]
pub(crate) fn first_entry(
    version: Version,
    limit: u32,
    place: u32,
    bytes: &[u8],
) -> Option<(Parts<'_>, u32)>
    requires small { place + length bytes.now ≤ max_recording }
    ensures value { option_map (λ x. (parts_of x.0, x.1)) result
        ≡ entry_first version limit place bytes.now }
    ensures within { IfSome result (λ x. (x.1 ≤ length bytes.now) × (4 ≤ x.1)) }
    ensures whole { IfSome result (λ x. HasWholeHits x.0.answer) }
{
    let message = first_message(bytes)?;
    let size = 4 + message.len() as u32;
    if place + size > limit {
        return None;
    }
    let parts = read_message(version, message)?;
    Some((parts, size))
}

/// How many bytes the header has.
pub(crate) fn header_size(version: Version) -> u32
    ensures value { result ≡ header_size_of version }
    ensures small { result ≤ 60 }
{
    match version {
        Version::First => OLD_HEADER_SIZE,
        Version::Second => HEADER_SIZE,
    }
}

/// Whether entries stand one after another to the end, or the place of the first that doesn't read.
pub(crate) fn check_entries(version: Version, bytes: &[u8], limit: u32) -> Result<(), u32>
    requires long { header_size_of version ≤ length bytes.now }
    requires small { length bytes.now ≤ max_recording }
    ensures { result
        ≡ outcome
        (entries_at version limit (header_size_of version)
        (drop (header_size_of version) bytes.now)) }
{
    let mut at = header_size(version);
    while (at as usize) < bytes.len() {
        match first_entry(version, limit, at, &bytes[at as usize..]) {
            Some((_, size)) => at += size,
            None => return Err(at),
        }
    }
    Ok(())
}
