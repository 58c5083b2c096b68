// The arguments of a recording's messages, one after another.
ghost use Rattle.std.specs.Prelude.{◌≡◌, ℤ, ℕ, option_map, Some};
ghost use Rattle.osc_message.specs.Left.{left};
ghost use Rattle.osc_record.specs.Reading.{natural_of, int_first, signed_first, time_first};
ghost use Rattle.osc_record.specs.Reading.{text_first, later_first};

use crate::version::Version;
use osc_message::{Arg, Args};

/// The next argument where it is a number in four bytes that isn't negative.
pub(crate) fn next_int(args: &mut Args<'_>) -> Option<u32>
    ensures { option_map (λ n. (n, left args.new)) result ≡ int_first (left args.old) }
{
    match args.next() {
        Some(Arg::Int(number)) => natural(number),
        _ => None,
    }
}

/// The next argument where the version has one more number, which is 0 in the first.
pub(crate) fn next_later(version: Version, args: &mut Args<'_>) -> Option<u32>
    ensures { option_map (λ n. (n, left args.new)) result ≡ later_first version (left args.old) }
{
    match version {
        Version::First => Some(0),
        Version::Second => next_int(args),
    }
}

/// Where it is any number in four bytes.
pub(crate) fn next_signed(args: &mut Args<'_>) -> Option<i32>
    ensures { option_map (λ n. (n, left args.new)) result ≡ signed_first (left args.old) }
{
    match args.next() {
        Some(Arg::Int(number)) => Some(number),
        _ => None,
    }
}

/// Where it is a moment.
pub(crate) fn next_time(args: &mut Args<'_>) -> Option<u64>
    ensures { option_map (λ n. (n, left args.new)) result ≡ time_first (left args.old) }
{
    match args.next() {
        Some(Arg::Time(moment)) => Some(moment),
        _ => None,
    }
}

/// Where it is a string.
pub(crate) fn next_text<'a>(args: &mut Args<'a>) -> Option<&'a [u8]>
    ensures { option_map (λ text. (text.now, left args.new)) result ≡ text_first (left args.old) }
{
    match args.next() {
        Some(Arg::Str(text)) => Some(text),
        _ => None,
    }
}

/// The number, where it isn't negative.
pub(crate) fn natural(number: i32) -> Option<u32>
    ensures { result ≡ natural_of number }
{
    if number < 0 {
        None
    } else {
        Some(number as u32)
    }
}

/// The same of a number in eight bytes.
pub(crate) fn long_natural(number: i64) -> Option<u64>
    ensures { result ≡ natural_of number }
{
    if number < 0 {
        None
    } else {
        Some(number as u64)
    }
}
