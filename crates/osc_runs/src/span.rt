// How long it is from one moment to another.
ghost use Rattle.std.specs.Prelude.{◌≡◌, ◌+◌, ◌%◌, ◌<◌, ◌^◌, ◌++◌, OnOk};
ghost use Rattle.osc_shown.specs.Numbers.{three};
ghost use Rattle.osc_shown.specs.Times.{millis_of, seconds_text, span_text};

use itoa::Buffer;
use std::alloc::AllocError;

/// Adds how many seconds it is from one moment to a later one, as `1.120 s`.
pub(crate) fn add_span(out: &mut Vec<u8>, from: u64, to: u64) -> Result<(), AllocError>
    ensures { OnOk result (out.new.items ≡ out.old.items ++ span_text from to) }
{
    add_seconds(out, millis_of(to).saturating_sub(millis_of(from)))
}

fn add_seconds(out: &mut Vec<u8>, millis: u64) -> Result<(), AllocError>
    ensures { OnOk result (out.new.items ≡ out.old.items ++ seconds_text millis) }
{
    out.extend_from_slice(Buffer::new().format(millis / 1000).as_bytes())?;
    out.extend_from_slice(b".")?;
    add_three(out, millis)?;
    out.extend_from_slice(b" s")
}

/// Adds the last three digits.
#[tactic(auto, unfolding(osc_shown::specs::Numbers::three))]
fn add_three(out: &mut Vec<u8>, number: u64) -> Result<(), AllocError>
    ensures { OnOk result (out.new.items ≡ out.old.items ++ three number) }
{
    out.extend_from_slice(&[digit(number / 100), digit(number / 10), digit(number)])
}

/// The last digit.
fn digit(number: u64) -> u8
    ensures { result ≡ 48 + number % 10 }
{
    b'0' + (number % 10) as u8
}

/// The milliseconds since the start of 1900, to the nearest.
#[tactic(auto, unfolding(osc_shown::specs::Times::millis_of))]
pub(crate) fn millis_of(moment: u64) -> u64
    ensures value { result ≡ millis_of moment }
    ensures small { result < 2 ^ 43 }
{
    ((u128::from(moment) * 1000 + 0x8000_0000) / 0x1_0000_0000) as u64
}
