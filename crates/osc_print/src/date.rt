// The date of a moment.
ghost use Rattle.std.specs.Prelude.{◌≡◌, ◌-ℤ◌, ◌*ℤ◌, ◌/◌, ◌^◌, ◌++◌, ◌∷◌, [], pos, IfOk};
ghost use Rattle.std.specs.Prelude.{string_bytes};
ghost use Rattle.jiff_core.specs.DateTime.{civil_nanos};
ghost use Rattle.jiff.specs.Names.{iso_datetime_text};
ghost use Rattle.osc_print.specs.Dates;

use jiff::Timestamp;
use jiff::civil::DateTime;
use jiff::tz::Offset;
use std::alloc::{AllocError, Global};

/// How many seconds lie between the starts of 1900 and of 1970.
const SECONDS_TO_1970: i64 = 2_208_988_800;

/// The date of a moment's seconds in UTC, as `1900-01-01T00:00:00Z`; the fraction is dropped.
pub(crate) fn date_text(alloc: Global, moment: u64) -> Result<String, AllocError>
    ensures { IfOk result (λ text. string_bytes text ≡ Dates.date_text (moment / 2 ^ 32)) }
{
    written(alloc, date_of((moment >> 32) as u32))
}

fn written(alloc: Global, date: DateTime) -> Result<String, AllocError>
    ensures { IfOk result (λ text. string_bytes text ≡ iso_datetime_text date ++ 90 ∷ []) }
{
    format!(in alloc; "{date}Z")
}

/// The date of a second, counted from the start of 1900.
fn date_of(seconds: u32) -> DateTime
    ensures { civil_nanos result
        ≡ (pos seconds -ℤ pos 2_208_988_800) *ℤ pos 1_000_000_000 }
{
    let second = i64::from(seconds) - SECONDS_TO_1970;
    match Timestamp::from_second(second) {
        Ok(instant) => Offset::UTC.to_datetime(instant),
        Err(_) => unreachable!(),
    }
}
