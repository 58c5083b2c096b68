// The numbers that stand for what becomes of late units.
ghost use Rattle.std.specs.Prelude.{◌≡◌, ◌≤◌};
ghost use Rattle.osc_model.specs.Recordings.{late_code};
ghost use Rattle.osc_record.specs.Reading.{late_told};

use osc_model::Late;

/// The number that stands for it.
pub(crate) fn late_code(late: Late) -> u32
    ensures value { result ≡ late_code late }
    ensures small { result ≤ 1 }
{
    match late {
        Late::Deliver => 0,
        Late::Discard => 1,
    }
}

/// What the number stands for, if it does.
pub(crate) fn late_told(code: u32) -> Option<Late>
    ensures { result ≡ late_told code }
{
    match code {
        0 => Some(Late::Deliver),
        1 => Some(Late::Discard),
        _ => None,
    }
}
