// How many lanes there are, and which lines add a method.
ghost use Rattle.std.specs.Prelude.{◌≡◌, ◌+◌, max};
ghost use Rattle.osc_script.specs.Adds.{is_add};
ghost use Rattle.osc_top.specs.Lanes as lanes;

use osc_script::{Act, Line};

pub(crate) fn is_add(act: &Act) -> bool
    ensures { result ≡ is_add act.now }
{
    matches!(act, Act::Add(_))
}

/// How many lanes the lines are of, those without a line among them.
pub(crate) fn lane_count(lines: &[Line]) -> usize
    ensures { result ≡ lanes.lane_count lines.now }
{
    let mut count = 0;
    for line in lines {
        count = count.max(line.lane as usize + 1);
    }
    count
}
