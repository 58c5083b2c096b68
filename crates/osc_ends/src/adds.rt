//! How many lines add a method.
ghost use Rattle.std.specs.Prelude.{◌≡◌, filter, length};
ghost use Rattle.osc_script.specs.Adds.{is_add};
ghost use Rattle.osc_script.specs.Adds as adds;

use osc_script::{Act, Line};

/// How many lines add a method.
pub fn count_adds(lines: &[Line]) -> usize
    ensures { result ≡ adds.count_adds lines.now }
{
    count_adding(lines)
}

/// The same, as the number of those that do.
fn count_adding(lines: &[Line]) -> usize
    ensures { result ≡ length (filter (λ line. is_add line.act) lines.now) }
{
    lines.iter().filter(|line| is_add(&line.act)).count()
}

fn is_add(act: &Act) -> bool
    ensures { result ≡ is_add act.now }
{
    matches!(act, Act::Add(_))
}
