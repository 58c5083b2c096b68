//! How many of some addresses a pattern matches.
ghost use Rattle.std.specs.Prelude.{◌≡◌, ◌≤◌, count_by};
ghost use Rattle.osc_pattern.specs.Patterns.{matches};

use osc_pattern::{Address, Pattern, Steps};
use std::sync::ledger::Ledger;

/// How many of the addresses the pattern matches. It takes no memory, and the steps may be counted.
pub fn count_matching<L: Ledger>(
    pattern: &Pattern<'_>,
    addresses: &[Address],
    steps: &mut Steps<L>,
) -> usize
    ensures count { result ≡ count_by (matches pattern.now) addresses.now }
    ensures counted { steps.old ≤ steps.new }
{
    let mut count = 0;
    for address in addresses {
        if pattern.matches(address, steps) {
            count += 1;
        }
    }
    count
}
