//! Matching without a server.
ghost use Rattle.osc_pattern.specs.declared.limits.TheConstants.{MAX_PATTERN};
ghost use Rattle.std.specs.Prelude.{◌≡◌, ◌≢◌, ◌<◌, ◌≤◌, IsTrue, length};
ghost use Rattle.osc_pattern.specs.Addresses.{is_address};
ghost use Rattle.osc_pattern.specs.Patterns.{is_pattern, matches};
ghost use Rattle.osc_c.specs.Plain.{match_answered};

use osc_pattern::{Address, MAX_PATTERN, Pattern, Steps};
use std::alloc::Global;
use std::marker::Brand;
use std::sync::ledger::{Blank, Ledger};

/// Whether the pattern matches the address: 1 or 0. 2 where the pattern is none, 3 where the
/// address is none, and 4 where there is no memory.
#[unsafe(no_mangle)]
pub extern "C" fn osc_pattern_matches(pattern: &[u8], address: &[u8], alloc: Global) -> u32
    ensures answer { result ≢ 4 → result ≡ match_answered pattern.now address.now }
    ensures no_memory { result ≡ 4 → (length pattern.now ≤ MAX_PATTERN)
        × IsTrue (is_pattern pattern.now) × IsTrue (is_address address.now) }
{
    if pattern.len() > MAX_PATTERN {
        return 2;
    }
    let Ok(pattern) = Pattern::check(pattern) else {
        return 2;
    };
    if !Address::is_lawful(address) {
        return 3;
    }
    match Address::known(alloc, address) {
        Ok(address) => u32::from(is_match::<Brand>(&pattern, &address, Blank::new(1))),
        Err(_) => 4,
    }
}

/// Whether the pattern matches the address, for which the steps are counted.
fn is_match<L: Ledger>(pattern: &Pattern<'_>, address: &Address, blank: Blank) -> bool
    requires name { blank.name ≡ L.name }
    requires parts { blank.parts ≡ L.parts }
    requires some { 0 < blank.parts }
    ensures { result ≡ matches pattern.now address.now }
{
    let mut steps = Steps::<L>::new(blank);
    pattern.matches(address, &mut steps)
}
