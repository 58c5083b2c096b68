// Patterns, and how many addresses each matches (docs/FORMATS.md, "Patterns").
ghost use Rattle.std.specs.Prelude.{◌≡◌, ◌<◌};

use crate::servers::address;
use osc_pattern::{Address, Pattern, Steps};
use osc_uses::count_matching;
use std::alloc::Global;
use std::marker::Brand;
use std::sync::ledger::{Blank, Ledger};
use std::test::*;

/// A caller that counts no steps is given a blank ledger.
fn count<L: Ledger>(pattern: &Pattern<'_>, addresses: &[Address], blank: Blank) -> usize
    requires name { blank.name ≡ L.name }
    requires parts { blank.parts ≡ L.parts }
    requires some { 0 < blank.parts }
{
    let mut steps = Steps::<L>::new(blank);
    count_matching(pattern, addresses, &mut steps)
}

const ADDRESSES: [&[u8]; 7] = [
    b"/foo/dx",
    b"/bar/zzz",
    b"/bar/ab",
    b"/foo/d",
    b"/baz/dx",
    b"/b",
    b"/abc",
];

fn addresses(alloc: Global) -> Result<Vec<Address>, Fail> {
    let mut all = Vec::new(alloc);
    for bytes in ADDRESSES {
        all.push(address(alloc, bytes)?)?;
    }
    Ok(all)
}

#[test]
fn each_address_that_a_pattern_matches_is_counted(rt: HostRuntime) -> Result<(), Fail> {
    let rows: [(&[u8], usize); 7] = [
        (b"/{foo,bar}/[!a-c]?*", 2),
        (b"/[c-a]", 1),
        (b"/{a,ab}c", 1),
        (b"/*", 2),
        (b"/*/*", 5),
        (b"/foo/d", 1),
        (b"/x[]", 0),
    ];
    let all = addresses(rt.alloc())?;
    for (pattern, wanted) in rows {
        let pattern = Pattern::check(pattern).ok().ok_or("a pattern")?;
        assert_eq!(rt; count::<Brand>(&pattern, &all, Blank::new(1)), wanted);
    }
    Ok(())
}
