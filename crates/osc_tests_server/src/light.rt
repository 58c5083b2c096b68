// A light on a link in memory.
ghost use Rattle.std.specs.Prelude.{◌≤◌, length};

use crate::servers::{address, caps};
use osc_atoms::Bytes;
use osc_edge::{Datagram, MAX_DATAGRAM, MemoryClock, MemoryLink};
use osc_uses::{open_light, serve_light};
use std::alloc::Global;
use std::test::*;

/// The float 0.5 to the light's address, by the words of the standard (OSC 1.0, "OSC Message Examples").
const HALF: &[u8] = b"/light/dim\0\0,f\0\0\x3f\0\0\0";

/// The float 0.75 to a pattern that matches it.
const MORE: &[u8] = b"/light/*\0\0\0\0,f\0\0\x3f\x40\0\0";

/// The float 0.5 to the light's address at the moment 2.
const LATER: &[u8] = b"#bundle\0\0\0\0\0\0\0\0\x02\0\0\0\x14/light/dim\0\0,f\0\0\x3f\0\0\0";

/// A message that sets no light: 7 is no float.
const SEVEN: &[u8] = b"/light/dim\0\0,i\0\0\0\0\0\x07";

/// What the light is set to by two datagrams, where the clock stands at the moment.
fn level(
    alloc: Global,
    first: &[u8],
    second: &[u8],
    moment: u64,
) -> Result<(Datagram, Option<u32>), Fail>
    requires first { length first.now ≤ 65508 }
    requires second { length second.now ≤ 65508 }
{
    let mut turns = Vec::with_capacity(alloc, 2)?;
    turns.push_reserved(Some(Bytes::copied(alloc, first)?));
    turns.push_reserved(Some(Bytes::copied(alloc, second)?));
    let mut link = MemoryLink::open(turns, Vec::new(alloc));
    let mut clock = MemoryClock::open(Vec::from_array(alloc, [moment])?, Vec::new(alloc));
    let mut core = open_light(alloc, caps(1)?, address(alloc, b"/light/dim")?)?;
    let last = serve_light(alloc, &mut core, &mut link, &mut clock, 8)?;
    Ok((last, core.method(0).map(|light| light.level())))
}

#[test]
fn a_light_is_set_by_what_comes(rt: HostRuntime) -> Result<(), Fail> {
    let rows: [(&[u8], &[u8], u64, u32); 5] = [
        (HALF, MORE, 1, 0x3f40_0000),
        (MORE, HALF, 1, 0x3f00_0000),
        (HALF, SEVEN, 1, 0x3f00_0000),
        (LATER, b"/abc", 1, 0),
        (LATER, b"/abc", 2, 0x3f00_0000),
    ];
    for (first, second, moment, wanted) in rows {
        assert!(rt; first.len() <= MAX_DATAGRAM && second.len() <= MAX_DATAGRAM);
        assert_eq!(rt;
            level(rt.alloc(), first, second, moment)?,
            (Datagram::End, Some(wanted))
        );
    }
    Ok(())
}
