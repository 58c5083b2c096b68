// Builds the parts of the tests: the lines of a lane, and a box for each that adds a method.
ghost use Rattle.std.specs.Prelude.{◌≡◌, ◌≤◌, length, OnOk};
ghost use Rattle.osc_script.specs.Adds.{adds_of, count_adds};

use osc_lanes::LanePart;
use osc_method::Mute;
use osc_pattern::Address;
use osc_script::{Act, Line};
use std::alloc::{AllocError, Global};
use std::test::*;

/// A lane with no lines.
pub(crate) fn empty(alloc: Global) -> LanePart<Mute>
    ensures { count_adds result.lines.items ≤ length result.boxes.items }
{
    LanePart {
        lines: Vec::new(alloc),
        boxes: Vec::new(alloc),
    }
}

/// One more line, which adds no method.
pub(crate) fn push_line(part: &mut LanePart<Mute>, number: u32, act: Act) -> Result<(), AllocError>
    requires whole { count_adds part.old.lines.items ≤ length part.old.boxes.items }
    requires none { adds_of act ≡ 0 }
    ensures { OnOk result (count_adds part.new.lines.items ≤ length part.new.boxes.items) }
{
    part.lines.push(Line {
        number,
        lane: 0,
        act,
    })?;
    Ok(())
}

/// One more line, which adds a method, and its box.
pub(crate) fn push_add(
    part: &mut LanePart<Mute>,
    number: u32,
    address: Address,
    method: Mute,
) -> Result<(), AllocError>
    requires { count_adds part.old.lines.items ≤ length part.old.boxes.items }
    ensures { OnOk result (count_adds part.new.lines.items ≤ length part.new.boxes.items) }
{
    part.boxes.push(method)?;
    part.lines.push(Line {
        number,
        lane: 0,
        act: Act::Add(address),
    })?;
    Ok(())
}

/// An address of these bytes.
pub(crate) fn address(alloc: Global, bytes: &[u8]) -> Result<Address, Fail> {
    Ok(Address::read(alloc, bytes).ok().ok_or("an address")?)
}
