// The parts of a pattern, found once for all methods.
ghost use Rattle.osc_pattern.specs.declared.limits.TheConstants.{MAX_NAMES};
ghost use Rattle.std.specs.Prelude.{◌≡◌, ◌≤◌, length};
ghost use Rattle.osc_pattern.specs.Patterns.{parts_of};
ghost use Rattle.osc_tree.specs.Walking.{AreParts, AreReadyParts};

use osc_pattern::{MAX_NAMES, Part, Pattern, ReadyPart};

/// The parts of a pattern that has no more of them than an address has names. The places after them
/// are empty.
pub(crate) fn find_parts<'a>(pattern: &Pattern<'a>, count: u32) -> [Part<'a>; MAX_NAMES]
    requires count { count ≡ length (parts_of pattern.now) }
    requires few { count ≤ MAX_NAMES }
    ensures { AreParts result pattern.now }
{
    let mut found = [Part::whole(b""); MAX_NAMES];
    for place in 0..count {
        found[place as usize] = Part::whole(pattern.part(place));
    }
    found
}

/// The same parts, each read once for all names.
pub(crate) fn read_parts<'a>(pattern: &Pattern<'a>, count: u32) -> [ReadyPart<'a>; MAX_NAMES]
    requires count { count ≡ length (parts_of pattern.now) }
    requires few { count ≤ MAX_NAMES }
    ensures { AreReadyParts result pattern.now }
{
    let mut read = [ReadyPart::empty(); MAX_NAMES];
    for place in 0..count {
        read[place as usize] = ReadyPart::read(pattern.part(place));
    }
    read
}

/// The parts that were read, to be tried on names.
pub(crate) fn ready_parts<'a>(
    pattern: &Pattern<'_>,
    count: u32,
    read: &'a [ReadyPart<'a>; MAX_NAMES],
) -> [Part<'a>; MAX_NAMES]
    requires count { count ≡ length (parts_of pattern.now) }
    requires few { count ≤ MAX_NAMES }
    requires read { AreReadyParts read.now pattern.now }
    ensures { AreParts result pattern.now }
{
    let mut found = [Part::whole(b""); MAX_NAMES];
    for place in 0..count {
        found[place as usize] = read[place as usize].part();
    }
    found
}
