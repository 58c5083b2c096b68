// A packet, gone through from front to back, one bundle after another.
ghost use Rattle.osc_atoms.specs.declared.limits.TheConstants.{MAX_PACKET};
ghost use Rattle.osc_packet.specs.declared.limits.TheConstants.{MAX_DEPTH};
ghost use Rattle.std.specs.Prelude.{◌≡◌, ◌+◌, ◌≤◌, [], ◌∷◌, length, MatchOption};
ghost use Rattle.osc_packet.specs.Walks.{units_from, IsWalk, IsNext};

use crate::Unit;
use crate::checks::{
    bundle_elements, bundle_tag, effective_tag, first_size, is_bundle, split_element,
};
use crate::content::Content;
use crate::limits::{BUNDLE_HEAD, MAX_DEPTH};

/// A bundle that isn't at its end.
#[derive(Clone, Copy)]
pub(crate) struct OpenBundle {
    /// The place after its last byte.
    pub(crate) end: usize,
    /// Its effective tag.
    pub(crate) tag: u64,
}

/// The bundles that are open at a place, the outermost first.
#[derive(Clone, Copy)]
pub(crate) struct Walk {
    pub(crate) bundles: [OpenBundle; MAX_DEPTH],
    pub(crate) depth: usize,
    pub(crate) place: usize,
}

/// A bundle, and how many are open around it.
#[derive(Clone, Copy)]
struct Found {
    place: usize,
    end: usize,
    depth: usize,
}

/// The unit of the next bundle. The walk goes on into it.
pub(crate) fn next_unit<'a>(bytes: &'a [u8], walk: &mut Walk) -> Option<Unit<'a>>
    requires walk { IsWalk bytes.now walk.old.bundles walk.old.depth walk.old.place }
    requires few { walk.old.depth ≤ MAX_DEPTH }
    requires small { length bytes.now ≤ MAX_PACKET }
    ensures walk { IsWalk bytes.now walk.new.bundles walk.new.depth walk.new.place }
    ensures few { walk.new.depth ≤ MAX_DEPTH }
    ensures units { MatchOption result
        ((units_from bytes.now walk.old.bundles walk.old.depth walk.old.place ≡ [])
        × (units_from bytes.now walk.new.bundles walk.new.depth walk.new.place ≡ []))
        (λ unit. units_from bytes.now walk.old.bundles walk.old.depth walk.old.place
        ≡ unit ∷ units_from bytes.now walk.new.bundles walk.new.depth walk.new.place) }
{
    let found = next_bundle(bytes, &walk.bundles, walk.depth, walk.place)?;
    let bundle = &bytes[found.place..found.end];
    let outer = walk.bundles[found.depth - 1].tag;
    let tag = effective_tag(Some(outer), bundle_tag(bundle));
    walk.bundles[found.depth] = OpenBundle {
        end: found.end,
        tag,
    };
    walk.depth = found.depth + 1;
    walk.place = found.place + BUNDLE_HEAD;
    Some(Unit::new(tag, Content::Among(bundle_elements(bundle))))
}

/// The next bundle from `place` on, so many bundles being open there.
fn next_bundle(
    bytes: &[u8],
    bundles: &[OpenBundle; MAX_DEPTH],
    depth: usize,
    place: usize,
) -> Option<Found>
    requires walk { IsWalk bytes.now bundles.now depth place }
    requires few { depth ≤ MAX_DEPTH }
    requires small { length bytes.now ≤ MAX_PACKET }
    ensures { MatchOption result (units_from bytes.now bundles.now depth place ≡ [])
        (λ found. IsNext bytes.now bundles.now depth place found) }
{
    let mut depth = depth;
    let mut place = place;
    while depth > 0 {
        let end = bundles[depth - 1].end;
        if place == end {
            depth -= 1;
        } else {
            let rest = &bytes[place..end];
            let size = first_size(rest);
            let (element, _) = split_element(rest, size);
            let start = place + 4;
            place = start + size;
            if is_bundle(element) {
                return Some(Found {
                    place: start,
                    end: place,
                    depth,
                });
            }
        }
    }
    None
}
