// Where a walk goes on by a search after a method that doesn't match.
ghost use Rattle.std.specs.Prelude.{◌≡◌, ◌≤◌, ◌<◌, ◌+◌, ◌++◌, ◌∷◌, [], length, take, drop, All};
ghost use Rattle.std.specs.Prelude.{IfSome};
ghost use Rattle.std.specs.List.{slice_split};
ghost use Rattle.osc_pattern.specs.Items.{is_slash};
ghost use Rattle.osc_pattern.specs.Patterns.{parts_of};
ghost use Rattle.osc_tree.specs.Walking.{agreeing, IsOnward};

use crate::aim::find_aim;
use crate::names::{first_name, names_at};
use crate::walk::{Tried, Walk};
use osc_pattern::Pattern;

/// Where a walk goes on by a search: how many bytes of the names stay before the one that doesn't
/// match, how many of that one, and a text after them. An aim is a text that stands in the pattern.
#[derive(Clone, Copy)]
pub(crate) struct Way<'a> {
    pub(crate) bytes: usize,
    pub(crate) kept: usize,
    pub(crate) tail: &'a [u8],
    pub(crate) is_aim: bool,
}

/// Whether to look for where a walk goes on, after so many methods without: each time twice as
/// rarely.
fn looks(idle: u32) -> bool {
    idle & idle.saturating_sub(1) == 0
}

/// Where to go on by a search: at what an aim says, if one is looked for and found, else after all
/// that begin with the name that doesn't match, if more follow it. Nowhere, where the method has no
/// more names.
pub(crate) fn find_way<'a>(walk: &Walk<'a>, tried: &Tried<'_>, idle: u32) -> Option<Way<'a>>
    requires parts { walk.now.parts ≡ length (parts_of walk.now.pattern.now) }
    requires low { All (λ byte. byte < 127) tried.now.names.now }
    requires count { tried.now.matching
        ≡ agreeing (parts_of walk.now.pattern.now) (slice_split is_slash tried.now.names.now) }
    ensures kept { IfSome result (λ way. way.bytes + way.kept ≤ length tried.now.names.now) }
    ensures on { IfSome result (λ way. IsOnward walk.now.pattern.now tried.now.names.now
        tried.now.matching way.bytes
        (take way.kept (drop way.bytes tried.now.names.now) ++ way.tail.now)) }
{
    if tried.is_ended {
        return None;
    }
    if looks(idle)
        && let Some((bytes, kept, tail)) = find_onward(
            walk.pattern,
            walk.parts,
            tried.matching,
            tried.names,
        )
    {
        return Some(Way {
            bytes,
            kept,
            tail,
            is_aim: true,
        });
    }
    if tried.is_last {
        return None;
    }
    let (bytes, kept) = find_over(walk.pattern, walk.parts, tried.matching, tried.names)?;
    Some(Way {
        bytes,
        kept,
        tail: b"0",
        is_aim: false,
    })
}

/// What follows the names of a node that doesn't match: how many bytes stand before its last name,
/// and how many that has.
fn find_over(
    pattern: &Pattern<'_>,
    parts: u32,
    matching: u32,
    names: &[u8],
) -> Option<(usize, usize)>
    requires parts { parts ≡ length (parts_of pattern.now) }
    requires low { All (λ byte. byte < 127) names.now }
    requires count { matching ≡ agreeing (parts_of pattern.now) (slice_split is_slash names.now) }
    ensures kept { IfSome result (λ on. on.0 + on.1 ≤ length names.now) }
    ensures on { IfSome result (λ on. IsOnward pattern.now names.now matching on.0
        (take on.1 (drop on.0 names.now) ++ 48 ∷ [])) }
{
    if matching >= parts {
        return None;
    }
    let at = names_at(names, matching as usize)?;
    let (name, more) = first_name(&names[at..]);
    if more.is_none() {
        return None;
    }
    Some((at, name.len()))
}

/// Where the walk goes on after names of which so many match: how many bytes those take, how many
/// more stay, and a text after them.
#[inline(never)]
fn find_onward<'a>(
    pattern: &Pattern<'a>,
    parts: u32,
    matching: u32,
    names: &[u8],
) -> Option<(usize, usize, &'a [u8])>
    requires parts { parts ≡ length (parts_of pattern.now) }
    requires low { All (λ byte. byte < 127) names.now }
    ensures kept { IfSome result (λ on. on.0 + on.1 ≤ length names.now) }
    ensures on { IfSome result (λ on. IsOnward pattern.now names.now matching on.0
        (take on.1 (drop on.0 names.now) ++ on.2.now)) }
{
    if matching >= parts {
        return None;
    }
    let at = names_at(names, matching as usize)?;
    let (kept, tail) = find_aim(pattern.part(matching), &names[at..])?;
    Some((at, kept, tail))
}
