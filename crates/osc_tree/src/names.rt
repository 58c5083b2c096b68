// The names of addresses, one after another.
ghost use Rattle.osc_pattern.specs.declared.limits.TheConstants.{MAX_NAME};
ghost use Rattle.std.specs.Prelude.{◌≡◌, ◌≤◌, ◌<◌, ◌+◌, ◌∷◌, ◌++◌, ◌==◌, ℕ, List, [], All};
ghost use Rattle.std.specs.Prelude.{MatchOption, IfSome, option_map, length, count_by, position};
ghost use Rattle.std.specs.Prelude.{get_or, drop};
ghost use Rattle.std.specs.List.{slice_split};
ghost use Rattle.osc_pattern.specs.Addresses.{IsAddress};
ghost use Rattle.osc_pattern.specs.Items.{is_slash};
ghost use Rattle.osc_pattern.specs.Reading.{cut_at};
ghost use Rattle.osc_pattern.specs.Patterns.{parts_of};
ghost use Rattle.osc_tree.specs.Walking.{shared, IsBegun};

use osc_pattern::Address;

/// Whole names that a text begins with, the slash after each among their bytes.
#[derive(Clone, Copy)]
pub(crate) struct Front {
    pub(crate) names: usize,
    pub(crate) bytes: usize,
}

/// The names of an address, with a slash between two.
pub(crate) fn names_of(address: &Address) -> &[u8]
    ensures bytes { result.now ≡ drop 1 address.now }
    ensures parts { slice_split is_slash result.now ≡ parts_of address.now }
    ensures short { All (λ name. length name ≤ MAX_NAME) (slice_split is_slash result.now) }
    ensures lawful { IsAddress address.now }
{
    &address.bytes()[1..]
}

/// The first name, and those after it if there are any.
pub(crate) fn first_name(names: &[u8]) -> (&[u8], Option<&[u8]>)
    ensures names { MatchOption result.1
        (slice_split is_slash names.now ≡ result.0.now ∷ [])
        (λ rest. slice_split is_slash names.now
        ≡ result.0.now ∷ slice_split is_slash rest.now) }
    ensures size { MatchOption result.1 (length result.0.now ≡ length names.now)
        (λ rest. length result.0.now + (1 + length rest.now) ≡ length names.now) }
{
    match cut_name(names) {
        Some((name, rest)) => (name, Some(rest)),
        None => (names, None),
    }
}

/// The bytes before the first slash, and those after it.
fn cut_name(names: &[u8]) -> Option<(&[u8], &[u8])>
    ensures cut { option_map (λ parts. (parts.0.now, parts.1.now)) result
        ≡ cut_at is_slash names.now }
    ensures size { IfSome result
        (λ parts. length parts.0.now + (1 + length parts.1.now) ≡ length names.now) }
{
    let end = first_slash(names)?;
    Some((&names[..end], &names[end + 1..]))
}

pub(crate) fn first_slash(names: &[u8]) -> Option<usize>
    ensures { result ≡ position is_slash names.now }
{
    names.iter().position(|byte| *byte == b'/')
}

/// Where the names after so many of them begin, if there are more.
pub(crate) fn names_at(names: &[u8], count: usize) -> Option<usize>
    ensures bound { IfSome result (λ at. at ≤ length names.now) }
    ensures cut { IfSome result (λ at. slice_split is_slash (drop at names.now)
        ≡ drop count (slice_split is_slash names.now)) }
{
    let mut left = count;
    for at in 0..names.len() {
        if left == 0 {
            return Some(at);
        }
        if names[at] == b'/' {
            left -= 1;
        }
    }
    None
}

/// How many names are the same in both, from the first on.
pub(crate) fn shared_names(names: &[u8], others: &[u8]) -> usize
    ensures count { result
        ≡ shared (slice_split is_slash names.now) (slice_split is_slash others.now) }
    ensures bound { result ≤ length names.now + 1 }
{
    let end = names.len().min(others.len());
    let mut count = 0;
    for at in 0..end {
        if names[at] != others[at] {
            return count;
        }
        if names[at] == b'/' {
            count += 1;
        }
    }
    if ends_at(names, end) && ends_at(others, end) {
        count + 1
    } else {
        count
    }
}

/// The whole names that names begin with, and so does each text that begins with all of their
/// bytes.
pub(crate) fn whole_names(names: &[u8]) -> Front
    ensures { (rest more : List ℕ) → IsBegun result.names result.bytes
        (names.now ++ rest) (names.now ++ more) }
{
    let mut front = Front { names: 0, bytes: 0 };
    for at in 0..names.len() {
        if names[at] == b'/' {
            front = Front {
                names: front.names + 1,
                bytes: at + 1,
            };
        }
    }
    front
}

/// The names that both begin with, of which some are known. Neither has all of its names in common
/// with the other.
pub(crate) fn shared_front(known: Front, names: &[u8], others: &[u8]) -> Front
    requires known { IsBegun known.names known.bytes names.now others.now }
    requires first { shared (slice_split is_slash names.now) (slice_split is_slash others.now)
        < length (slice_split is_slash names.now) }
    requires second { shared (slice_split is_slash names.now) (slice_split is_slash others.now)
        < length (slice_split is_slash others.now) }
    ensures count { result.names
        ≡ shared (slice_split is_slash names.now) (slice_split is_slash others.now) }
    ensures bound { result.bytes ≤ length names.now }
    ensures cut { slice_split is_slash (drop result.bytes names.now)
        ≡ drop result.names (slice_split is_slash names.now) }
{
    let mut front = known;
    for at in known.bytes..names.len().min(others.len()) {
        if names[at] != others[at] {
            return front;
        }
        if names[at] == b'/' {
            front = Front {
                names: front.names + 1,
                bytes: at + 1,
            };
        }
    }
    front
}

/// Whether a name ends at a place, before a slash or at the end of all.
fn ends_at(names: &[u8], at: usize) -> bool
    ensures { result ≡ is_slash (get_or names.now at 47) }
{
    match names.get(at) {
        Some(byte) => *byte == b'/',
        None => true,
    }
}

/// How many names there are.
pub(crate) fn count_names(names: &[u8]) -> usize
    ensures count { result ≡ length (slice_split is_slash names.now) }
{
    count_slashes(names) + 1
}

fn count_slashes(names: &[u8]) -> usize
    ensures { result ≡ count_by is_slash names.now }
{
    names.iter().filter(|byte| **byte == b'/').count()
}
