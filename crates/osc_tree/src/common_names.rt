// The methods that have names in common with an address.
ghost use Rattle.std.specs.Prelude.{◌≡◌, ◌≤◌, ◌<◌, not, nat_le, length, All};
ghost use Rattle.std.specs.List.{slice_split, position_or_len};
ghost use Rattle.std.specs.List.Sorted.{IsPartitionedBy};
ghost use Rattle.osc_pattern.specs.Items.{is_slash};
ghost use Rattle.osc_pattern.specs.Patterns.{parts_of};
ghost use Rattle.osc_tree.specs.Views.{method_at};
ghost use Rattle.osc_tree.specs.Walking.{shared};

use crate::names::{names_of, shared_names};
use crate::registered::Registered;

/// How many methods have at least so many names in common with an address, before the first that
/// hasn't. Where addresses differ much, the first one hasn't.
pub(crate) fn count_sharing(
    methods: &[Registered],
    places: &[u32],
    names: &[u8],
    least: usize,
) -> usize
    requires within { All (λ place. place < length methods.now) places.now }
    requires parted { IsPartitionedBy
        (λ place. nat_le least (shared (slice_split is_slash names.now)
        (parts_of (method_at methods.now place).address))) places.now }
    ensures count { result
        ≡ position_or_len (λ place. not (nat_le least (shared (slice_split is_slash names.now)
        (parts_of (method_at methods.now place).address)))) places.now }
    ensures bound { result ≤ length places.now }
{
    let [next, ..] = places else {
        return 0;
    };
    if !is_sharing(methods, *next, names, least) {
        return 0;
    }
    search_sharing(methods, places, names, least)
}

/// The same, by halving the range in which the first that hasn't must stand.
fn search_sharing(methods: &[Registered], places: &[u32], names: &[u8], least: usize) -> usize
    requires within { All (λ place. place < length methods.now) places.now }
    requires parted { IsPartitionedBy
        (λ place. nat_le least (shared (slice_split is_slash names.now)
        (parts_of (method_at methods.now place).address))) places.now }
    ensures count { result
        ≡ position_or_len (λ place. not (nat_le least (shared (slice_split is_slash names.now)
        (parts_of (method_at methods.now place).address)))) places.now }
    ensures bound { result ≤ length places.now }
{
    let mut low = 0;
    let mut high = places.len();
    while low < high {
        let middle = low + (high - low) / 2;
        if is_sharing(methods, places[middle], names, least) {
            low = middle + 1;
        } else {
            high = middle;
        }
    }
    low
}

fn is_sharing(methods: &[Registered], place: u32, names: &[u8], least: usize) -> bool
    requires { place < length methods.now }
    ensures { result ≡ nat_le least (shared (slice_split is_slash names.now)
        (parts_of (method_at methods.now place).address)) }
{
    least <= shared_names(names, names_of(&methods[place as usize].address))
}
