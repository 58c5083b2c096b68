// The methods whose addresses begin with a text.
ghost use Rattle.std.specs.Prelude.{◌≡◌, ◌≤◌, ◌<◌, ◌++◌, ◌∷◌, [], length, filter, All};
ghost use Rattle.osc_pattern.specs.Methods.{IsMethodList};
ghost use Rattle.osc_tree.specs.Matching.{IsAscending};
ghost use Rattle.osc_tree.specs.Order.{begins_with, IsOrder, IsSearched};
ghost use Rattle.osc_tree.specs.Views.{methods_of, methods_at};

use crate::registered::Registered;
use crate::search::{count_before_from, count_before_near};

/// The places of the methods that begin with the text, which stand together. They aren't before the
/// text, and are before it with a byte after it that is above all of an address.
pub(crate) fn beginning_with<'a>(
    methods: &[Registered],
    places: &'a [u32],
    text: &[u8],
) -> &'a [u32]
    requires list { IsMethodList (methods_of methods.now) }
    requires order { IsOrder methods.now places.now }
    ensures those { methods_at methods.now result.now
        ≡ filter (begins_with text.now) (methods_at methods.now places.now) }
    ensures within { All (λ place. place < length methods.now) result.now }
    ensures len { length result.now ≤ length places.now }
{
    let first = count_before_near(methods, places, 0, 0, text, b"");
    let end = count_begun(methods, places, first, text);
    &places[first..end]
}

/// How many methods are before the text with the byte after it, where so many are before the text.
/// Where none is, mostly all begin with it.
fn count_begun(methods: &[Registered], places: &[u32], first: usize, text: &[u8]) -> usize
    requires within { All (λ place. place < length methods.now) places.now }
    requires ascending { IsAscending (methods_at methods.now places.now) }
    requires known { IsSearched (text.now ++ 127 ∷ []) (methods_at methods.now places.now)
        first (length places.now) }
    ensures searched { IsSearched (text.now ++ 127 ∷ []) (methods_at methods.now places.now)
        result result }
    ensures bound { result ≤ length places.now }
{
    if first == 0 {
        return count_before_near(methods, places, first, places.len(), text, b"\x7f");
    }
    count_before_from(methods, places, first, text, b"\x7f")
}
