// Where a text stands in the order of the methods' addresses.
ghost use Rattle.std.specs.Prelude.{◌≡◌, ◌≤◌, ◌<◌, ◌++◌, length, take, true, All, get_or};
ghost use Rattle.std.specs.Ordering.{is_lt, nat_cmp};
ghost use Rattle.std.specs.Cmp.Lexicographic.{slice_cmp};
ghost use Rattle.osc_tree.specs.Matching.{IsAscending};
ghost use Rattle.osc_tree.specs.Order.{is_before, begins_with, IsOrder, IsSearched, IsNarrowed};
ghost use Rattle.osc_tree.specs.Views.{method_at, methods_at};

use crate::registered::Registered;

/// An end of the range where a search goes on, and with how many bytes of the text the method just
/// outside it begins.
#[derive(Clone, Copy)]
struct End {
    place: usize,
    begun: usize,
}

/// Whether an address is before a text with its tail, and with how many bytes of the text it
/// begins.
#[derive(Clone, Copy)]
struct Standing {
    is_before: bool,
    begun: usize,
}

/// How many methods are before the text.
pub(crate) fn count_before(methods: &[Registered], places: &[u32], text: &[u8]) -> usize
    requires { IsOrder methods.now places.now }
    ensures searched { IsSearched text.now (methods_at methods.now places.now) result result }
    ensures bound { result ≤ length places.now }
{
    count_before_both(methods, places, text, b"")
}

/// How many methods are before the text with its tail.
pub(crate) fn count_before_both(
    methods: &[Registered],
    places: &[u32],
    text: &[u8],
    tail: &[u8],
) -> usize
    requires { IsOrder methods.now places.now }
    ensures searched { IsSearched (text.now ++ tail.now) (methods_at methods.now places.now)
        result result }
    ensures bound { result ≤ length places.now }
{
    let first = End { place: 0, begun: 0 };
    let last = End {
        place: places.len(),
        begun: 0,
    };
    count_between(methods, places, first, last, text, tail)
}

/// The same, where all below a place are known to be. It looks twice as far ahead each time, since
/// few more are mostly.
pub(crate) fn count_before_from(
    methods: &[Registered],
    places: &[u32],
    from: usize,
    text: &[u8],
    tail: &[u8],
) -> usize
    requires within { All (λ place. place < length methods.now) places.now }
    requires ascending { IsAscending (methods_at methods.now places.now) }
    requires known { IsSearched (text.now ++ tail.now) (methods_at methods.now places.now)
        from (length places.now) }
    ensures searched { IsSearched (text.now ++ tail.now) (methods_at methods.now places.now)
        result result }
    ensures bound { result ≤ length places.now }
{
    let mut low = End {
        place: from,
        begun: 0,
    };
    while low.place - from < places.len() - low.place {
        let next = low.place + (low.place - from);
        let found = compare(methods, places[next], text, tail, 0);
        if !found.is_before {
            let high = End {
                place: next,
                begun: found.begun,
            };
            return count_between(methods, places, low, high, text, tail);
        }
        low = End {
            place: next + 1,
            begun: found.begun,
        };
    }
    let last = End {
        place: places.len(),
        begun: 0,
    };
    count_between(methods, places, low, last, text, tail)
}

/// Up to so many methods, a search of all of them takes fewer steps than one that looks further
/// each time.
const FEW: usize = 2048;

/// The same, where as many may follow as not.
#[inline(never)]
pub(crate) fn count_before_after(
    methods: &[Registered],
    places: &[u32],
    from: usize,
    text: &[u8],
    tail: &[u8],
) -> usize
    requires within { All (λ place. place < length methods.now) places.now }
    requires ascending { IsAscending (methods_at methods.now places.now) }
    requires known { IsSearched (text.now ++ tail.now) (methods_at methods.now places.now)
        from (length places.now) }
    ensures searched { IsSearched (text.now ++ tail.now) (methods_at methods.now places.now)
        result result }
    ensures bound { result ≤ length places.now }
{
    if places.len() > FEW {
        return count_before_from(methods, places, from, text, tail);
    }
    let low = End {
        place: from,
        begun: 0,
    };
    let high = End {
        place: places.len(),
        begun: 0,
    };
    count_between(methods, places, low, high, text, tail)
}

/// The same, where so many that follow are guessed to be before the text, and no more.
pub(crate) fn count_before_near(
    methods: &[Registered],
    places: &[u32],
    from: usize,
    guess: usize,
    text: &[u8],
    tail: &[u8],
) -> usize
    requires within { All (λ place. place < length methods.now) places.now }
    requires ascending { IsAscending (methods_at methods.now places.now) }
    requires known { IsSearched (text.now ++ tail.now) (methods_at methods.now places.now)
        from (length places.now) }
    ensures searched { IsSearched (text.now ++ tail.now) (methods_at methods.now places.now)
        result result }
    ensures bound { result ≤ length places.now }
{
    if guess > places.len() - from {
        return count_before_after(methods, places, from, text, tail);
    }
    let next = from + guess;
    if is_before_at(methods, places, next, text, tail) {
        return count_before_after(methods, places, next + 1, text, tail);
    }
    if guess == 0 {
        return next;
    }
    let below = compare(methods, places[next - 1], text, tail, 0);
    if below.is_before {
        return next;
    }
    let low = End {
        place: from,
        begun: 0,
    };
    let high = End {
        place: next - 1,
        begun: below.begun,
    };
    count_between(methods, places, low, high, text, tail)
}

/// Whether a method stands at the place, and is before the text.
fn is_before_at(methods: &[Registered], places: &[u32], at: usize, text: &[u8], tail: &[u8]) -> bool
    requires { All (λ place. place < length methods.now) places.now }
    ensures yes { result ≡ true → at < length places.now }
    ensures before { at < length places.now
        → result ≡ is_before (text.now ++ tail.now)
        (method_at methods.now (get_or places.now at 0)) }
{
    at < places.len() && compare(methods, places[at], text, tail, 0).is_before
}

/// The same, where all below one place are known to be, and none from another on. It halves what is
/// between the two, and compares no byte with which the methods at both ends begin.
fn count_between(
    methods: &[Registered],
    places: &[u32],
    from: End,
    to: End,
    text: &[u8],
    tail: &[u8],
) -> usize
    requires within { All (λ place. place < length methods.now) places.now }
    requires ascending { IsAscending (methods_at methods.now places.now) }
    requires known { IsSearched (text.now ++ tail.now) (methods_at methods.now places.now)
        from.place to.place }
    requires narrowed { IsNarrowed text.now (methods_at methods.now places.now)
        from.place to.place from.begun to.begun }
    ensures searched { IsSearched (text.now ++ tail.now) (methods_at methods.now places.now)
        result result }
    ensures bound { result ≤ length places.now }
{
    let mut low = from;
    let mut high = to;
    while low.place < high.place {
        let middle = low.place + (high.place - low.place) / 2;
        let known = low.begun.min(high.begun);
        let found = compare(methods, places[middle], text, tail, known);
        if found.is_before {
            low = End {
                place: middle + 1,
                begun: found.begun,
            };
        } else {
            high = End {
                place: middle,
                begun: found.begun,
            };
        }
    }
    low.place
}

/// How the address of the method at a place stands to the text with its tail, in the order of their
/// bytes, where it is known to begin with some bytes of the text.
fn compare(methods: &[Registered], place: u32, text: &[u8], tail: &[u8], known: usize) -> Standing
    requires place { place < length methods.now }
    requires known { begins_with (take known text.now) (method_at methods.now place) ≡ true }
    requires bound { known ≤ length text.now }
    ensures before { result.is_before
        ≡ is_before (text.now ++ tail.now) (method_at methods.now place) }
    ensures begun { begins_with (take result.begun text.now) (method_at methods.now place) ≡ true }
    ensures bound { result.begun ≤ length text.now }
{
    let address = methods[place as usize].address.bytes();
    let end = address.len().min(text.len());
    for at in known..end {
        if address[at] != text[at] {
            return Standing {
                is_before: address[at] < text[at],
                begun: at,
            };
        }
    }
    Standing {
        is_before: end < text.len() || (!tail.is_empty() && is_rest_before(&address[end..], tail)),
        begun: end,
    }
}

/// Whether what is left of an address is before a text. Its first byte mostly tells.
pub(crate) fn is_rest_before(rest: &[u8], text: &[u8]) -> bool
    ensures { result ≡ is_lt (slice_cmp nat_cmp rest.now text.now) }
{
    let end = rest.len().min(text.len());
    for at in 0..end {
        if rest[at] != text[at] {
            return rest[at] < text[at];
        }
    }
    end < text.len()
}
