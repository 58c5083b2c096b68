// The places of the methods, in ascending order of their addresses.
ghost use Rattle.std.specs.Prelude.{◌≡◌, ◌≤◌, ◌<◌, ◌+◌, length, insert, map, slice_index, vec_len};
ghost use Rattle.std.specs.Prelude.{vec_capacity};
ghost use Rattle.std.specs.List.{remove};
ghost use Rattle.osc_tree.specs.Order.{closed_up};

/// A place enters, in room that is there.
pub(crate) fn enter(at: usize, place: u32, places: &mut Vec<u32>)
    requires at { at ≤ length places.old.items }
    requires room { length places.old.items < vec_capacity places.old }
    ensures items { places.new.items ≡ insert places.old.items at place }
    ensures len { vec_len places.new ≡ vec_len places.old + 1 }
    ensures capacity { vec_capacity places.old ≤ vec_capacity places.new }
{
    match places.insert(at, place) {
        Ok(()) => {}
        Err(_) => unreachable!(),
    }
}

/// The place that stands here leaves, and those above it close up.
pub(crate) fn leave(at: usize, places: &mut Vec<u32>) -> u32
    requires { at < length places.old.items }
    ensures place { result ≡ slice_index places.old.items at }
    ensures items { places.new.items ≡ map (closed_up result) (remove places.old.items at) }
    ensures capacity { vec_capacity places.new ≡ vec_capacity places.old }
{
    let place = places.remove(at);
    close_up(place, places);
    place
}

fn close_up(place: u32, places: &mut Vec<u32>)
    ensures items { places.new.items ≡ map (closed_up place) places.old.items }
    ensures capacity { vec_capacity places.new ≡ vec_capacity places.old }
{
    for other in places.iter_mut() {
        *other = closed_up(place, *other);
    }
}

/// Where a place stands once another is taken out.
fn closed_up(place: u32, other: u32) -> u32
    ensures { result ≡ closed_up place other }
{
    if place < other { other - 1 } else { other }
}
