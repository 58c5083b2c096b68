// The methods that a pattern matches which is plain but for one star in its last part.
ghost use Rattle.std.specs.Prelude.{◌≡◌, ◌≤◌, ◌<◌, [], length, take, filter, map, position};
ghost use Rattle.std.specs.Prelude.{All, Some, IfSome, MatchBool, nat_eq, vec_len, vec_capacity};
ghost use Rattle.std.specs.List.{ends_with};
ghost use Rattle.osc_pattern.specs.Methods.{IsMethodList};
ghost use Rattle.osc_pattern.specs.Patterns.{is_special};
ghost use Rattle.osc_tree.specs.Choosing.{IsPlainStar};
ghost use Rattle.osc_tree.specs.Matching.{matching_ids};
ghost use Rattle.osc_tree.specs.Order.{IsOrder, is_flat};
ghost use Rattle.osc_tree.specs.Views.{methods_of, methods_at};
ghost use Rattle.osc_tree.specs.Walking.{IsSorted};

use crate::choice::first_odd;
use crate::ids::add_id;
use crate::names::first_slash;
use crate::prefix::beginning_with;
use crate::registered::Registered;
use crate::search::count_before_near;
use osc_pattern::Pattern;

/// Where a name ends that the star and what is before it match, and what it ends with.
#[derive(Clone, Copy)]
struct Flat<'a> {
    from: usize,
    tail: &'a [u8],
}

/// Adds the ids of the methods that a pattern matches which is plain but for one star in its last
/// part, and answers whether it is. They are those that begin with what stands before the star, and
/// have after that no slash, and at the end what stands after the star: no name is matched.
pub(crate) fn add_flat(
    methods: &[Registered],
    places: &[u32],
    pattern: &Pattern<'_>,
    end: usize,
    ids: &mut Vec<u32>,
) -> bool
    requires list { IsMethodList (methods_of methods.now) }
    requires order { IsOrder methods.now places.now }
    requires special { position is_special pattern.now ≡ Some end }
    requires empty { ids.old.items ≡ [] }
    requires room { length places.now ≤ vec_capacity ids.old }
    ensures ids { MatchBool result
        (ids.new.items ≡ matching_ids pattern.now (methods_of methods.now))
        (ids.new.items ≡ []) }
    ensures len { vec_len ids.new ≤ length places.now }
    ensures capacity { vec_capacity ids.old ≤ vec_capacity ids.new }
{
    let text = pattern.bytes();
    let Some(tail) = after_star(&text[end..]) else {
        return false;
    };
    let near = beginning_with(methods, places, &text[..end]);
    let from = end;
    if tail.is_empty() {
        // (a literal, so that the compiler drops the test of each name's end)
        add_near(methods, near, &Flat { from, tail: &[] }, ids);
    } else {
        add_near(methods, near, &Flat { from, tail }, ids);
    }
    true
}

/// What stands after the star that a text begins with, where it is plain and has no slash.
fn after_star(text: &[u8]) -> Option<&[u8]>
    ensures { IfSome result (λ tail. IsPlainStar text.now tail.now) }
{
    if text.is_empty() || text[0] != b'*' {
        return None;
    }
    let tail = &text[1..];
    match first_odd(tail) {
        Some(_) => None,
        None => Some(tail),
    }
}

/// Adds the ids of those of the methods at these places that have no slash from a byte on, and end
/// with the tail after it.
#[inline(always)]
fn add_near(methods: &[Registered], near: &[u32], flat: &Flat<'_>, ids: &mut Vec<u32>)
    requires within { All (λ place. place < length methods.now) near.now }
    requires sorted { IsSorted (methods_at methods.now near.now) }
    requires long { All (λ method. flat.now.from ≤ length method.address)
        (methods_at methods.now near.now) }
    requires empty { ids.old.items ≡ [] }
    requires room { length near.now ≤ vec_capacity ids.old }
    ensures ids { ids.new.items ≡ map (λ method. method.id)
        (filter (is_flat flat.now.from flat.now.tail.now) (methods_at methods.now near.now)) }
    ensures len { vec_len ids.new ≤ length near.now }
    ensures capacity { vec_capacity ids.old ≤ vec_capacity ids.new }
{
    let mut at = 0;
    let mut over = 0;
    while at < near.len() {
        let (next, passed) = add_one(methods, near, at, over, flat, ids);
        at = next;
        over = passed;
    }
}

/// Adds the id of the method at a place, if it has no slash from a byte on and ends with the tail
/// after it. Where it has a slash, it passes over all that begin as the method does up to that.
/// Tells where to go on, and how many were passed over last.
#[inline(always)]
fn add_one(
    methods: &[Registered],
    near: &[u32],
    at: usize,
    over: usize,
    flat: &Flat<'_>,
    ids: &mut Vec<u32>,
) -> (usize, usize)
    requires within { All (λ place. place < length methods.now) near.now }
    requires sorted { IsSorted (methods_at methods.now near.now) }
    requires long { All (λ method. flat.now.from ≤ length method.address)
        (methods_at methods.now near.now) }
    requires at { at < length near.now }
    requires found { ids.old.items ≡ map (λ method. method.id)
        (filter (is_flat flat.now.from flat.now.tail.now)
        (take at (methods_at methods.now near.now))) }
    requires room { length near.now ≤ vec_capacity ids.old }
    ensures on { at < result.0 }
    ensures bound { result.0 ≤ length near.now }
    ensures found { ids.new.items ≡ map (λ method. method.id)
        (filter (is_flat flat.now.from flat.now.tail.now)
        (take result.0 (methods_at methods.now near.now))) }
    ensures capacity { vec_capacity ids.old ≤ vec_capacity ids.new }
{
    let method = &methods[near[at] as usize];
    let address = method.address.bytes();
    let rest = &address[flat.from..];
    match first_slash(rest) {
        None => {
            if !has_tail(rest, flat.tail) {
                return (at + 1, over);
            }
            add_id(method.id, ids);
            (at + 1, over)
        }
        Some(size) => {
            let node = &address[..flat.from + size];
            let next = count_before_near(methods, near, at + 1, over, node, b"0");
            (next, next.saturating_sub(at + 1))
        }
    }
}

/// Whether what is left of a name ends with the tail.
#[inline(always)]
fn has_tail(rest: &[u8], tail: &[u8]) -> bool
    ensures { result ≡ ends_with nat_eq rest.now tail.now }
{
    tail.is_empty() || rest.ends_with(tail)
}
