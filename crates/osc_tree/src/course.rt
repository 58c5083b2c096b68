// The course of a walk along the methods that begin as a pattern does.
ghost use Rattle.std.specs.Prelude.{◌≡◌, ◌≤◌, ◌<◌, ◌+◌, ◌++◌, ◌==◌, ◌&&◌, [], nat_lt};
ghost use Rattle.std.specs.Prelude.{if◌then◌else◌, true, length, take, drop, filter, map, get_or};
ghost use Rattle.std.specs.Prelude.{All, vec_len, vec_capacity, IfSome, false, ℕ, List, suc};
ghost use Rattle.std.specs.List.{slice_split};
ghost use Rattle.osc_pattern.specs.Items.{is_slash};
ghost use Rattle.osc_pattern.specs.Patterns.{parts_of, matches};
ghost use Rattle.osc_tree.specs.Views.{methods_at};
ghost use Rattle.osc_tree.specs.Walking.{most_steps, IsWalked, is_ahead};
ghost use Rattle.osc_tree.specs.Trials.{IsSet, IsTried, IsBelow, spelled_at};
ghost use Rattle.std.specs.Str.{bytes_eq};
ghost use Rattle.osc_pattern.specs.Methods.{Method};

use crate::agreement::{count_matching, known_at};
use crate::common_names::count_sharing;
use crate::ids::add_id;
use crate::names::{names_at, names_of};
use crate::search::{count_before_near, is_rest_before};
use crate::walk::{Pace, Tried, Walk};
use crate::way::find_way;
use osc_pattern::Steps;
use std::sync::ledger::Ledger;

/// Adds the ids of those of the methods that the pattern matches, by a walk along all of them.
pub(crate) fn walk_found<L: Ledger>(walk: &Walk<'_>, ids: &mut Vec<u32>, steps: &mut Steps<L>)
    requires set { IsSet walk.now }
    requires empty { ids.old.items ≡ [] }
    requires room { length walk.now.places.now ≤ vec_capacity ids.old }
    ensures ids { ids.new.items ≡ map (λ method. method.id)
        (filter (λ method. matches walk.now.pattern.now method.address)
        (methods_at walk.now.methods.now walk.now.places.now)) }
    ensures len { vec_len ids.new ≤ length walk.now.places.now }
    ensures capacity { vec_capacity ids.old ≤ vec_capacity ids.new }
    ensures counted { steps.old ≤ steps.new }
    ensures bounded { steps.new ≤ steps.old + most_steps walk.now.pattern.now
        (methods_at walk.now.methods.now walk.now.places.now) }
{
    let mut at = 0;
    let mut pace = Pace::new();
    while at < walk.places.len() {
        let (next, after) = visit(walk, at, pace, ids, steps);
        at = next;
        pace = after;
    }
}

/// How many bytes the names take up to the last part that isn't plain. With these names no other
/// method matches.
fn find_past(names: &[u8], wild: u32, parts: u32) -> Option<usize>
    ensures bound { IfSome result (λ at. at ≤ length names.now) }
    ensures cut { IfSome result (λ at. slice_split is_slash (drop at names.now)
        ≡ drop wild (slice_split is_slash names.now)) }
    ensures some { IfSome result (λ at. wild < parts) }
{
    if wild >= parts {
        return None;
    }
    names_at(names, wild as usize)
}

/// Tries the method at this place, and tells where to go on: after all methods below the first node
/// whose part doesn't match. What the method has in common with the one before it isn't matched
/// again.
#[inline(always)]
fn visit<L: Ledger>(
    walk: &Walk<'_>,
    at: usize,
    pace: Pace,
    ids: &mut Vec<u32>,
    steps: &mut Steps<L>,
) -> (usize, Pace)
    requires set { IsSet walk.now }
    requires at { at < length walk.now.places.now }
    requires walked { IsWalked walk.now.pattern.now
        (methods_at walk.now.methods.now walk.now.places.now) at ids.old.items }
    requires room { length walk.now.places.now ≤ vec_capacity ids.old }
    ensures on { at < result.0 }
    ensures walked { IsWalked walk.now.pattern.now
        (methods_at walk.now.methods.now walk.now.places.now) result.0 ids.new.items }
    ensures capacity { vec_capacity ids.old ≤ vec_capacity ids.new }
    ensures counted { steps.old ≤ steps.new }
    ensures bounded { steps.new + most_steps walk.now.pattern.now
        (take at (methods_at walk.now.methods.now walk.now.places.now))
        ≤ steps.old + most_steps walk.now.pattern.now
        (take result.0 (methods_at walk.now.methods.now walk.now.places.now)) }
{
    let (methods, places) = (walk.methods, walk.places);
    let method = &methods[places[at] as usize];
    let names = names_of(&method.address);
    let known = known_at(methods, places, at, names, walk.front);
    let agreement = count_matching(walk.pattern, walk.parts, walk.found, known, names, steps);
    let tried = Tried {
        address: method.address.bytes(),
        names,
        matching: agreement.matching,
        is_whole: agreement.is_whole,
        is_last: agreement.is_last,
        is_ended: agreement.is_ended,
    };
    go_on(walk, at, &tried, method.id, pace, ids)
}

/// Adds the id of the method that was tried, if it matches, and where only plain parts are left,
/// that of the method that they make with its names. Tells where to go on.
#[inline(always)]
fn go_on(
    walk: &Walk<'_>,
    at: usize,
    tried: &Tried<'_>,
    id: u32,
    pace: Pace,
    ids: &mut Vec<u32>,
) -> (usize, Pace)
    requires set { IsSet walk.now }
    requires tried { IsTried walk.now.pattern.now
        (methods_at walk.now.methods.now walk.now.places.now) at tried.now.address.now
        tried.now.names.now tried.now.matching }
    requires id { (d : Method)
        → id ≡ (get_or (methods_at walk.now.methods.now walk.now.places.now) at d).id }
    requires whole { tried.now.is_whole ≡ (tried.now.matching == walk.now.parts
        && tried.now.matching == length (slice_split is_slash tried.now.names.now)) }
    requires last { tried.now.is_last ≡ true
        → length (slice_split is_slash tried.now.names.now) ≤ tried.now.matching + 1 }
    requires more { tried.now.is_last ≡ true → tried.now.is_whole ≡ false
        → tried.now.matching < walk.now.parts }
    requires walked { IsWalked walk.now.pattern.now
        (methods_at walk.now.methods.now walk.now.places.now) at ids.old.items }
    requires room { length walk.now.places.now ≤ vec_capacity ids.old }
    ensures on { at < result.0 }
    ensures walked { IsWalked walk.now.pattern.now
        (methods_at walk.now.methods.now walk.now.places.now) result.0 ids.new.items }
    ensures capacity { vec_capacity ids.old ≤ vec_capacity ids.new }
{
    if tried.is_whole {
        add_id(id, ids);
        return pass_hit(walk, at, tried, pace);
    }
    match find_below(walk, tried) {
        Some((bytes, plain)) => {
            let text = &tried.address[..1 + bytes];
            take_below(walk, at, text, plain, pace, ids)
        }
        None => pass_miss(walk, at, tried, pace),
    }
}

/// Where to go on after a method that matches.
fn pass_hit(walk: &Walk<'_>, at: usize, tried: &Tried<'_>, pace: Pace) -> (usize, Pace)
    requires set { IsSet walk.now }
    requires tried { IsTried walk.now.pattern.now
        (methods_at walk.now.methods.now walk.now.places.now) at tried.now.address.now
        tried.now.names.now tried.now.matching }
    requires parts { tried.now.matching ≡ walk.now.parts }
    requires names { tried.now.matching ≡ length (slice_split is_slash tried.now.names.now) }
    ensures on { at < result.0 }
    ensures walked { (ids : List ℕ)
        → IsWalked walk.now.pattern.now
        (methods_at walk.now.methods.now walk.now.places.now) (suc at) ids
        → IsWalked walk.now.pattern.now
        (methods_at walk.now.methods.now walk.now.places.now) result.0 ids }
{
    let Some(bytes) = find_past(tried.names, walk.wild, walk.parts) else {
        return (at + 1, pace);
    };
    let text = &tried.address[..1 + bytes];
    let next = count_before_near(walk.methods, walk.places, at + 1, pace.past, text, b"\x7f");
    (next, pace.passed(next.saturating_sub(at + 1)))
}

/// How many bytes the names take up to the last part that isn't plain, and the plain parts, where
/// those names match and the method is before the one address that they make. Where the method has
/// no more names, none can.
fn find_below<'a>(walk: &Walk<'a>, tried: &Tried<'_>) -> Option<(usize, &'a [u8])>
    requires rest { IfSome walk.now.plain
        (λ plain. slice_split is_slash plain.now
        ≡ drop walk.now.wild (parts_of walk.now.pattern.now)) }
    ensures some { IfSome result (λ below. walk.now.wild ≤ tried.now.matching) }
    ensures bound { IfSome result (λ below. below.0 ≤ length tried.now.names.now) }
    ensures cut { IfSome result (λ below. slice_split is_slash (drop below.0 tried.now.names.now)
        ≡ drop walk.now.wild (slice_split is_slash tried.now.names.now)) }
    ensures rest { IfSome result (λ below. slice_split is_slash below.1.now
        ≡ drop walk.now.wild (parts_of walk.now.pattern.now)) }
    ensures before { IfSome result
        (λ below. is_ahead (drop below.0 tried.now.names.now) below.1.now ≡ true) }
{
    let plain = walk.plain?;
    if tried.is_ended || tried.matching < walk.wild {
        return None;
    }
    let bytes = names_before(tried.names, walk.wild, plain)?;
    Some((bytes, plain))
}

/// How many bytes so many names take, where what follows them is before the text.
#[inline(never)]
fn names_before(names: &[u8], count: u32, text: &[u8]) -> Option<usize>
    ensures bound { IfSome result (λ at. at ≤ length names.now) }
    ensures cut { IfSome result (λ at. slice_split is_slash (drop at names.now)
        ≡ drop count (slice_split is_slash names.now)) }
    ensures before { IfSome result (λ at. is_ahead (drop at names.now) text.now ≡ true) }
{
    let bytes = names_at(names, count as usize)?;
    if !is_rest_before(&names[bytes..], text) {
        return None;
    }
    Some(bytes)
}

/// Adds the id of the method whose address is the text and the plain parts, if there is one, and
/// passes over all that begin with the text.
fn take_below(
    walk: &Walk<'_>,
    at: usize,
    text: &[u8],
    plain: &[u8],
    pace: Pace,
    ids: &mut Vec<u32>,
) -> (usize, Pace)
    requires set { IsSet walk.now }
    requires below { IsBelow walk.now.pattern.now
        (methods_at walk.now.methods.now walk.now.places.now) at walk.now.wild text.now plain.now }
    requires walked { IsWalked walk.now.pattern.now
        (methods_at walk.now.methods.now walk.now.places.now) at ids.old.items }
    requires room { length walk.now.places.now ≤ vec_capacity ids.old }
    ensures on { at < result.0 }
    ensures walked { IsWalked walk.now.pattern.now
        (methods_at walk.now.methods.now walk.now.places.now) result.0 ids.new.items }
    ensures capacity { vec_capacity ids.old ≤ vec_capacity ids.new }
{
    let next = count_before_near(walk.methods, walk.places, at + 1, pace.onward, text, plain);
    add_spelled_at(walk, next, text, plain, ids);
    let end = count_before_near(walk.methods, walk.places, at + 1, pace.past, text, b"\x7f");
    let after = pace.went_on(next.saturating_sub(at + 1));
    (end, after.passed(end.saturating_sub(at + 1)))
}

/// Adds the id of the method at the place, if its address is the text and the plain parts.
fn add_spelled_at(walk: &Walk<'_>, place: usize, text: &[u8], plain: &[u8], ids: &mut Vec<u32>)
    requires within { All (λ place. place < length walk.now.methods.now) walk.now.places.now }
    requires room { vec_len ids.old < vec_capacity ids.old }
    ensures ids { ids.new.items ≡ ids.old.items
        ++ spelled_at (methods_at walk.now.methods.now walk.now.places.now) place
        (text.now ++ plain.now) }
    ensures capacity { vec_capacity ids.old ≤ vec_capacity ids.new }
{
    if place >= walk.places.len() {
        return;
    }
    let method = &walk.methods[walk.places[place] as usize];
    if is_spelled(method.address.bytes(), text, plain) {
        add_id(method.id, ids);
    }
}

/// Whether the address is the text and the plain parts.
fn is_spelled(address: &[u8], text: &[u8], plain: &[u8]) -> bool
    ensures { result ≡ bytes_eq address.now (text.now ++ plain.now) }
{
    address.starts_with(text) && &address[text.len()..] == plain
}

/// Where to go on after a method that doesn't match.
fn pass_miss(walk: &Walk<'_>, at: usize, tried: &Tried<'_>, pace: Pace) -> (usize, Pace)
    requires set { IsSet walk.now }
    requires tried { IsTried walk.now.pattern.now
        (methods_at walk.now.methods.now walk.now.places.now) at tried.now.address.now
        tried.now.names.now tried.now.matching }
    requires whole { (tried.now.matching == walk.now.parts
        && tried.now.matching == length (slice_split is_slash tried.now.names.now)) ≡ false }
    requires last { tried.now.is_last ≡ true
        → length (slice_split is_slash tried.now.names.now) ≤ tried.now.matching + 1 }
    requires more { tried.now.is_last ≡ true → tried.now.matching < walk.now.parts }
    ensures on { at < result.0 }
    ensures walked { (ids : List ℕ)
        → IsWalked walk.now.pattern.now
        (methods_at walk.now.methods.now walk.now.places.now) at ids
        → IsWalked walk.now.pattern.now
        (methods_at walk.now.methods.now walk.now.places.now) result.0 ids }
{
    if let Some(way) = find_way(walk, tried, pace.idle) {
        let text = &tried.address[..1 + way.bytes + way.kept];
        let guess = pace.guess(way.is_aim);
        let next = count_before_near(walk.methods, walk.places, at + 1, guess, text, way.tail);
        return (next, pace.went(way.is_aim, next.saturating_sub(at + 1)));
    }
    if tried.is_last {
        return (at + 1, pace.waited());
    }
    let least = least_shared(tried.matching, walk.parts) as usize;
    let more = count_sharing(walk.methods, &walk.places[at + 1..], tried.names, least);
    (at + 1 + more, pace.waited())
}

/// How many names are shared by all methods that are passed over with one whose parts match so far.
fn least_shared(matching: u32, parts: u32) -> u32
    requires { matching ≤ parts }
    ensures { result ≡ if nat_lt matching parts then matching + 1 else matching }
{
    if matching < parts {
        matching + 1
    } else {
        matching
    }
}
