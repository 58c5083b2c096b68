// The methods that a pattern matches.
ghost use Rattle.osc_pattern.specs.declared.limits.TheConstants.{MAX_NAMES};
ghost use Rattle.std.specs.Prelude.{◌≡◌, ◌≤◌, ◌<◌, ◌+◌, [], None, length, drop, filter, map};
ghost use Rattle.std.specs.Prelude.{position, All, vec_len, vec_capacity, MatchBool, IfSome, Some};
ghost use Rattle.std.specs.Prelude.{false};
ghost use Rattle.std.specs.List.{list_any, slice_split};
ghost use Rattle.osc_pattern.specs.Items.{is_slash};
ghost use Rattle.osc_pattern.specs.Methods.{IsMethodList};
ghost use Rattle.osc_pattern.specs.Patterns.{parts_of, is_special, matches};
ghost use Rattle.osc_tree.specs.Matching.{matching_ids};
ghost use Rattle.osc_tree.specs.Order.{IsDepth, IsOrder};
ghost use Rattle.osc_tree.specs.Views.{methods_of, methods_at};
ghost use Rattle.osc_tree.specs.Walking.{most_steps, IsSorted, IsFront};

use crate::choice::{add_chosen, find_choice};
use crate::course::walk_found;
use crate::flat::add_flat;
use crate::guesses::Guesses;
use crate::ids::add_id;
use crate::literal::first_special;
use crate::lookup::{guessed_id, id_at};
use crate::names::{Front, names_at, whole_names};
use crate::parts::{find_parts, read_parts, ready_parts};
use crate::prefix::beginning_with;
use crate::registered::Registered;
use crate::walk::Walk;
use osc_pattern::{Pattern, Steps};
use std::sync::ledger::Ledger;

/// What a tree keeps so that less is searched: guesses of where methods stand, and a number of
/// names that no address exceeds.
#[derive(Clone, Copy)]
pub(crate) struct Hints<'a> {
    pub(crate) guesses: &'a Guesses,
    pub(crate) depth: u32,
}

/// What is found of a pattern before its walk: how many parts it has, and the whole names that all
/// methods which are walked begin with.
#[derive(Clone, Copy)]
struct Outline {
    parts: u32,
    front: Front,
}

/// Fills the list with the ids of the methods that the pattern matches, in ascending order of the
/// address. A pattern without special bytes is looked up; else only the methods that begin with its
/// literal front are tried. Where a star and a plain end of the last part are all that follows the
/// front, no name is matched. A pattern with more parts than any method's address has names matches
/// none.
#[inline(always)]
pub(crate) fn find_ids<L: Ledger>(
    methods: &[Registered],
    places: &[u32],
    hints: Hints<'_>,
    pattern: &Pattern<'_>,
    ids: &mut Vec<u32>,
    steps: &mut Steps<L>,
)
    requires list { IsMethodList (methods_of methods.now) }
    requires order { IsOrder methods.now places.now }
    requires depth { IsDepth (methods_of methods.now) hints.depth }
    requires room { length places.now ≤ vec_capacity ids.old }
    ensures ids { ids.new.items ≡ matching_ids pattern.now (methods_of methods.now) }
    ensures len { vec_len ids.new ≤ length places.now }
    ensures capacity { vec_capacity ids.old ≤ vec_capacity ids.new }
    ensures counted { steps.old ≤ steps.new }
    ensures bounded { steps.new ≤ steps.old + most_steps pattern.now (methods_of methods.now) }
{
    ids.clear();
    if add_guessed(methods, hints.guesses, pattern, ids) {
        return;
    }
    let Hints { guesses, depth } = hints;
    look_up(
        methods,
        places,
        Hints { guesses, depth },
        pattern,
        ids,
        steps,
    );
}

/// The same, where the method isn't where it is guessed to be.
#[inline(never)]
fn look_up<L: Ledger>(
    methods: &[Registered],
    places: &[u32],
    hints: Hints<'_>,
    pattern: &Pattern<'_>,
    ids: &mut Vec<u32>,
    steps: &mut Steps<L>,
)
    requires list { IsMethodList (methods_of methods.now) }
    requires order { IsOrder methods.now places.now }
    requires depth { IsDepth (methods_of methods.now) hints.depth }
    requires empty { ids.old.items ≡ [] }
    requires room { length places.now ≤ vec_capacity ids.old }
    ensures ids { ids.new.items ≡ matching_ids pattern.now (methods_of methods.now) }
    ensures len { vec_len ids.new ≤ length places.now }
    ensures capacity { vec_capacity ids.old ≤ vec_capacity ids.new }
    ensures counted { steps.old ≤ steps.new }
    ensures bounded { steps.new ≤ steps.old + most_steps pattern.now (methods_of methods.now) }
{
    let text = pattern.bytes();
    match first_special(text) {
        Some(end) => {
            if add_flat(methods, places, pattern, end, ids) {
                return;
            }
            if add_choice(methods, places, hints.guesses, pattern, end, ids) {
                return;
            }
            let parts = pattern.parts();
            if parts > hints.depth {
                return;
            }
            let near = beginning_with(methods, places, &text[..end]);
            let front = whole_names(&text[1..end]);
            walk_near(methods, near, pattern, Outline { parts, front }, ids, steps);
        }
        None => add_spelled(methods, places, pattern, ids),
    }
}

/// Adds the ids of the methods that a pattern matches which is plain but for one choice of plain
/// texts, and answers whether it is. Each text makes one address.
fn add_choice(
    methods: &[Registered],
    places: &[u32],
    guesses: &Guesses,
    pattern: &Pattern<'_>,
    end: usize,
    ids: &mut Vec<u32>,
) -> bool
    requires list { IsMethodList (methods_of methods.now) }
    requires order { IsOrder methods.now places.now }
    requires special { position is_special pattern.now ≡ Some end }
    requires empty { ids.old.items ≡ [] }
    requires room { length places.now ≤ vec_capacity ids.old }
    ensures ids { MatchBool result
        (ids.new.items ≡ matching_ids pattern.now (methods_of methods.now))
        (ids.new.items ≡ []) }
    ensures len { vec_len ids.new ≤ length places.now }
    ensures capacity { vec_capacity ids.old ≤ vec_capacity ids.new }
{
    let Some(choice) = find_choice(pattern.bytes(), end) else {
        return false;
    };
    add_chosen(methods, places, guesses, &choice, ids);
    true
}

/// Adds the id of the method whose address the pattern spells, where it stands where it is guessed
/// to, and answers whether it does. The pattern matches no other.
fn add_guessed(
    methods: &[Registered],
    guesses: &Guesses,
    pattern: &Pattern<'_>,
    ids: &mut Vec<u32>,
) -> bool
    requires list { IsMethodList (methods_of methods.now) }
    requires empty { ids.old.items ≡ [] }
    requires room { length methods.now ≤ vec_capacity ids.old }
    ensures ids { MatchBool result
        (ids.new.items ≡ matching_ids pattern.now (methods_of methods.now))
        (ids.new.items ≡ []) }
    ensures len { vec_len ids.new ≤ length methods.now }
    ensures capacity { vec_capacity ids.old ≤ vec_capacity ids.new }
{
    osc_pattern::laws::an_address_is_a_pattern();
    osc_pattern::laws::tests_are_exact();
    let Some(id) = guessed_id(methods, guesses, pattern.bytes()) else {
        return false;
    };
    add_id(id, ids);
    true
}

/// Adds the id of the method whose address the pattern spells, if there is one. It matches no
/// other.
fn add_spelled(methods: &[Registered], places: &[u32], pattern: &Pattern<'_>, ids: &mut Vec<u32>)
    requires list { IsMethodList (methods_of methods.now) }
    requires order { IsOrder methods.now places.now }
    requires plain { position is_special pattern.now ≡ None }
    requires empty { ids.old.items ≡ [] }
    requires room { length places.now ≤ vec_capacity ids.old }
    ensures ids { ids.new.items ≡ matching_ids pattern.now (methods_of methods.now) }
    ensures len { vec_len ids.new ≤ length places.now }
    ensures capacity { vec_capacity ids.old ≤ vec_capacity ids.new }
{
    osc_pattern::laws::plain_pattern();
    osc_pattern::laws::tests_are_exact();
    if let Some(id) = id_at(methods, places, pattern.bytes()) {
        add_id(id, ids);
    }
}

/// A pattern with more bytes than this is worth reading once for all names.
const SHORT_PATTERN: usize = 256;

/// Adds the ids of those of the methods at these places that the pattern matches.
fn walk_near<L: Ledger>(
    methods: &[Registered],
    near: &[u32],
    pattern: &Pattern<'_>,
    outline: Outline,
    ids: &mut Vec<u32>,
    steps: &mut Steps<L>,
)
    requires parts { outline.parts ≡ length (parts_of pattern.now) }
    requires few { outline.parts ≤ MAX_NAMES }
    requires within { All (λ place. place < length methods.now) near.now }
    requires sorted { IsSorted (methods_at methods.now near.now) }
    requires front { IsFront outline.front.names outline.front.bytes
        (methods_at methods.now near.now) }
    requires empty { ids.old.items ≡ [] }
    requires room { length near.now ≤ vec_capacity ids.old }
    ensures ids { ids.new.items ≡ map (λ method. method.id)
        (filter (λ method. matches pattern.now method.address) (methods_at methods.now near.now)) }
    ensures len { vec_len ids.new ≤ length near.now }
    ensures capacity { vec_capacity ids.old ≤ vec_capacity ids.new }
    ensures counted { steps.old ≤ steps.new }
    ensures bounded { steps.new
        ≤ steps.old + most_steps pattern.now (methods_at methods.now near.now) }
{
    if near.is_empty() {
        return;
    }
    if pattern.bytes().len() > SHORT_PATTERN {
        walk_read(methods, near, pattern, outline, ids, steps);
    } else {
        let found = find_parts(pattern, outline.parts);
        let wild = count_wild(pattern, outline.parts);
        let walk = Walk {
            methods,
            places: near,
            front: outline.front,
            pattern,
            parts: outline.parts,
            found: &found,
            wild,
            plain: plain_from(pattern, wild),
        };
        walk_found(&walk, ids, steps);
    }
}

/// The same, for a pattern whose parts are read once. It alone needs their room, some 300
/// kilobytes, and so is not put into its caller: a function touches each page of its room when it
/// is entered.
#[inline(never)]
fn walk_read<L: Ledger>(
    methods: &[Registered],
    near: &[u32],
    pattern: &Pattern<'_>,
    outline: Outline,
    ids: &mut Vec<u32>,
    steps: &mut Steps<L>,
)
    requires parts { outline.parts ≡ length (parts_of pattern.now) }
    requires few { outline.parts ≤ MAX_NAMES }
    requires within { All (λ place. place < length methods.now) near.now }
    requires sorted { IsSorted (methods_at methods.now near.now) }
    requires front { IsFront outline.front.names outline.front.bytes
        (methods_at methods.now near.now) }
    requires empty { ids.old.items ≡ [] }
    requires room { length near.now ≤ vec_capacity ids.old }
    ensures ids { ids.new.items ≡ map (λ method. method.id)
        (filter (λ method. matches pattern.now method.address) (methods_at methods.now near.now)) }
    ensures len { vec_len ids.new ≤ length near.now }
    ensures capacity { vec_capacity ids.old ≤ vec_capacity ids.new }
    ensures counted { steps.old ≤ steps.new }
    ensures bounded { steps.new
        ≤ steps.old + most_steps pattern.now (methods_at methods.now near.now) }
{
    let read = read_parts(pattern, outline.parts);
    let found = ready_parts(pattern, outline.parts, &read);
    let wild = count_wild(pattern, outline.parts);
    let walk = Walk {
        methods,
        places: near,
        front: outline.front,
        pattern,
        parts: outline.parts,
        found: &found,
        wild,
        plain: plain_from(pattern, wild),
    };
    walk_found(&walk, ids, steps);
}

/// The parts of the pattern after so many, with a slash between two.
fn plain_from<'a>(pattern: &Pattern<'a>, wild: u32) -> Option<&'a [u8]>
    ensures { IfSome result
        (λ plain. slice_split is_slash plain.now ≡ drop wild (parts_of pattern.now)) }
{
    let names = &pattern.bytes()[1..];
    let at = names_at(names, wild as usize)?;
    Some(&names[at..])
}

/// How many parts there are up to the last that has a special byte.
fn count_wild(pattern: &Pattern<'_>, parts: u32) -> u32
    requires { parts ≡ length (parts_of pattern.now) }
    ensures { All (λ part. list_any is_special part ≡ false) (drop result (parts_of pattern.now)) }
{
    if ends_special(pattern.bytes()) {
        return parts;
    }
    let mut wild = parts;
    while wild > 0 {
        if first_special(pattern.part(wild - 1)).is_some() {
            return wild;
        }
        wild -= 1;
    }
    0
}

/// Whether the last part is seen to have a special byte by its last byte alone.
fn ends_special(text: &[u8]) -> bool {
    match text {
        [.., b'*' | b'?' | b']' | b'}'] => true,
        _ => false,
    }
}
