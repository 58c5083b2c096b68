// Where a message goes.
ghost use Rattle.std.specs.Prelude.{◌≡◌, ◌∷◌, ◌++◌, [], List, OnOk, IfSome, IsNone};
ghost use Rattle.std.specs.Prelude.{bytes_eq, length};
ghost use Rattle.osc_shown.specs.declared.route.Route.{Route};
ghost use Rattle.osc_shown.specs.Places.{hits, to_words, unless_same, run_end, before_next, listed};
ghost use Rattle.osc_shown.specs.Places.{unlisted, arrow, going, hits_listed};

use crate::bytes::{add, add_byte};
use crate::number::add_thousands;
use crate::route::{Route, reaches};
use osc_pattern::Pattern;
use std::alloc::AllocError;

/// How many addresses are listed, where not all are.
pub(crate) const MOST_LISTED: usize = 4;

/// Adds where a pattern goes: the addresses that it matches and where they send, or that it matches
/// none. The list is whole, or has the first four.
pub(crate) fn add_going(
    out: &mut Vec<u8>,
    whole: bool,
    pattern: &Pattern<'_>,
    routes: &[Route],
) -> Result<(), AllocError>
    ensures { OnOk result (out.new.items
        ≡ out.old.items ++ going whole pattern.now (hits pattern.now routes.now)) }
{
    match split_hit(pattern, routes) {
        Some((hit, after)) => add_found(out, whole, pattern, routes, hit, after),
        None => add(out, b"no method"),
    }
}

/// The same where it matches the address of a route, and others of those after it.
fn add_found(
    out: &mut Vec<u8>,
    whole: bool,
    pattern: &Pattern<'_>,
    routes: &[Route],
    hit: &Route,
    after: &[Route],
) -> Result<(), AllocError>
    requires { hits pattern.now routes.now ≡ hit.now ∷ hits pattern.now after.now }
    ensures { OnOk result (out.new.items
        ≡ out.old.items ++ going whole pattern.now (hit.now ∷ hits pattern.now after.now)) }
{
    let more = count_hits(pattern, after);
    if more == 0 && is_address(hit, pattern) {
        return add_arrow(out, &hit.to);
    }
    add(out, b"-> ")?;
    add_hits(out, whole, pattern, routes, more)
}

/// Adds the addresses of the hits, which are one and so many more: all, or the first four and how
/// many more there are.
fn add_hits(
    out: &mut Vec<u8>,
    whole: bool,
    pattern: &Pattern<'_>,
    routes: &[Route],
    more: usize,
) -> Result<(), AllocError>
    ensures { OnOk result (out.new.items
        ≡ out.old.items ++ hits_listed whole (hits pattern.now routes.now) more) }
{
    if whole {
        return add_listed(out, pattern, routes, count_hits(pattern, routes));
    }
    add_listed(out, pattern, routes, MOST_LISTED)?;
    add_unlisted(out, more)
}

/// Whether the pattern is the route's address.
fn is_address(hit: &Route, pattern: &Pattern<'_>) -> bool
    ensures { result ≡ bytes_eq hit.now.address pattern.now }
{
    hit.address.bytes() == pattern.bytes()
}

/// Adds an arrow and where a method sends, if it sends.
fn add_arrow(out: &mut Vec<u8>, to: &[u8]) -> Result<(), AllocError>
    ensures { OnOk result (out.new.items ≡ out.old.items ++ arrow to.now) }
{
    if to.is_empty() {
        return Ok(());
    }
    add(out, b"-> ")?;
    add(out, to)
}

/// Adds the addresses that the pattern matches, at most so many, and where they send.
fn add_listed(
    out: &mut Vec<u8>,
    pattern: &Pattern<'_>,
    routes: &[Route],
    most: usize,
) -> Result<(), AllocError>
    ensures { OnOk result (out.new.items
        ≡ out.old.items ++ listed most (hits pattern.now routes.now)) }
{
    let mut rest = routes;
    let mut left = most;
    while left > 0 {
        let Some((hit, after)) = split_hit(pattern, rest) else {
            return Ok(());
        };
        left -= 1;
        add_hit(out, pattern, hit, after, left > 0)?;
        rest = after;
    }
    Ok(())
}

/// Adds a method's address, where it sends unless the next one sends there too, and a comma if the
/// next one is listed.
fn add_hit(
    out: &mut Vec<u8>,
    pattern: &Pattern<'_>,
    hit: &Route,
    after: &[Route],
    goes_on: bool,
) -> Result<(), AllocError>
    ensures { OnOk result (out.new.items ≡ out.old.items ++ (hit.now.address
        ++ run_end hit.now (hits pattern.now after.now)
        ++ before_next goes_on (hits pattern.now after.now))) }
{
    add(out, hit.address.bytes())?;
    match split_hit(pattern, after) {
        Some((next, _)) => add_between(out, hit, next, goes_on),
        None => add_to(out, &hit.to),
    }
}

/// Adds where a method sends, unless the next one sends there too, and a comma if the next one is
/// listed.
fn add_between(
    out: &mut Vec<u8>,
    hit: &Route,
    next: &Route,
    goes_on: bool,
) -> Result<(), AllocError>
    ensures { (more : List Route) → OnOk result (out.new.items ≡ out.old.items
        ++ (run_end hit.now (next.now ∷ more) ++ before_next goes_on (next.now ∷ more))) }
{
    add_unless_same(out, &hit.to, &next.to)?;
    if goes_on {
        return add(out, b", ");
    }
    Ok(())
}

fn add_unless_same(out: &mut Vec<u8>, to: &[u8], next: &[u8]) -> Result<(), AllocError>
    ensures { OnOk result (out.new.items ≡ out.old.items ++ unless_same to.now next.now) }
{
    if to == next {
        return Ok(());
    }
    add_to(out, to)
}

/// Adds a space and where a method sends, if it sends.
fn add_to(out: &mut Vec<u8>, to: &[u8]) -> Result<(), AllocError>
    ensures { OnOk result (out.new.items ≡ out.old.items ++ to_words to.now) }
{
    if to.is_empty() {
        return Ok(());
    }
    add_byte(out, b' ')?;
    add(out, to)
}

/// Adds how many addresses aren't listed, of so many after the first.
pub(crate) fn add_unlisted(out: &mut Vec<u8>, more: usize) -> Result<(), AllocError>
    ensures { OnOk result (out.new.items ≡ out.old.items ++ unlisted more) }
{
    if more < MOST_LISTED {
        return Ok(());
    }
    add(out, b" and ")?;
    add_thousands(out, (more - (MOST_LISTED - 1)) as u64)?;
    add(out, b" more")
}

/// How many addresses the pattern matches.
pub(crate) fn count_hits(pattern: &Pattern<'_>, routes: &[Route]) -> usize
    ensures { result ≡ length (hits pattern.now routes.now) }
{
    routes
        .iter()
        .filter(|route| reaches(pattern, route))
        .count()
}

/// The first route whose address the pattern matches, and those after it.
fn split_hit<'a>(pattern: &Pattern<'_>, routes: &'a [Route]) -> Option<(&'a Route, &'a [Route])>
    ensures some { IfSome result
        (λ pair. hits pattern.now routes.now ≡ pair.0.now ∷ hits pattern.now pair.1.now) }
    ensures none { IsNone result → hits pattern.now routes.now ≡ [] }
{
    let mut rest = routes;
    while let Some((route, after)) = rest.split_first() {
        if reaches(pattern, route) {
            return Some((route, after));
        }
        rest = after;
    }
    None
}
