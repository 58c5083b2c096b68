// The method that is nearest to an address that none answers.
ghost use Rattle.std.specs.Prelude.{◌≡◌, IfOk, option_map};
ghost use Rattle.osc_cues.specs.Guesses;

use osc_pattern::Address;
use std::alloc::{AllocError, Global};
use strsim::generic_levenshtein;

/// A name, and how far it is.
type Guess<'a> = (usize, &'a [u8]);

/// How far a name may be from a word.
fn reach_of(word: &[u8]) -> usize
    ensures { result ≡ Guesses.reach word.now }
{
    1.max(3.min(word.len() / 3))
}

fn are_close(most: usize, one: usize, other: usize) -> bool
    ensures { result ≡ Guesses.are_close most one other }
{
    one.saturating_sub(other) <= most && other.saturating_sub(one) <= most
}

/// How far a name is, where it is near.
fn distance_near(alloc: Global, word: &[u8], name: &[u8]) -> Result<Option<usize>, AllocError>
    ensures { IfOk result (λ far. far ≡ Guesses.distance_near word.now name.now) }
{
    let reach = reach_of(word);
    if !are_close(reach, word.len(), name.len()) {
        return Ok(None);
    }
    let far = generic_levenshtein(alloc, word, name)?;
    Ok(if far <= reach { Some(far) } else { None })
}

fn is_before(name: &[u8], other: &[u8]) -> bool
    ensures { result ≡ Guesses.is_before name.now other.now }
{
    name.cmp(other).is_lt()
}

/// Whether a guess is better than another.
fn is_better(one: Guess<'_>, other: Guess<'_>) -> bool
    ensures { result ≡ Guesses.is_better (one.entry.0, one.entry.1.now)
        (other.entry.0, other.entry.1.now) }
{
    one.0 < other.0 || one.0 == other.0 && is_before(one.1, other.1)
}

/// The better of the best so far and a name at this distance.
fn better<'a>(best: Option<Guess<'a>>, far: Option<usize>, name: &'a [u8]) -> Option<Guess<'a>>
    ensures { option_map (λ guess. (guess.0, guess.1.now)) result
        ≡ Guesses.better (option_map (λ guess. (guess.0, guess.1.now)) best.entry) far
        name.now }
{
    let Some(far) = far else {
        return best;
    };
    match best {
        None => Some((far, name)),
        Some(other) => {
            if is_better((far, name), other) {
                Some((far, name))
            } else {
                Some(other)
            }
        }
    }
}

/// The best guess among methods.
fn best_of<'a>(
    alloc: Global,
    word: &[u8],
    methods: &'a [Address],
) -> Result<Option<Guess<'a>>, AllocError>
    ensures { IfOk result (λ best. option_map (λ guess. (guess.0, guess.1.now)) best
        ≡ Guesses.best_from None word.now methods.now) }
{
    let mut best = None;
    for method in methods {
        let far = distance_near(alloc, word, method.bytes())?;
        best = better(best, far, method.bytes());
    }
    Ok(best)
}

/// The method that is nearest to a word.
pub(crate) fn nearest<'a>(
    alloc: Global,
    word: &[u8],
    methods: &'a [Address],
) -> Result<Option<&'a [u8]>, AllocError>
    ensures { IfOk result
        (λ name. option_map (λ bytes. bytes.now) name ≡ Guesses.nearest word.now methods.now) }
{
    match best_of(alloc, word, methods)? {
        None => Ok(None),
        Some((_, name)) => Ok(Some(name)),
    }
}
