// Reads the address of a cue.
ghost use Rattle.osc_pattern.specs.declared.limits.TheConstants.{MAX_PATTERN};
ghost use Rattle.std.specs.Prelude.{◌≡◌, ◌≤◌, ◌<◌, position, length, IsTrue, IfOk};
ghost use Rattle.std.specs.List.{list_any};
ghost use Rattle.osc_pattern.specs.Patterns.{matches, begins_with_slash, is_pattern};
ghost use Rattle.osc_cues.specs.Cues;
ghost use Rattle.osc_cues.specs.Faults.{made};
ghost use Rattle.osc_cues.specs.Cues.{address_read};

use crate::fault::{Fault, WordFault};
use osc_pattern::{Address, Pattern, Steps};
use std::marker::Brand;
use std::sync::ledger::{Blank, Ledger};

fn is_bad(byte: u8) -> bool
    ensures { result ≡ Cues.is_bad byte }
{
    !(33 <= byte && byte <= 126) || byte == b'#'
}

fn first_bad(word: &[u8]) -> Option<usize>
    ensures { result ≡ position Cues.is_bad word.now }
{
    word.iter().position(|byte| is_bad(*byte))
}

/// Whether the end or a slash is first.
fn begins_no_name(rest: &[u8]) -> bool
    ensures { result ≡ Cues.begins_no_name rest.now }
{
    match rest {
        [] => true,
        [first, ..] => *first == b'/',
    }
}

/// The first slash that no name follows.
fn empty_name(word: &[u8]) -> Option<usize>
    ensures { result ≡ Cues.empty_name 0 word.now }
{
    let mut place = 0;
    let mut rest = word;
    while let Some((first, others)) = rest.split_first() {
        if *first == b'/' && begins_no_name(others) {
            return Some(place);
        }
        place += 1;
        rest = others;
    }
    None
}

/// The first bracket or brace that isn't closed.
fn open_group(word: &[u8]) -> Option<usize>
    requires { length word.now ≤ MAX_PATTERN }
    ensures { result ≡ Cues.open_group word.now }
{
    match Pattern::check(word) {
        Ok(_) => None,
        Err(fault) => Some(fault.at as usize),
    }
}

/// The earlier of two faults.
fn earlier(empty: Option<usize>, group: Option<usize>) -> Option<WordFault>
    ensures { result ≡ Cues.earlier empty group }
{
    match empty {
        None => match group {
            None => None,
            Some(at) => Some(WordFault {
                at,
                fault: Fault::OpenGroup,
            }),
        },
        Some(at) => match group {
            None => Some(WordFault {
                at,
                fault: Fault::EmptyName,
            }),
            Some(group) => Some(earlier_of(at, group)),
        },
    }
}

fn earlier_of(empty: usize, group: usize) -> WordFault
    ensures { result ≡ Cues.earlier_of empty group }
{
    if empty < group {
        WordFault {
            at: empty,
            fault: Fault::EmptyName,
        }
    } else {
        WordFault {
            at: group,
            fault: Fault::OpenGroup,
        }
    }
}

fn has_slash(word: &[u8]) -> bool
    ensures { result ≡ begins_with_slash word.now }
{
    match word {
        [] => false,
        [first, ..] => *first == b'/',
    }
}

/// What is wrong with an address or a pattern.
fn address_fault(word: &[u8]) -> Option<WordFault>
    requires { length word.now ≤ MAX_PATTERN }
    ensures { result ≡ Cues.address_fault word.now }
{
    if !has_slash(word) {
        return Some(WordFault {
            at: 0,
            fault: Fault::NotAddress,
        });
    }
    match first_bad(word) {
        Some(at) => Some(WordFault {
            at,
            fault: Fault::AddressByte,
        }),
        None => earlier(empty_name(word), open_group(word)),
    }
}

fn matches_one(pattern: &Pattern<'_>, address: &Address) -> bool
    ensures { result ≡ matches pattern.now address.now }
{
    matches_in::<Brand>(pattern, address, Blank::new(1))
}

fn matches_in<L: Ledger>(pattern: &Pattern<'_>, address: &Address, blank: Blank) -> bool
    requires name { blank.name ≡ L.name }
    requires parts { blank.parts ≡ L.parts }
    requires some { 0 < blank.parts }
    ensures { result ≡ matches pattern.now address.now }
{
    let mut steps = Steps::<L>::new(blank);
    pattern.matches(address, &mut steps)
}

fn matches_any(pattern: &Pattern<'_>, methods: &[Address]) -> bool
    ensures { result ≡ list_any (matches pattern.now) methods.now }
{
    methods.iter().any(|method| matches_one(pattern, method))
}

/// Whether a method answers it.
fn is_answered(methods: &[Address], word: &[u8]) -> bool
    requires { length word.now ≤ MAX_PATTERN }
    ensures { result ≡ Cues.is_answered methods.now word.now }
{
    match Pattern::check(word) {
        Ok(pattern) => matches_any(&pattern, methods),
        Err(_) => false,
    }
}

/// The word, if it is an address or a pattern that a method answers.
pub(crate) fn read_address<'a>(methods: &[Address], word: &'a [u8]) -> Result<&'a [u8], WordFault>
    requires { length word.now ≤ MAX_PATTERN }
    ensures value { made (λ address. address.now) result ≡ address_read methods.now word.now }
    ensures pattern { IfOk result (λ address. IsTrue (is_pattern address.now)) }
{
    if let Some(fault) = address_fault(word) {
        return Err(fault);
    }
    if is_answered(methods, word) {
        Ok(word)
    } else {
        Err(WordFault {
            at: 0,
            fault: Fault::NoMethod,
        })
    }
}
