// What a walk along the methods knows: what doesn't change, the method that it tries, and how it
// went so far.

use crate::names::Front;
use crate::registered::Registered;
use osc_pattern::{MAX_NAMES, Part, Pattern};

/// What a walk doesn't change: the methods and the places that it goes along, the names that all of
/// these begin with, the parts of the pattern, and the plain ones after the last that has a special
/// byte.
#[derive(Clone, Copy)]
pub(crate) struct Walk<'a> {
    pub(crate) methods: &'a [Registered],
    pub(crate) places: &'a [u32],
    pub(crate) front: Front,
    pub(crate) pattern: &'a Pattern<'a>,
    pub(crate) parts: u32,
    pub(crate) found: &'a [Part<'a>; MAX_NAMES],
    pub(crate) wild: u32,
    pub(crate) plain: Option<&'a [u8]>,
}

/// How a walk went so far: how many methods were tried in vain since it last went on by a search,
/// and how many it passed over when it last went past a hit, to a text, and over a node.
#[derive(Clone, Copy)]
pub(crate) struct Pace {
    pub(crate) idle: u32,
    pub(crate) past: usize,
    pub(crate) onward: usize,
    pub(crate) over: usize,
}

impl Pace {
    pub(crate) fn new() -> Pace {
        Pace {
            idle: 0,
            past: 0,
            onward: 0,
            over: 0,
        }
    }

    /// After a method that matches, and a search past so many.
    pub(crate) fn passed(self, count: usize) -> Pace {
        Pace {
            idle: 0,
            past: count,
            onward: self.onward,
            over: self.over,
        }
    }

    /// After a method that doesn't match, and a search past so many.
    pub(crate) fn went_on(self, count: usize) -> Pace {
        Pace {
            idle: 0,
            past: self.past,
            onward: count,
            over: self.over,
        }
    }

    /// How many are guessed to be passed over, to an aim or over a node.
    pub(crate) fn guess(self, is_aim: bool) -> usize {
        if is_aim { self.onward } else { self.over }
    }

    /// After a method that doesn't match, and a search past so many, to an aim or over a node.
    pub(crate) fn went(self, is_aim: bool, count: usize) -> Pace {
        if is_aim {
            return self.went_on(count);
        }
        Pace {
            idle: self.idle.saturating_add(1),
            past: self.past,
            onward: self.onward,
            over: count,
        }
    }

    /// After one more method that was tried in vain.
    pub(crate) fn waited(self) -> Pace {
        Pace {
            idle: self.idle.saturating_add(1),
            past: self.past,
            onward: self.onward,
            over: self.over,
        }
    }
}

/// A method that was tried: its address and its names, how many of these match, whether they are
/// all names and all parts, whether no more than one name stands after them, and whether none does
/// where parts are left.
#[derive(Clone, Copy)]
pub(crate) struct Tried<'a> {
    pub(crate) address: &'a [u8],
    pub(crate) names: &'a [u8],
    pub(crate) matching: u32,
    pub(crate) is_whole: bool,
    pub(crate) is_last: bool,
    pub(crate) is_ended: bool,
}
