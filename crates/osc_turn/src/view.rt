//! What a pass knows. These types are for the proofs alone, and no value of them is made.
use std::collections::LinkedList;

/// One entry of the turn's history, under the number of the pass that made it.
pub struct Entry {
    /// The number of the pass.
    pub number: u64,
    /// What was entered.
    pub text: LinkedList<u64>,
}

/// What one of two joined views had seen, and its numbers.
pub struct Past {
    /// Its numbers.
    pub numbers: LinkedList<u64>,
    /// What it had seen of the history.
    pub seen: LinkedList<Entry>,
}

/// What a pass knows of its turn.
pub struct View {
    /// A pass has one number. What was joined has several, and what is only told has none.
    pub numbers: LinkedList<u64>,
    /// A number that was drawn and is not given to a pass yet, if any.
    pub spare: LinkedList<u64>,
    /// The number of passes that were made, in the view that has the number 0, and 0 in every other.
    pub made: u64,
    /// The beginning of the history that it has seen.
    pub seen: LinkedList<Entry>,
    /// The two lists that met at the last join.
    pub olds: LinkedList<Past>,
    /// The turn's words that were found, in order.
    pub words: LinkedList<u64>,
    /// How often it took the turn.
    pub taken: u64,
    /// Whether it has the turn, and the value with it.
    pub holds: bool,
    /// The kind of the value.
    pub kind: LinkedList<u64>,
    /// How many entries the history had when the turn was opened.
    pub opened_at: u64,
}
