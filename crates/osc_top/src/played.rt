// The result of a script and of a bank.

use osc_ends::Recorded;

/// The result of a script and of a bank.
#[derive(Drop)]
pub(crate) struct Played<M> {
    pub(crate) recorded: Recorded,
    /// The methods that were added, by ascending ids.
    pub(crate) heard: Vec<(u32, M)>,
    /// The other boxes of the bank.
    pub(crate) left: Vec<M>,
}
