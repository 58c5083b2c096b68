// What is read of a score so far.
use crate::run::Run;
use osc_packet::Bundler;
use osc_pattern::Address;
use osc_tree::Tree;
use std::alloc::Global;

/// What is read of a score so far.
#[derive(Drop)]
pub(crate) struct Reader {
    /// The distinct addresses, each with its place as id.
    pub(crate) tree: Tree,
    /// The same, in the order of their first use.
    pub(crate) addresses: Vec<Address>,
    /// The runs before the last.
    pub(crate) runs: Vec<Run>,
    /// The last run, in the making.
    pub(crate) last: Option<Bundler>,
    /// The last tag, or 2.
    pub(crate) least: u64,
    pub(crate) alloc: Global,
}
