//! The methods that a pattern matched.
ghost use Rattle.std.specs.Prelude.{◌≡◌, [], IfOk};

use std::alloc::{AllocError, Global};
use std::marker::Model;

/// The ids of the methods that the last pattern matched, in room that is reserved at opening.
#[derive(Drop)]
pub struct Hits {
    pub(crate) ids: Vec<u32>,
    limit: u32,
}

impl Model for Hits {
    ghost use Rattle.std.specs.Prelude.{◌≤◌, vec_len, vec_capacity};
    ghost use Rattle.osc_tree.specs.Matching.{HitList};

    ghost Value = { HitList };

    ghost view = { λ hits. record { limit = hits.limit; ids = hits.ids.items } };

    ghost invariant = { λ hits. (vec_len hits.ids ≤ hits.limit)
        × (hits.limit ≤ vec_capacity hits.ids) };
}

impl Hits {
    /// An empty list, with room for the ids of `methods` methods. The `Err` means that there is no
    /// memory for them.
    pub fn open(alloc: Global, methods: u32) -> Result<Hits, AllocError>
        ensures limit { IfOk result (λ hits. hits.limit ≡ methods) }
        ensures empty { IfOk result (λ hits. hits.ids ≡ []) }
    {
        Ok(Hits {
            ids: Vec::with_capacity(alloc, methods as usize)?,
            limit: methods,
        })
    }

    /// The ids, in ascending order of the methods' addresses.
    pub fn ids(&self) -> &[u32]
        ensures { result.now ≡ self.now.ids }
    {
        self.ids.as_slice()
    }
}
