//! What the definitions say of each other. These functions do nothing; their contracts are the laws.
ghost use Rattle.std.specs.Prelude.{◌≡◌, ℕ, List, [], ◌∷◌, map, codes, true, false, IsPermutation};
ghost use Rattle.std.specs.List.Sorted.{IsStrictlySortedBy};
ghost use Rattle.std.specs.Ordering.{nat_cmp};
ghost use Rattle.std.specs.Cmp.Lexicographic.{slice_cmp};
ghost use Rattle.osc_model.specs.Limits.{Limits};
ghost use Rattle.osc_model.specs.State.{opening};
ghost use Rattle.osc_model.specs.Events.{Entry, add, added, remove, removed};
ghost use Rattle.osc_model.specs.History.{Legal, after};
ghost use Rattle.osc_watch.specs.Edits.{edits_of};
ghost use Rattle.osc_watch.specs.Listing.{listing};

/// The rows that stand after a legal history are the server's methods, each once, in ascending byte order of their
/// addresses.
pub fn rows_are_the_methods()
    ensures methods { (caps : Limits) (history : List Entry) → Legal caps history
        → IsPermutation {X = ℕ × List ℕ}
        (map (λ row. (row.id, row.address)) (listing (edits_of history)))
        (map (λ method. (method.id, method.address)) (after (opening caps) history).methods) }
    ensures ascending { (caps : Limits) (history : List Entry) → Legal caps history
        → IsStrictlySortedBy (slice_cmp nat_cmp)
        (map (λ row. row.address) (listing (edits_of history))) }
{
    osc_model::laws::a_server_stays_sound();
}

/// Four entries make four edits, of which two methods stand, in the order of their addresses.
pub fn examples()
    ensures rows { listing (edits_of
        (record { caller = 0; event = add (codes "/b"); answer = added 0 }
        ∷ record { caller = 0; event = add (codes "/a/x"); answer = added 1 }
        ∷ record { caller = 0; event = remove (codes "/b"); answer = removed 0 }
        ∷ record { caller = 0; event = add (codes "/c"); answer = added 2 } ∷ []))
        ≡ record { id = 1; address = codes "/a/x" } ∷ record { id = 2; address = codes "/c" } ∷ [] }
    ensures none { listing (edits_of []) ≡ [] }
{}
