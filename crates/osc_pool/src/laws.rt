//! What the definitions come to on a pool of three blocks.
ghost use Rattle.std.specs.Prelude.{◌≡◌, ◌+◌, ◌<◌, ℕ, [], ◌∷◌, length, replicate};
ghost use Rattle.osc_pool.specs.Holding.{blocks_for, used_blocks, held_by, with_chain, IsLive};

/// 65 bytes and one byte fill three blocks, so one byte more is refused. Once the first chain is given, 128 bytes fit,
/// and the second chain holds its byte still.
pub fn three_blocks_hold_two_chains()
    ensures full { (one other : ℕ)
        → used_blocks (replicate 65 one ∷ [] ∷ (other ∷ []) ∷ []) ≡ 3 }
    ensures refused { (one other : ℕ) → length (replicate 65 one ∷ [] ∷ (other ∷ []) ∷ [])
        < used_blocks (replicate 65 one ∷ [] ∷ (other ∷ []) ∷ []) + blocks_for 1 }
    ensures live { (one other : ℕ) → IsLive (record { first = 0; len = 65 })
        (replicate 65 one ∷ [] ∷ (other ∷ []) ∷ []) }
    ensures given { (one other : ℕ) → with_chain (record { first = 0; len = 65 }) []
        (replicate 65 one ∷ [] ∷ (other ∷ []) ∷ []) ≡ [] ∷ [] ∷ (other ∷ []) ∷ [] }
    ensures fits { (other : ℕ)
        → used_blocks ([] ∷ [] ∷ (other ∷ []) ∷ []) + blocks_for 128 ≡ 3 }
    ensures still { (other third : ℕ) → held_by (record { first = 2; len = 1 })
        (with_chain (record { first = 1; len = 128 }) (replicate 128 third)
        ([] ∷ [] ∷ (other ∷ []) ∷ [])) ≡ other ∷ [] }
{}
