//! Worked values of the definitions.
ghost use Rattle.std.specs.Prelude.{◌≡◌, ℕ, [], ◌∷◌, Some, None, nat_eq};
ghost use Rattle.idx_cache.specs.Cached.{fallen_out, found, raised, raise_all, put_pair, put_all, kept_after_evict};

/// Three pairs, with keys that are numbers: what a put, a look and an eviction leave.
pub fn worked_cache()
    ensures puts { put_all {V = ℕ} nat_eq 3 ((5, 50) ∷ (1, 10) ∷ (9, 90) ∷ (7, 70) ∷ []) [] ≡
        (7, 70) ∷ (9, 90) ∷ (1, 10) ∷ [] }
    ensures look { raise_all {V = ℕ} nat_eq (1 ∷ 5 ∷ []) ((7, 70) ∷ (9, 90) ∷ (1, 10) ∷ []) ≡
        (1, 10) ∷ (7, 70) ∷ (9, 90) ∷ [] }
    ensures order { raise_all {V = ℕ} nat_eq (1 ∷ 9 ∷ []) ((7, 70) ∷ (9, 90) ∷ (1, 10) ∷ []) ≡
        (9, 90) ∷ (1, 10) ∷ (7, 70) ∷ [] }
    ensures missed { raised {V = ℕ} nat_eq 5 ((7, 70) ∷ (9, 90) ∷ []) ≡ (7, 70) ∷ (9, 90) ∷ [] }
    ensures evicted { kept_after_evict {K = ℕ} {V = ℕ} 2 ((1, 10) ∷ (7, 70) ∷ (9, 90) ∷ []) ≡
        (1, 10) ∷ [] }
    ensures all_evicted { kept_after_evict {K = ℕ} {V = ℕ} 4 ((1, 10) ∷ (7, 70) ∷ (9, 90) ∷ []) ≡ [] }
    ensures renewed { put_pair {V = ℕ} nat_eq 3 (9, 91) ((7, 70) ∷ (9, 90) ∷ (1, 10) ∷ []) ≡
        (9, 91) ∷ (7, 70) ∷ (1, 10) ∷ [] }
    ensures fallen_last { fallen_out {V = ℕ} nat_eq 2 (5, 50) ((7, 70) ∷ (9, 90) ∷ []) ≡ Some 90 }
    ensures fallen_renewed { fallen_out {V = ℕ} nat_eq 2 (7, 71) ((7, 70) ∷ (9, 90) ∷ []) ≡ Some 70 }
    ensures none_fallen { fallen_out {V = ℕ} nat_eq 3 (5, 50) ((7, 70) ∷ (9, 90) ∷ []) ≡ None }
    ensures last_alone { put_all {V = ℕ} nat_eq 1 ((5, 50) ∷ (1, 10) ∷ []) [] ≡ (1, 10) ∷ [] }
    ensures value { found {V = ℕ} nat_eq 9 ((7, 70) ∷ (9, 90) ∷ []) ≡ Some 90 }
    ensures no_value { found {V = ℕ} nat_eq 5 ((7, 70) ∷ (9, 90) ∷ []) ≡ None }
{}
