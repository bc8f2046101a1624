//! Worked values of the definitions.
ghost use Rattle.std.specs.Prelude.{◌≡◌, [], ◌∷◌, false, true, replicate, Some, None};
ghost use Rattle.idx_layout.specs.Worked.{square};
ghost use Rattle.idx_edition.specs.Stored.{block_in, fault_of_bytes, has_in, row_in};
ghost use Rattle.idx_edition.specs.Worked.{worked_file};

/// Blocks of a file of two, and of one that is not there: of a box of four by four points with one byte a sample, in
/// blocks of four samples.
pub fn worked_blocks()
    ensures row { row_in (square ((0, 3) ∷ (0, 3) ∷ []) (1 ∷ [])) worked_file 0 1 ≡
        record { offset = 124; size = 4; flags = 0 } }
    ensures has { has_in (square ((0, 3) ∷ (0, 3) ∷ []) (1 ∷ [])) (Some worked_file) 0 1 ≡ true }
    ensures first { block_in (square ((0, 3) ∷ (0, 3) ∷ []) (1 ∷ [])) (Some worked_file) 0 0 ≡ 0 ∷ 2 ∷ 8 ∷ 10 ∷ [] }
    ensures second { block_in (square ((0, 3) ∷ (0, 3) ∷ []) (1 ∷ [])) (Some worked_file) 0 1 ≡ 1 ∷ 9 ∷ 3 ∷ 11 ∷ [] }
    ensures lacks { has_in (square ((0, 3) ∷ (0, 3) ∷ []) (1 ∷ [])) None 0 1 ≡ false }
    ensures zeros { block_in (square ((0, 3) ∷ (0, 3) ∷ []) (1 ∷ [])) None 0 1 ≡ replicate 4 0 }
    ensures sound { fault_of_bytes (square ((0, 3) ∷ (0, 3) ∷ []) (1 ∷ [])) 0 (Some worked_file) ≡ None }
{}
