//! Worked values of the definitions.
ghost use Rattle.std.specs.Prelude.{◌≡◌, [], ◌∷◌, None, Some};
ghost use Rattle.idx_header.specs.Worked.{small_header};
ghost use Rattle.idx_plan.specs.Needed.{answer_bytes, answer_samples, needed, outside_axis, plan_fault};
ghost use Rattle.idx_plan.specs.Rounds.{cut_into, rounds, width_for};
ghost use Rattle.idx_plan.specs.Worked.{key_in, question};
ghost use Rattle.idx_plan.specs.declared.plan_fault.PlanFault.TheVariants as faults;

/// Of a box of 4 by 4 points in blocks of four samples: the levels 0 to 2 stand in block 0 alone, level 3 in block 1,
/// and level 4 in the blocks 2 and 3. The origin needs block 0, a point of level 3 needs block 1, and a point of level 4
/// needs none where level 0 alone is asked for.
pub fn worked_blocks()
    ensures coarse { needed small_header (question ((0, 3) ∷ (0, 3) ∷ []) 0 2) ≡ 0 ∷ [] }
    ensures fine { needed small_header (question ((0, 3) ∷ (0, 3) ∷ []) 3 4) ≡ 1 ∷ 2 ∷ 3 ∷ [] }
    ensures samples { answer_samples small_header (question ((0, 3) ∷ (0, 3) ∷ []) 3 4) ≡ 12 }
    ensures bytes { answer_bytes small_header (question ((0, 3) ∷ (0, 3) ∷ []) 0 4) ≡ 16 }
    ensures origin { needed small_header (question ((0, 0) ∷ (0, 0) ∷ []) 0 4) ≡ 0 ∷ [] }
    ensures one { needed small_header (question ((1, 1) ∷ (0, 0) ∷ []) 0 4) ≡ 1 ∷ [] }
    ensures none { needed small_header (question ((1, 1) ∷ (1, 1) ∷ []) 0 0) ≡ [] }
{}

/// Of the same box: regions that leave it, levels out of order or past the finest one, and a region that leaves it with
/// such levels.
pub fn worked_faults()
    ensures inside { outside_axis 0 ((1, 3) ∷ (0, 2) ∷ []) ((0, 3) ∷ (0, 3) ∷ []) ≡ None }
    ensures first { outside_axis 0 ((0, 4) ∷ (0, 4) ∷ []) ((0, 3) ∷ (0, 3) ∷ []) ≡ Some 0 }
    ensures second { outside_axis 0 ((1, 3) ∷ (0, 3) ∷ []) ((0, 3) ∷ (1, 3) ∷ []) ≡ Some 1 }
    ensures good { plan_fault small_header (question ((0, 3) ∷ (0, 3) ∷ []) 0 4) ≡ None }
    ensures order { plan_fault small_header (question ((0, 3) ∷ (0, 3) ∷ []) 3 2) ≡ Some (faults.BadLevels 3 2 4) }
    ensures deep { plan_fault small_header (question ((0, 3) ∷ (0, 3) ∷ []) 0 5) ≡ Some (faults.BadLevels 0 5 4) }
    ensures both { plan_fault small_header (question ((0, 3) ∷ (0, 4) ∷ []) 0 5) ≡ Some (faults.OutsideVolume 1) }
{}

/// Blocks of four bytes: 2^24 of them make a round. Keys are cut in order, the last list may be shorter, and no keys make one
/// round without any.
pub fn worked_rounds()
    ensures width { width_for small_header 0 ≡ 16777216 }
    ensures one { rounds small_header (question ((0, 3) ∷ (0, 3) ∷ []) 3 4) ≡
        (key_in 1 ∷ key_in 2 ∷ key_in 3 ∷ []) ∷ [] }
    ensures none { rounds small_header (question ((1, 1) ∷ (1, 1) ∷ []) 0 0) ≡ [] ∷ [] }
    ensures two { cut_into 4 (key_in 0 ∷ key_in 1 ∷ key_in 2 ∷ key_in 3 ∷ key_in 5 ∷ key_in 6 ∷ []) ≡
        (key_in 0 ∷ key_in 1 ∷ key_in 2 ∷ key_in 3 ∷ []) ∷ (key_in 5 ∷ key_in 6 ∷ []) ∷ [] }
    ensures even { cut_into 2 (key_in 0 ∷ key_in 1 ∷ key_in 2 ∷ key_in 3 ∷ []) ≡
        (key_in 0 ∷ key_in 1 ∷ []) ∷ (key_in 2 ∷ key_in 3 ∷ []) ∷ [] }
{}
