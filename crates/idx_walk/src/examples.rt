//! Worked values of the definitions.
ghost use Rattle.std.specs.Prelude.{◌≡◌, [], ◌∷◌};
ghost use Rattle.idx_walk.specs.Progression.{count_of, phase_of};
ghost use Rattle.idx_walk.specs.Walk.{points_up_to, wanted_places};

/// Places in a volume of 4 by 4 points, for a mask of two axes with two bits each: of the levels 0 to 2 with samples of
/// two bytes, of the levels 3 and 4, of the only point of level 3 in a box of 2 by 3 points, and of a box without a
/// point of level 0.
pub fn worked_places()
    ensures coarse { wanted_places (0 ∷ 1 ∷ 0 ∷ 1 ∷ []) ((0, 3) ∷ (0, 3) ∷ []) 2 ((0, 3) ∷ (0, 3) ∷ []) 0 2 ≡
        0 ∷ 4 ∷ 16 ∷ 20 ∷ [] }
    ensures fine { wanted_places (0 ∷ 1 ∷ 0 ∷ 1 ∷ []) ((0, 3) ∷ (0, 3) ∷ []) 1 ((0, 3) ∷ (0, 3) ∷ []) 3 4 ≡
        1 ∷ 3 ∷ 4 ∷ 5 ∷ 6 ∷ 7 ∷ 9 ∷ 11 ∷ 12 ∷ 13 ∷ 14 ∷ 15 ∷ [] }
    ensures one { wanted_places (0 ∷ 1 ∷ 0 ∷ 1 ∷ []) ((0, 3) ∷ (0, 3) ∷ []) 1 ((1, 2) ∷ (1, 3) ∷ []) 3 3 ≡ 9 ∷ [] }
    ensures none { wanted_places (0 ∷ 1 ∷ 0 ∷ 1 ∷ []) ((0, 3) ∷ (0, 3) ∷ []) 1 ((1, 1) ∷ (1, 1) ∷ []) 0 0 ≡ [] }
    ensures origin { points_up_to (0 ∷ 1 ∷ 0 ∷ 1 ∷ []) ((0, 3) ∷ (0, 3) ∷ []) 0 ≡ (0 ∷ 0 ∷ []) ∷ [] }
{}

/// The multiples of 4 from 5 to 16: 8, 12 and 16; from 5 to 7 there is none, and from 0 to 0 there is one.
pub fn worked_multiples()
    ensures first { phase_of 4 5 ≡ 2 }
    ensures three { count_of 4 (5, 16) ≡ 3 }
    ensures none { count_of 4 (5, 7) ≡ 0 }
    ensures origin { count_of 4 (0, 0) ≡ 1 }
{}
