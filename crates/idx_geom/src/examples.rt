//! Worked values of the definitions.
ghost use Rattle.std.specs.Prelude.{◌≡◌, [], ◌∷◌, length};
ghost use Rattle.idx_geom.specs.Region.{points, place_of, common_bounds};
ghost use Rattle.idx_geom.specs.Volume.{samples_of, volume_of, raw_of};

/// Row-major order, axis 0 fastest, in a region of two axes; and a volume of two fields.
pub fn worked_regions()
    ensures order { points ((1, 2) ∷ (5, 6) ∷ []) ≡
        (1 ∷ 5 ∷ []) ∷ (2 ∷ 5 ∷ []) ∷ (1 ∷ 6 ∷ []) ∷ (2 ∷ 6 ∷ []) ∷ [] }
    ensures place { place_of ((0, 3) ∷ (0, 3) ∷ []) (1 ∷ 2 ∷ []) ≡ 9 }
    ensures count { length (points ((0, 3) ∷ (0, 3) ∷ [])) ≡ 16 }
    ensures fields { volume_of (1 ∷ 2 ∷ []) 2 (10 ∷ 11 ∷ 20 ∷ 21 ∷ 22 ∷ 23 ∷ []) ≡
        ((10 ∷ []) ∷ (11 ∷ []) ∷ []) ∷ ((20 ∷ 21 ∷ []) ∷ (22 ∷ 23 ∷ []) ∷ []) ∷ [] }
    ensures raw { raw_of (((10 ∷ []) ∷ (11 ∷ []) ∷ []) ∷ ((20 ∷ 21 ∷ []) ∷ (22 ∷ 23 ∷ []) ∷ []) ∷ []) ≡
        10 ∷ 11 ∷ 20 ∷ 21 ∷ 22 ∷ 23 ∷ [] }
{}
