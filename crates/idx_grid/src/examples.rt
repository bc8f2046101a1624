//! Worked values of the definitions.
ghost use Rattle.std.specs.Prelude.{◌≡◌, [], ◌∷◌, length, filter};
ghost use Rattle.idx_geom.specs.Region.{points};
ghost use Rattle.idx_grid.specs.Grid.{is_on_axes};
ghost use Rattle.idx_grid.specs.LevelGrid.{first_of, strides};

/// Grids of a mask of two axes with two bits each: that of level 3, with its only point in a box of 2 by 3 points, and
/// that of level 0.
pub fn worked_grids()
    ensures first { first_of (0 ∷ 1 ∷ 0 ∷ 1 ∷ []) 3 2 ≡ 1 ∷ 0 ∷ [] }
    ensures step { strides (0 ∷ 1 ∷ 0 ∷ 1 ∷ []) 2 2 ≡ 2 ∷ 2 ∷ [] }
    ensures one { filter (is_on_axes (1 ∷ 0 ∷ []) (2 ∷ 2 ∷ [])) (points ((1, 2) ∷ (1, 3) ∷ [])) ≡ (1 ∷ 2 ∷ []) ∷ [] }
    ensures coarsest { strides (0 ∷ 1 ∷ 0 ∷ 1 ∷ []) 0 2 ≡ 4 ∷ 4 ∷ [] }
    ensures origin { length (filter (is_on_axes (0 ∷ 0 ∷ []) (4 ∷ 4 ∷ [])) (points ((0, 3) ∷ (0, 3) ∷ []))) ≡ 1 }
{}
