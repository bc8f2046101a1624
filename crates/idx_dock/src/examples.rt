//! Worked values of the definitions.
ghost use Rattle.std.specs.Prelude.{◌≡◌, [], ◌∷◌, ◌++◌, None, Some, map, replicate};
ghost use Rattle.idx_table.specs.Row.{row_bytes};
ghost use Rattle.idx_rowmajor.specs.declared.layout.Layout.{Layout};
ghost use Rattle.idx_dock.specs.declared.unwanted.Unwanted.{Unwanted};
ghost use Rattle.idx_dock.specs.Dock.{missing, unwanted};
ghost use Rattle.idx_dock.specs.Content.{dock_bytes, dock_bytes_as};
ghost use Rattle.idx_dock.specs.Worked.{empty_dock, first_dock, full_dock, half_dock, two_samples};

/// The second file of a box of 4 by 4 points, to which the samples of two of four pieces were delivered and then those of
/// the others.
pub fn worked_docks()
    ensures awaited { map (λ a. a.piece) empty_dock.awaited ≡ 0 ∷ 1 ∷ 2 ∷ 3 ∷ [] }
    ensures missing { missing half_dock ≡ Some 1 }
    ensures double { unwanted half_dock (two_samples 3 14 14 15) ≡ Some Unwanted.Double }
    ensures stranger { unwanted half_dock (two_samples 4 14 14 15) ≡ Some Unwanted.Stranger }
    ensures wanted { unwanted half_dock (two_samples 1 10 12 13) ≡ None }
    ensures half { dock_bytes half_dock ≡ replicate 40 0 ++ row_bytes (record { offset = 120; size = 4; flags = 0 })
        ++ row_bytes (record { offset = 124; size = 4; flags = 0 })
        ++ (4 ∷ 5 ∷ 0 ∷ 0 ∷ []) ++ (0 ∷ 0 ∷ 14 ∷ 15 ∷ []) }
    ensures whole { missing full_dock ≡ None }
    ensures full { dock_bytes full_dock ≡ replicate 40 0 ++ row_bytes (record { offset = 120; size = 4; flags = 0 })
        ++ row_bytes (record { offset = 124; size = 4; flags = 0 })
        ++ (4 ∷ 5 ∷ 12 ∷ 13 ∷ []) ++ (6 ∷ 7 ∷ 14 ∷ 15 ∷ []) }
{}

/// The first file of the same box, to which the samples of the second and the third piece were delivered, in both
/// layouts. In the second block samples 3 and 9 change places.
pub fn worked_layouts()
    ensures hz { dock_bytes first_dock ≡ replicate 40 0 ++ row_bytes (record { offset = 120; size = 4; flags = 0 })
        ++ row_bytes (record { offset = 124; size = 4; flags = 0 })
        ++ (0 ∷ 2 ∷ 8 ∷ 0 ∷ []) ++ (0 ∷ 9 ∷ 3 ∷ 0 ∷ []) }
    ensures rows { dock_bytes_as Layout.Rows first_dock ≡
        replicate 40 0 ++ row_bytes (record { offset = 120; size = 4; flags = 16 })
        ++ row_bytes (record { offset = 124; size = 4; flags = 16 })
        ++ (0 ∷ 2 ∷ 8 ∷ 0 ∷ []) ++ (0 ∷ 3 ∷ 9 ∷ 0 ∷ []) }
{}
