//! Worked values of the definitions.
ghost use Rattle.std.specs.Prelude.{◌≡◌, [], ◌∷◌, map};
ghost use Rattle.std.specs.List.{range_with_len};
ghost use Rattle.idx_rowmajor.specs.RowPlace.{block_points, offset_at, row_place};
ghost use Rattle.idx_rowmajor.specs.Rows.{hz_from_rows, rows_from_hz};

/// The mask of two axes with two bits each, and blocks of four addresses. Block 1 has the points (1, 0), (3, 0), (1, 2)
/// and (3, 2) in row-major order; by their addresses the second and the third stand the other way round. Of samples
/// 4 y + x its rows are 1, 3, 9 and 11. In block 0 both orders are one.
pub fn worked_plane()
    ensures points { block_points (0 ∷ 1 ∷ 0 ∷ 1 ∷ []) 2 2 1 ≡
        (1 ∷ 0 ∷ []) ∷ (3 ∷ 0 ∷ []) ∷ (1 ∷ 2 ∷ []) ∷ (3 ∷ 2 ∷ []) ∷ [] }
    ensures places { map (row_place (0 ∷ 1 ∷ 0 ∷ 1 ∷ []) 2 2 1) (range_with_len 0 4) ≡ 0 ∷ 2 ∷ 1 ∷ 3 ∷ [] }
    ensures first { rows_from_hz (0 ∷ 1 ∷ 0 ∷ 1 ∷ []) 2 2 0 1 (0 ∷ 2 ∷ 8 ∷ 10 ∷ []) ≡ 0 ∷ 2 ∷ 8 ∷ 10 ∷ [] }
    ensures second { rows_from_hz (0 ∷ 1 ∷ 0 ∷ 1 ∷ []) 2 2 1 1 (1 ∷ 9 ∷ 3 ∷ 11 ∷ []) ≡ 1 ∷ 3 ∷ 9 ∷ 11 ∷ [] }
    ensures back { hz_from_rows (0 ∷ 1 ∷ 0 ∷ 1 ∷ []) 2 2 1 1 (1 ∷ 3 ∷ 9 ∷ 11 ∷ []) ≡ 1 ∷ 9 ∷ 3 ∷ 11 ∷ [] }
{}

/// A mask of three axes, and block 1 of eight addresses: here the row places and the offsets of row places differ, and
/// in block 0 too the orders are two.
pub fn worked_space()
    ensures places { map (row_place (1 ∷ 0 ∷ 2 ∷ 0 ∷ []) 3 3 1) (range_with_len 0 8) ≡
        0 ∷ 4 ∷ 1 ∷ 5 ∷ 2 ∷ 6 ∷ 3 ∷ 7 ∷ [] }
    ensures offsets { map (offset_at (1 ∷ 0 ∷ 2 ∷ 0 ∷ []) 3 3 1) (range_with_len 0 8) ≡
        0 ∷ 2 ∷ 4 ∷ 6 ∷ 1 ∷ 3 ∷ 5 ∷ 7 ∷ [] }
    ensures rows { rows_from_hz (1 ∷ 0 ∷ 2 ∷ 0 ∷ []) 3 3 1 1 (range_with_len 0 8) ≡
        0 ∷ 2 ∷ 4 ∷ 6 ∷ 1 ∷ 3 ∷ 5 ∷ 7 ∷ [] }
    ensures hz { hz_from_rows (1 ∷ 0 ∷ 2 ∷ 0 ∷ []) 3 3 1 1 (range_with_len 0 8) ≡
        0 ∷ 4 ∷ 1 ∷ 5 ∷ 2 ∷ 6 ∷ 3 ∷ 7 ∷ [] }
    ensures first { map (row_place (1 ∷ 0 ∷ 2 ∷ 0 ∷ []) 3 3 0) (range_with_len 0 8) ≡
        0 ∷ 2 ∷ 1 ∷ 3 ∷ 4 ∷ 5 ∷ 6 ∷ 7 ∷ [] }
{}
