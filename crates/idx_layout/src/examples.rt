//! Worked values of the definitions.
ghost use Rattle.std.specs.Prelude.{◌≡◌, [], ◌∷◌, ◌++◌, false, map, replicate};
ghost use Rattle.idx_geom.specs.Volume.{volume_of};
ghost use Rattle.idx_table.specs.Row.{row_bytes};
ghost use Rattle.idx_rowmajor.specs.declared.layout.Layout.{Layout};
ghost use Rattle.idx_layout.specs.Placing.{file_numbers, is_present, present_blocks};
ghost use Rattle.idx_layout.specs.Files.{blocks_of_file, file_bytes, length_of_file, rows_of_file};
ghost use Rattle.idx_layout.specs.Worked.{square, of_bytes};

/// Placings under a mask of two axes with two bits each, in blocks of four samples and files of two blocks: of a box of
/// four by four points with one field and with two, and of a box of two points, which has no point in blocks 1 and 3.
pub fn worked_placings()
    ensures numbers { file_numbers (square ((0, 3) ∷ (0, 3) ∷ []) (1 ∷ [])) ≡ 0 ∷ 2 ∷ [] }
    ensures two_fields { length_of_file (square ((0, 3) ∷ (0, 3) ∷ []) (1 ∷ 2 ∷ [])) 0 ≡ 224 }
    ensures offsets { map (λ row. row.offset) (rows_of_file Layout.Hz (square ((0, 3) ∷ (0, 3) ∷ []) (1 ∷ 2 ∷ [])) 0) ≡
        200 ∷ 204 ∷ 208 ∷ 216 ∷ [] }
    ensures sizes { map (λ row. row.size) (rows_of_file Layout.Hz (square ((0, 3) ∷ (0, 3) ∷ []) (1 ∷ 2 ∷ [])) 0) ≡
        4 ∷ 4 ∷ 8 ∷ 8 ∷ [] }
    ensures present { present_blocks (square ((0, 0) ∷ (0, 1) ∷ []) (1 ∷ [])) 2 ≡ 2 ∷ [] }
    ensures absent { is_present (square ((0, 0) ∷ (0, 1) ∷ []) (1 ∷ [])) 3 ≡ false }
    ensures files { file_numbers (square ((0, 0) ∷ (0, 1) ∷ []) (1 ∷ [])) ≡ 0 ∷ 2 ∷ [] }
    ensures shorter { length_of_file (square ((0, 0) ∷ (0, 1) ∷ []) (1 ∷ [])) 2 ≡ 124 }
{}

/// Files of such placings, in hierarchical order: of a box of four by four points, where sample number n is the byte n,
/// and of a box of two points, where the row of the absent block is all zeros. An address without a point holds a byte
/// of 0.
pub fn worked_files()
    ensures first { file_bytes Layout.Hz (square ((0, 3) ∷ (0, 3) ∷ []) (1 ∷ [])) (of_bytes 16) 0 ≡
        replicate 40 0 ++ row_bytes (record { offset = 120; size = 4; flags = 0 })
        ++ row_bytes (record { offset = 124; size = 4; flags = 0 })
        ++ (0 ∷ 2 ∷ 8 ∷ 10 ∷ []) ++ (1 ∷ 9 ∷ 3 ∷ 11 ∷ []) }
    ensures second { file_bytes Layout.Hz (square ((0, 3) ∷ (0, 3) ∷ []) (1 ∷ [])) (of_bytes 16) 2 ≡
        replicate 40 0 ++ row_bytes (record { offset = 120; size = 4; flags = 0 })
        ++ row_bytes (record { offset = 124; size = 4; flags = 0 })
        ++ (4 ∷ 5 ∷ 12 ∷ 13 ∷ []) ++ (6 ∷ 7 ∷ 14 ∷ 15 ∷ []) }
    ensures absent { file_bytes Layout.Hz (square ((0, 0) ∷ (0, 1) ∷ []) (1 ∷ []))
        (volume_of (1 ∷ []) 2 (17 ∷ 34 ∷ [])) 2 ≡
        replicate 40 0 ++ row_bytes (record { offset = 120; size = 4; flags = 0 }) ++ replicate 40 0
        ++ (34 ∷ 0 ∷ 0 ∷ 0 ∷ []) }
    ensures odd { blocks_of_file Layout.Hz (square ((0, 2) ∷ (0, 2) ∷ []) (1 ∷ [])) (of_bytes 9) 0 ≡
        (0 ∷ 2 ∷ 6 ∷ 8 ∷ []) ++ (1 ∷ 7 ∷ 0 ∷ 0 ∷ []) }
    ensures odd_second { blocks_of_file Layout.Hz (square ((0, 2) ∷ (0, 2) ∷ []) (1 ∷ [])) (of_bytes 9) 2 ≡
        (3 ∷ 4 ∷ 0 ∷ 0 ∷ []) ++ (5 ∷ 0 ∷ 0 ∷ 0 ∷ []) }
    ensures inner { blocks_of_file Layout.Hz (square ((1, 2) ∷ (1, 2) ∷ []) (1 ∷ []))
        (volume_of (1 ∷ []) 4 (10 ∷ 11 ∷ 12 ∷ 13 ∷ [])) 0 ≡ (0 ∷ 0 ∷ 0 ∷ 13 ∷ []) ++ (0 ∷ 12 ∷ 0 ∷ 0 ∷ []) }
    ensures inner_second { blocks_of_file Layout.Hz (square ((1, 2) ∷ (1, 2) ∷ []) (1 ∷ []))
        (volume_of (1 ∷ []) 4 (10 ∷ 11 ∷ 12 ∷ 13 ∷ [])) 2 ≡ (0 ∷ 10 ∷ 0 ∷ 0 ∷ []) ++ (11 ∷ 0 ∷ 0 ∷ 0 ∷ []) }
{}
