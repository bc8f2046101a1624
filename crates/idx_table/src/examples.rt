//! Worked values of the definitions.
ghost use Rattle.std.specs.Prelude.{◌≡◌, [], ◌∷◌, ◌++◌, ◌+◌, ◌*◌, ◌^◌, replicate, take, Some, None};
ghost use Rattle.idx_table.specs.Row.{row_of, row_bytes};
ghost use Rattle.idx_table.specs.Table.{rows_of, first_fault};
ghost use Rattle.idx_table.specs.declared.row.Row.{Row};

use crate::TableKind;

/// The first row of a table of two rows for blocks of four bytes, and a row of a block far behind in its file.
pub fn worked_rows()
    ensures first { row_bytes (record { offset = 120; size = 4; flags = 0 }) ≡
        replicate 8 0 ++ (0 ∷ 0 ∷ 0 ∷ 120 ∷ []) ++ replicate 4 0 ++ (0 ∷ 0 ∷ 0 ∷ 4 ∷ []) ++ replicate 20 0 }
    ensures high { row_of (replicate 8 255 ++ (1 ∷ 2 ∷ 3 ∷ 4 ∷ []) ++ (5 ∷ 6 ∷ 7 ∷ 8 ∷ []) ++ (0 ∷ 0 ∷ 0 ∷ 4 ∷ [])
        ++ (0 ∷ 0 ∷ 0 ∷ 16 ∷ []) ++ replicate 16 255) ≡
        record { offset = 0x0506_0708_0102_0304; size = 4; flags = 16 } }
{}

/// Two rows for blocks of four bytes in a file of 128 bytes, in files that end too early, and with one row changed.
pub fn worked_tables()
    ensures right { first_fault (replicate 40 0 ++ row_bytes (record { offset = 120; size = 4; flags = 0 }) ++
        row_bytes (record { offset = 124; size = 4; flags = 0 })) 2 (4 ∷ []) 128 ≡ None }
    ensures outside { first_fault (replicate 40 0 ++ row_bytes (record { offset = 120; size = 4; flags = 0 }) ++
        row_bytes (record { offset = 124; size = 4; flags = 0 })) 2 (4 ∷ []) 127 ≡
        Some (record { row = 1; kind = TableKind.OutsideFile }) }
    ensures cut_short { first_fault (replicate 40 0 ++ take 39 (row_bytes (record { offset = 120; size = 4; flags = 0 })))
        2 (4 ∷ []) 79 ≡ Some (record { row = 0; kind = TableKind.CutShort }) }
    ensures compressed { first_fault (replicate 40 0 ++ row_bytes (record { offset = 120; size = 5; flags = 3 })) 1
        (4 ∷ []) 128 ≡ Some (record { row = 0; kind = TableKind.Compressed }) }
    ensures row_major { first_fault (replicate 40 0 ++ row_bytes (record { offset = 120; size = 4; flags = 16 })) 1
        (4 ∷ []) 128 ≡ None }
    ensures other_flags { first_fault (replicate 40 0 ++ row_bytes (record { offset = 120; size = 4; flags = 17 })) 1
        (4 ∷ []) 128 ≡ Some (record { row = 0; kind = TableKind.Compressed }) }
    ensures wrong_size { first_fault (replicate 40 0 ++ row_bytes (record { offset = 0; size = 5; flags = 0 })) 1
        (4 ∷ []) 128 ≡ Some (record { row = 0; kind = TableKind.WrongSize }) }
    ensures in_table { first_fault (replicate 40 0 ++ row_bytes (record { offset = 79; size = 4; flags = 0 })) 1
        (4 ∷ []) 128 ≡ Some (record { row = 0; kind = TableKind.OutsideFile }) }
    ensures absent { first_fault (replicate 40 0 ++ row_bytes (record { offset = 9; size = 0; flags = 3 })) 1 (4 ∷ [])
        80 ≡ None }
{}
