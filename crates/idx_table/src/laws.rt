//! Laws of the definitions, each the contract of a function that does nothing.
ghost use Rattle.std.specs.Prelude.{◌≡◌, ℕ, ◌+◌, ◌<◌, ◌↔◌, ◌++◌, All, List, length, Some, None};
ghost use Rattle.std.specs.List.{flat_map};
ghost use Rattle.idx_table.specs.Row.{IsRow, row_of, row_bytes};
ghost use Rattle.idx_table.specs.Table.{table_bytes, rows_of, kind_of_row, first_fault, IsFirstFault};
ghost use Rattle.idx_table.specs.declared.row.Row.{Row};
ghost use Rattle.idx_table.specs.declared.table_fault.TableFault.{TableFault};

/// A row that was written is read back, whatever stands behind it.
pub fn rows_read_back()
    ensures row { (row : Row) (rest : List ℕ) → IsRow row → row_of (row_bytes row ++ rest) ≡ row }
    ensures bytes { (row : Row) → length (row_bytes row) ≡ 40 }
{}

/// The rows of a table that was written are read back, whatever stands before the rows and behind them.
pub fn tables_read_back()
    ensures rows { (head rest : List ℕ) (rows : List Row) → length head ≡ 40 → All IsRow rows →
        rows_of (head ++ flat_map row_bytes rows ++ rest) (length rows) ≡ rows }
    ensures bytes { (rows : List Row) → 40 + length (flat_map row_bytes rows) ≡ table_bytes (length rows) }
{}

/// The first fault of a table is that of a row before which no row is faulty, and there is none exactly where no row is
/// faulty.
pub fn first_faults_are_first()
    ensures none { (front blocks : List ℕ) (rows len : ℕ) → (first_fault front rows blocks len ≡ None) ↔
        ((i : ℕ) → i < rows → kind_of_row front rows blocks len i ≡ None) }
    ensures some { (front blocks : List ℕ) (rows len : ℕ) (fault : TableFault) →
        (first_fault front rows blocks len ≡ Some fault) ↔ IsFirstFault front rows blocks len fault }
{}
