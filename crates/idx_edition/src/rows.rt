ghost use Rattle.std.specs.Prelude.{◌≡◌, ◌<◌, IfOk, Some, length, slice_get};
ghost use Rattle.idx_header.specs.Header.{IsHeader, block_count};
ghost use Rattle.idx_layout.specs.Files.{rows_of_file};
ghost use Rattle.idx_layout.specs.OfHeader.{placing_of};

use idx_header::Header;
use idx_layout::file_rows;
use idx_outside::NoMemory;
use idx_rowmajor::Layout;
use idx_table::{Row, Table};
use std::alloc::Global;
use std::marker::Model;

/// The rows of the table of a file, seen as their list.
#[derive(Drop)]
pub(crate) struct Rows {
    rows: Vec<Row>,
}

impl Model for Rows {
    ghost use Rattle.std.specs.Prelude.{List};
    ghost use Rattle.idx_table.specs.declared.row.Row.{Row};

    ghost Value = { List Row };

    ghost view = { λ r. r.rows.items };
}

impl Rows {
    /// The rows of a table that was read.
    pub(crate) fn of_table(alloc: Global, table: &Table) -> Result<Rows, NoMemory>
        ensures { IfOk result (λ rows. rows ≡ table.now) }
    {
        let mut rows = Vec::new(alloc);
        for i in 0..table.rows() {
            rows.push(table.row(i))?;
        }
        Ok(Rows { rows })
    }

    /// The rows of a file as the writer lays it out.
    pub(crate) fn of_file(
        alloc: Global,
        header: &Header,
        layout: Layout,
        file: u64,
    ) -> Result<Rows, NoMemory>
        requires exists { file < block_count header.now }
        ensures rows { IfOk result (λ rows. rows ≡ rows_of_file layout (placing_of header.now) file) }
        ensures valid { IsHeader header.now }
    {
        let mut rows = Vec::new(alloc);
        for row in file_rows(header, layout, file) {
            rows.push(row)?;
        }
        Ok(Rows { rows })
    }

    /// The row with this number, counted from 0.
    pub(crate) fn row(&self, i: u64) -> Row
        requires { i < length self.now }
        ensures { slice_get self.now i ≡ Some result }
    {
        self.rows[i as usize]
    }
}
