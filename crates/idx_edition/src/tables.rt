ghost use Rattle.std.specs.Prelude.{◌≡◌, ℕ, ◌*◌, ◌+◌, ◌/◌, ◌<◌, ◌≤◌, false, List, None, Some, IfOk, IfSome, length, slice_get, slice_index};
ghost use Rattle.idx_header.specs.Header.{IsHeader, block_count};
ghost use Rattle.idx_table.specs.declared.row.Row.{Row};
ghost use Rattle.idx_layout.specs.OfHeader.{placing_of};
ghost use Rattle.idx_layout.specs.Shape.{block_lengths};
ghost use Rattle.idx_edition.specs.Tables.{AreTables, IsTable, RiseFrom, StandsAt, has_in_tables, order_of, tables_of, written_tables};

use crate::rows::Rows;
use idx_header::Header;
use idx_layout::files;
use idx_outside::NoMemory;
use idx_rowmajor::{Layout, to_hz};
use idx_table::ROW_MAJOR;
use std::alloc::Global;
use std::marker::Model;

/// Where a block stands: in which file, by its place among those that are there, from which offset on, and in which order
/// of its samples, by the flags of its row.
#[derive(Clone, Copy)]
pub(crate) struct BlockPlace {
    pub(crate) file: usize,
    pub(crate) offset: u64,
    pub(crate) flags: u32,
}

/// The tables of the files of a step that are there, and the header by which their blocks are found.
#[derive(Drop)]
pub(crate) struct Tables {
    pub(crate) header: Header,
    pub(crate) numbers: Vec<u64>,
    pub(crate) tables: Vec<Rows>,
}

impl Model for Tables {
    ghost use Rattle.idx_edition.specs.Tables.{TablesValue};
    ghost use Rattle.idx_edition.specs.Tables.{AreTables};

    ghost Value = { TablesValue };

    ghost view = { λ t. record {
      header = t.header;
      numbers = t.numbers.items;
      tables = t.tables.items;
    } };

    ghost invariant = { λ t. AreTables (record {
      header = t.header;
      numbers = t.numbers.items;
      tables = t.tables.items;
    }) };
}

impl Tables {
    /// The tables of files of a dataset, by their rising numbers.
    pub(crate) fn of_files(header: Header, numbers: Vec<u64>, tables: Vec<Rows>) -> Tables
        requires rising { RiseFrom 0 numbers.items }
        requires same { length tables.items ≡ length numbers.items }
        requires each { (i : ℕ) (rows : List Row) → slice_get tables.items i ≡ Some rows →
            IsTable (block_lengths (placing_of header)) header.blocks_per_file rows }
        ensures tables { result ≡ tables_of header numbers.items tables.items }
        ensures valid { IsHeader header }
    {
        // Each header is valid: so are the bounds of its tables.
        let _ = header.blocks_per_file();
        Tables {
            header,
            numbers,
            tables,
        }
    }

    /// The tables of the files of a step as the writer lays them out.
    pub(crate) fn of_header(
        alloc: Global,
        header: &Header,
        layout: Layout,
    ) -> Result<Tables, NoMemory>
        ensures tables { IfOk result (λ tables. tables ≡ written_tables layout header.now) }
        ensures valid { IfOk result (λ _. IsHeader header.now) }
    {
        let mut numbers = Vec::new(alloc);
        let mut tables = Vec::new(alloc);
        for file in files(header) {
            numbers.push(file)?;
            tables.push(Rows::of_file(alloc, header, layout, file)?)?;
        }
        Ok(Tables::of_files(header.copy(alloc)?, numbers, tables))
    }

    /// Where a block of a field stands; `None` exactly where no file has it. The answer takes a binary search among the
    /// files.
    pub(crate) fn find(&self, field: u32, block: u64) -> Option<BlockPlace>
        requires { field < length (block_lengths (placing_of self.now.header)) }
        ensures stands { IfSome result (λ place.
            StandsAt self.now field block place.file place.offset place.flags) }
        ensures none { result ≡ None → has_in_tables self.now field block ≡ false }
        ensures valid { AreTables self.now }
    {
        let per_file = self.header.blocks_per_file();
        let number = file_of(block, per_file);
        let Ok(file) = self.numbers.binary_search(&number) else {
            return None;
        };
        let row = self.tables[file].row(u64::from(field) * per_file + (block - number));
        if row.size == 0 {
            return None;
        }
        Some(BlockPlace {
            file,
            offset: row.offset,
            flags: row.flags,
        })
    }

    /// Puts the samples of a block that was read into hierarchical order, where the flags of its row say that they stand in
    /// row-major order. Takes no memory.
    pub(crate) fn put_in_hz_order(&self, field: u32, block: u64, flags: u32, bytes: &mut [u8])
        requires field { field < length (block_lengths (placing_of self.now.header)) }
        requires exists { block < block_count self.now.header }
        requires room { length bytes.old ≡ slice_index (block_lengths (placing_of self.now.header)) field }
        ensures { bytes.new ≡ order_of (placing_of self.now.header) field block flags bytes.old }
    {
        if flags == ROW_MAJOR {
            to_hz(&self.header, field, block, bytes);
        }
    }
}

/// The number of the file of a block, where files have so many places.
fn file_of(block: u64, per_file: u64) -> u64
    requires { 1 ≤ per_file }
    ensures value { result ≡ per_file * (block / per_file) }
    ensures from { result ≤ block }
    ensures to { block < result + per_file }
{
    per_file * (block / per_file)
}
