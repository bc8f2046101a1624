ghost use Rattle.std.specs.Prelude.{◌≡◌, ◌+◌, ◌^◌, ◌<◌, ◌≤◌, length};
ghost use Rattle.std.specs.Iterator.{YieldsFirst, item_count};
ghost use Rattle.idx_header.specs.Header.{IsHeader, block_count};
ghost use Rattle.idx_layout.specs.Placing.{is_present};
ghost use Rattle.idx_layout.specs.Layout.{flags_of};
ghost use Rattle.idx_layout.specs.Files.{offset_of, row_of_block, rows_of_file};
ghost use Rattle.idx_layout.specs.OfHeader.{placing_of};

use crate::places::{present, table_len};
use idx_header::Header;
use idx_rowmajor::Layout;
use idx_table::{ABSENT, RAW, ROW_MAJOR, Row};
use std::iter::FusedIterator;
use std::marker::Model;

/// The rows of the table of a file as the writer lays it out, seen as the list of those that are left: for each field one
/// for each block place of the file. Each takes a few operations an axis.
#[derive(Debug, Drop)]
pub struct FileRows<'h> {
    header: &'h Header,
    layout: Layout,
    file: u64,
    given: u64,
    offset: u64,
}

impl<'h> Model for FileRows<'h> {
    ghost use Rattle.std.specs.Prelude.{List, drop};
    ghost use Rattle.idx_table.specs.declared.row.Row.{Row};

    ghost Value = { List Row };

    ghost use Rattle.idx_layout.specs.Files.{rows_of_file};
    ghost use Rattle.idx_layout.specs.FileRows.{AreRows};
    ghost use Rattle.idx_layout.specs.OfHeader.{placing_of};

    ghost view = { λ r. drop r.given (rows_of_file r.layout (placing_of r.header.now) r.file) };

    ghost invariant = { λ r. AreRows r.header.now r.file r.given r.offset };
}

impl<'h> FileRows<'h> {
    /// The rows of a file of a header, in a layout.
    pub(crate) fn of_header(header: &'h Header, layout: Layout, file: u64) -> FileRows<'h>
        requires exists { file < block_count header.now }
        ensures rows { result ≡ rows_of_file layout (placing_of header.now) file }
        ensures valid { IsHeader header.now }
    {
        FileRows {
            header,
            layout,
            file,
            given: 0,
            offset: table_len(header),
        }
    }
}

impl<'h> Iterator for FileRows<'h> {
    type Item = Row;

    ghost next_gives = { YieldsFirst (λ left. left) };

    ghost remaining = { item_count (λ left. left) };

    fn next(&mut self) -> Option<Row> {
        let per_file = self.header.blocks_per_file();
        let field = self.given / per_file;
        if field >= u64::from(self.header.field_count()) {
            return None;
        }
        let block = self.file + self.given % per_file;
        let row = row_of(
            self.header,
            self.layout,
            field as u32,
            self.file,
            block,
            self.offset,
        );
        self.given += 1;
        self.offset += u64::from(row.size);
        Some(row)
    }
}

impl<'h> FusedIterator for FileRows<'h> {}

/// The row of a block of a field of a file, where the blocks that stand before it end at so many bytes.
fn row_of(header: &Header, layout: Layout, field: u32, file: u64, block: u64, offset: u64) -> Row
    requires field { field < length header.now.fields }
    requires from { file ≤ block }
    requires to { block < file + header.now.blocks_per_file }
    requires offset { offset ≡ offset_of (placing_of header.now) file field block }
    ensures row { result ≡ row_of_block layout (placing_of header.now) file field block }
    ensures behind { offset + result.size ≡ offset_of (placing_of header.now) file field (block + 1) }
    ensures fits { offset + result.size < 2 ^ 64 }
    ensures valid { IsHeader header.now }
{
    if !is_here(header, block) {
        return ABSENT;
    }
    Row {
        offset,
        size: header.block_bytes(field) as u32,
        flags: flags_of(layout),
    }
}

/// Whether a block exists and is present.
fn is_here(header: &Header, block: u64) -> bool
    ensures value { result ≡ is_present (placing_of header.now) block }
    ensures valid { IsHeader header.now }
{
    block < header.block_count() && present(header, block)
}

/// The flags in the row of a block whose samples stand in a layout.
fn flags_of(layout: Layout) -> u32
    ensures { result ≡ flags_of layout }
{
    match layout {
        Layout::Hz => RAW,
        Layout::Rows => ROW_MAJOR,
    }
}
