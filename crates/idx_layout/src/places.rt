ghost use Rattle.std.specs.Prelude.{◌≡◌, ◌+◌, ◌-◌, ◌*◌, ◌/◌, ◌^◌, ◌<◌, ◌≤◌, filter, length, sum_by};
ghost use Rattle.std.specs.List.{range_with_len};
ghost use Rattle.idx_header.specs.Header.{IsHeader, block_count};
ghost use Rattle.idx_table.specs.Table.{table_bytes};
ghost use Rattle.idx_layout.specs.Placing.{block_bytes, file_numbers, file_of, is_present, present_blocks};
ghost use Rattle.idx_layout.specs.Files.{length_of_file, row_count, rows_of_file};
ghost use Rattle.idx_layout.specs.OfHeader.{placing_of, place_of};

use crate::block_place::Place;
use crate::blocks_in_file::FileBlocks;
use crate::present_files::Files;
use crate::rows_in_file::FileRows;
use crate::{blocks_with_points, has_point_in};
use idx_header::Header;
use idx_rowmajor::Layout;
use idx_table::table_bytes;

/// Whether a block is present: some point of the header's box has its address in it. The answer takes a few operations
/// an axis.
pub fn present(header: &Header, block: u64) -> bool
    requires exists { block < block_count header.now }
    ensures { result ≡ is_present (placing_of header.now) block }
{
    has_point_in(
        &header.mask(),
        &header.region(),
        header.bits_per_block(),
        block,
    )
}

/// The numbers, rising, of the files that have a present block.
pub fn files(header: &Header) -> Files
    ensures value { result ≡ file_numbers (placing_of header.now) }
    ensures few { length result ≤ 2 ^ 24 }
{
    Files::of_header(header)
}

/// The present blocks of a file, rising. One after another, numbered from 0, they begin where `offset_at` says for their
/// numbers, so that the places of all blocks of a file take one pass.
pub fn file_blocks(header: &Header, file: u64) -> FileBlocks
    ensures value { result ≡ present_blocks (placing_of header.now) file }
    ensures few { length result ≤ 65536 }
{
    FileBlocks::of_header(header, file)
}

/// The rows of the table of a file whose blocks stand in a layout, for each field one for each of its block places.
pub fn file_rows(header: &Header, layout: Layout, file: u64) -> FileRows<'_>
    requires exists { file < block_count header.now }
    ensures rows { result ≡ rows_of_file layout (placing_of header.now) file }
    ensures valid { IsHeader header.now }
{
    FileRows::of_header(header, layout, file)
}

/// Where a block of a field stands: `None` exactly where it is absent. The answer goes through the
/// present blocks of its file.
pub fn place(header: &Header, field: u32, block: u64) -> Option<Place>
    requires field { field < length header.now.fields }
    requires exists { block < block_count header.now }
    ensures { result ≡ place_of (placing_of header.now) field block }
{
    if !present(header, block) {
        return None;
    }
    let per_file = header.blocks_per_file();
    let file = file_of(block, per_file);
    let earlier = present_between(header, file, block);
    let later = present_between(header, block, file + per_file);
    Some(Place {
        file,
        offset: offset_at(header, field, earlier, earlier + later),
        len: header.block_bytes(field),
    })
}

/// How many bytes a file has: its table, and the present blocks of all fields.
pub fn file_len(header: &Header, file: u64) -> u64
    ensures { result ≡ length_of_file (placing_of header.now) file }
{
    let present = present_in_file(header, file);
    table_len(header) + bytes_before(header, header.field_count()) * present
}

/// How many blocks of a file are present.
pub fn present_in_file(header: &Header, file: u64) -> u64
    ensures value { result ≡ length (present_blocks (placing_of header.now) file) }
    ensures few { result ≤ 65536 }
    ensures valid { IsHeader header.now }
{
    present_between(header, file, file.saturating_add(header.blocks_per_file()))
}

/// How many bytes the table of a file has.
pub fn table_len(header: &Header) -> u64
    ensures value { result ≡ table_bytes (row_count (placing_of header.now)) }
    ensures few { result ≤ 2 ^ 28 }
    ensures fields { length header.now.fields ≤ 64 }
    ensures valid { IsHeader header.now }
{
    table_bytes(u64::from(header.field_count()) * header.blocks_per_file())
}

/// The number of the file of a block, where files hold so many blocks.
pub(crate) fn file_of(block: u64, per_file: u64) -> u64
    requires { 1 ≤ per_file }
    ensures value { result ≡ per_file * (block / per_file) }
    ensures from { result ≤ block }
    ensures to { block < result + per_file }
{
    per_file * (block / per_file)
}

/// How many of the blocks from `first` on and before `end` are present.
fn present_between(header: &Header, first: u64, end: u64) -> u64
    ensures value { result ≡ length (filter (is_present (placing_of header.now)) (range_with_len first (end - first))) }
    ensures few { result ≤ end - first }
    ensures valid { IsHeader header.now }
{
    blocks_with_points(
        &header.mask(),
        &header.region(),
        header.bits_per_block(),
        first,
        end,
    )
}

/// How many bytes the blocks of the fields before one have, a block of each.
fn bytes_before(header: &Header, field: u32) -> u64
    requires field { field ≤ length header.now.fields }
    requires few { field ≤ 64 }
    ensures value { result ≡ sum_by (block_bytes (placing_of header.now)) (range_with_len 0 field) }
    ensures few { result ≤ 2 ^ 30 }
{
    let mut bytes = 0;
    for i in 0..field {
        bytes += header.block_bytes(i);
    }
    bytes
}

/// Where a block of a field begins in its file, which has so many present blocks, `earlier` of them before the block.
pub fn offset_at(header: &Header, field: u32, earlier: u64, present: u64) -> u64
    requires field { field < length header.now.fields }
    requires earlier { earlier ≤ 65536 }
    requires present { present ≤ 65536 }
    ensures { result ≡ table_bytes (row_count (placing_of header.now))
        + (sum_by (block_bytes (placing_of header.now)) (range_with_len 0 field) * present
        + block_bytes (placing_of header.now) field * earlier) }
{
    table_len(header)
        + (bytes_before(header, field) * present + header.block_bytes(field) * earlier)
}
