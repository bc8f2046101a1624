//! Blocks in row-major order by the header of a dataset.
ghost use Rattle.std.specs.Prelude.{◌≡◌, ◌^◌, ◌<◌, length};
ghost use Rattle.idx_header.specs.Header.{block_bytes, block_count, sample_bytes_of};
ghost use Rattle.idx_rowmajor.specs.RowPlace.{offset_at, row_place};
ghost use Rattle.idx_rowmajor.specs.Rows.{hz_from_rows, rows_from_hz};

use crate::gather::{put_into_rows, take_from_rows};
use crate::places::{offset_of_place, place_of_offset};
use crate::row_targets::row_targets;
use idx_header::Header;

/// The row place of an offset of a block, whose addresses are counted from its first one: how many points of the block,
/// of the box or not, come in row-major order before the point of that address.
pub fn row_place(header: &Header, block: u64, offset: u64) -> u64
    requires exists { block < block_count header.now }
    requires offset { offset < 2 ^ header.now.block_bits }
    ensures value { result ≡
        row_place header.now.mask (length header.now.box) header.now.block_bits block offset }
    ensures small { result < 2 ^ header.now.block_bits }
{
    place_of_offset(&header.mask(), header.bits_per_block(), block, offset)
}

/// The offset of a row place in a block: the inverse of `row_place`.
pub fn offset_at(header: &Header, block: u64, place: u64) -> u64
    requires exists { block < block_count header.now }
    requires place { place < 2 ^ header.now.block_bits }
    ensures value { result ≡
        offset_at header.now.mask (length header.now.box) header.now.block_bits block place }
    ensures small { result < 2 ^ header.now.block_bits }
{
    offset_of_place(&header.mask(), header.bits_per_block(), block, place)
}

/// Puts the samples of a block of a field, which lie in the row-major order of their points, into the order of their
/// hierarchical addresses, in place.
pub fn to_hz(header: &Header, field: u32, block: u64, bytes: &mut [u8])
    requires field { field < length header.now.fields }
    requires exists { block < block_count header.now }
    requires room { length bytes.old ≡ block_bytes header.now field }
    ensures { bytes.new ≡ hz_from_rows header.now.mask (length header.now.box) header.now.block_bits block
        (sample_bytes_of header.now field) bytes.old }
{
    let bits = header.bits_per_block();
    let targets = row_targets(&header.mask(), bits, block);
    take_from_rows(
        bytes,
        header.sample_bytes(field) as usize,
        bits,
        block,
        &targets,
    );
}

/// Puts the samples of a block of a field, which lie in the order of their hierarchical addresses, into the row-major
/// order of their points, in place: the inverse of `to_hz`.
pub fn to_rows(header: &Header, field: u32, block: u64, bytes: &mut [u8])
    requires field { field < length header.now.fields }
    requires exists { block < block_count header.now }
    requires room { length bytes.old ≡ block_bytes header.now field }
    ensures { bytes.new ≡ rows_from_hz header.now.mask (length header.now.box) header.now.block_bits block
        (sample_bytes_of header.now field) bytes.old }
{
    let bits = header.bits_per_block();
    let targets = row_targets(&header.mask(), bits, block);
    put_into_rows(
        bytes,
        header.sample_bytes(field) as usize,
        bits,
        block,
        &targets,
    );
}
