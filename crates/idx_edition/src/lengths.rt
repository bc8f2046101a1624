ghost use Rattle.std.specs.Prelude.{◌≡◌, ◌*◌, ◌≤◌, ◌^◌, IfOk, length};
ghost use Rattle.idx_layout.specs.OfHeader.{placing_of};
ghost use Rattle.idx_layout.specs.Shape.{block_lengths};

use idx_header::Header;
use idx_outside::NoMemory;
use std::alloc::Global;

/// How many bytes a block of each field has, by the number of the field.
pub fn block_lengths(alloc: Global, header: &Header) -> Result<Vec<u64>, NoMemory>
    ensures { IfOk result (λ lengths. lengths.items ≡ block_lengths (placing_of header.now)) }
{
    let mut lengths = Vec::new(alloc);
    for field in 0..header.field_count() {
        lengths.push(header.block_bytes(field))?;
    }
    Ok(lengths)
}

/// How many rows the table of a file has.
pub(crate) fn row_count(header: &Header) -> u64
    ensures value { result ≡ length header.now.fields * header.now.blocks_per_file }
    ensures few { result ≤ 2 ^ 22 }
    ensures fields { 1 ≤ length header.now.fields }
    ensures places { 1 ≤ header.now.blocks_per_file }
{
    u64::from(header.field_count()) * header.blocks_per_file()
}
