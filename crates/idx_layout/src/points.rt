ghost use Rattle.std.specs.Prelude.{◌≡◌, ◌-◌, ◌^◌, ◌<◌, ◌≤◌, filter, length};
ghost use Rattle.std.specs.List.{range_with_len};
ghost use Rattle.idx_geom.specs.Region.{upper_ends};
ghost use Rattle.idx_hz.specs.Mask.{HasAddress};
ghost use Rattle.idx_layout.specs.Placing.{has_point_in};

use crate::blocks_in_file::FileBlocks;
use idx_geom::Region;
use idx_grid::{count_in, shape};
use idx_hz::Mask;

/// Whether some point of a box has its hierarchical address in a block of 2^bits addresses. Each point of the box has an
/// address where its upper end does. The answer takes a few operations an axis.
pub fn has_point_in(mask: &Mask, region: &Region, bits: u32, block: u64) -> bool
    requires address { HasAddress mask.now (upper_ends region.now) }
    requires bits { bits ≤ length mask.now }
    requires exists { block < 2 ^ (length mask.now - bits) }
    ensures { result ≡ has_point_in mask.now region.now bits block }
{
    let shape = shape(mask, region.axes(), bits, block);
    match region.meet(&shape.region) {
        Some(common) => count_in(&common, &shape.grid) > 0,
        None => false,
    }
}

/// The blocks from `first` on and before `end` that have a point of a box, as `has_point_in` says, rising. Each that has
/// takes a few tests for each digit of the number of blocks.
pub fn blocks_in(mask: &Mask, region: &Region, bits: u32, first: u64, end: u64) -> FileBlocks
    requires address { HasAddress mask.now (upper_ends region.now) }
    requires bits { bits ≤ length mask.now }
    ensures { result ≡ filter (has_point_in mask.now region.now bits) (range_with_len first (end - first)) }
{
    FileBlocks::between(mask, region, bits, first, end)
}

/// How many blocks `blocks_in` gives.
pub fn blocks_with_points(mask: &Mask, region: &Region, bits: u32, first: u64, end: u64) -> u64
    requires address { HasAddress mask.now (upper_ends region.now) }
    requires bits { bits ≤ length mask.now }
    ensures { result ≡ length (filter (has_point_in mask.now region.now bits) (range_with_len first (end - first))) }
{
    blocks_in(mask, region, bits, first, end).count() as u64
}
