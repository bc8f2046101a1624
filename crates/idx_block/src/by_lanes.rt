ghost use Rattle.std.specs.Prelude.{◌≡◌, ◌-◌, ◌*◌, ◌^◌, ◌<◌, ◌≤◌, false, length, replicate};
ghost use Rattle.std.specs.List.{flat_map, range_with_len};
ghost use Rattle.idx_geom.specs.Region.{points, upper_ends};
ghost use Rattle.idx_hz.specs.Mask.{HasAddress, IsMask};
ghost use Rattle.idx_block.specs.Stored.{stored};

use crate::copy::copy_points;
use idx_geom::Region;
use idx_grid::shape;
use idx_hz::Mask;
use idx_lanes::BlockPart;

/// Makes a block other than block 0, of 2^bits addresses, out of the raw samples of a box: along the lanes on which the
/// samples of the block's points lie. The box, `region`, is any whose points have addresses, the dataset's or a part of
/// it. `samples` has a sample of `size` bytes for each of its points, in row-major order, axis 0 fastest. An address that
/// no point of the box has holds zeros.
pub fn fill_by_lanes(
    mask: &Mask,
    region: &Region,
    bits: u32,
    block: u64,
    size: usize,
    samples: &[u8],
    into: &mut [u8],
)
    requires mask { IsMask mask.now }
    requires address { HasAddress mask.now (upper_ends region.now) }
    requires bits { bits ≤ length mask.now }
    requires few_bits { bits ≤ 20 }
    requires exists { block < 2 ^ (length mask.now - bits) }
    requires other { 1 ≤ block }
    requires some { 1 ≤ size }
    requires few { size ≤ 64 }
    requires samples { length samples.now ≡ size * length (points region.now) }
    requires room { length into.old ≡ size * 2 ^ bits }
    ensures { into.new ≡ flat_map (stored mask.now region.now size samples.now)
        (range_with_len (block * 2 ^ bits) (2 ^ bits)) }
{
    let shape = shape(mask, region.axes(), bits, block);
    clear_unless(region.holds(&shape.region), into);
    if let Some(common) = region.meet(&shape.region) {
        let part = BlockPart {
            mask: *mask,
            bits,
            k: shape.hi_level - 1 - bits,
            region: *region,
            common,
            size: size as u64,
        };
        copy_points(&part, &shape.grid, samples, into);
    }
}

/// Writes zeros over a block, unless all of it is written anyway.
fn clear_unless(whole: bool, into: &mut [u8])
    ensures { whole ≡ false → into.new ≡ replicate (length into.old) 0 }
{
    if !whole {
        into.fill(0);
    }
}
