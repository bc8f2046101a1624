ghost use Rattle.std.specs.Prelude.{◌≡◌, ◌*◌, ◌^◌, ◌≤◌, length};
ghost use Rattle.std.specs.List.{flat_map, range_with_len};
ghost use Rattle.idx_geom.specs.Region.{points, upper_ends};
ghost use Rattle.idx_hz.specs.Mask.{HasAddress, IsMask};
ghost use Rattle.idx_block.specs.Stored.{stored};

use crate::by_addresses::put_sample;
use crate::by_lanes::fill_by_lanes;
use idx_geom::Region;
use idx_hz::Mask;

/// Makes block 0, of 2^bits addresses, out of the raw samples of a box. It has the sample with the address 0, and
/// behind it the levels 1 to `bits`, each of them as many addresses as there are before it: block 1 of as many.
pub(crate) fn fill_first_block(
    mask: &Mask,
    region: &Region,
    bits: u32,
    size: usize,
    samples: &[u8],
    into: &mut [u8],
)
    requires mask { IsMask mask.now }
    requires address { HasAddress mask.now (upper_ends region.now) }
    requires bits { bits ≤ length mask.now }
    requires few_bits { bits ≤ 20 }
    requires some { 1 ≤ size }
    requires few { size ≤ 64 }
    requires samples { length samples.now ≡ size * length (points region.now) }
    requires room { length into.old ≡ size * 2 ^ bits }
    ensures { into.new ≡ flat_map (stored mask.now region.now size samples.now) (range_with_len 0 (2 ^ bits)) }
{
    put_sample(mask, region, 0, samples, &mut into[..size]);
    let mut filled = size;
    for level in 0..bits {
        fill_by_lanes(
            mask,
            region,
            level,
            1,
            size,
            samples,
            &mut into[filled..2 * filled],
        );
        filled *= 2;
    }
}
