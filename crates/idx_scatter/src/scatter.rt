ghost use Rattle.std.specs.Prelude.{◌≡◌, ◌-◌, ◌*◌, ◌^◌, ◌<◌, ◌≤◌, length};
ghost use Rattle.idx_geom.specs.Region.{upper_ends};
ghost use Rattle.idx_hz.specs.Mask.{HasAddress, IsMask};
ghost use Rattle.idx_scatter.specs.Asked.{asked_points};
ghost use Rattle.idx_scatter.specs.Scatter.{IsScattered};

use crate::by_lanes::scatter_by_lanes;
use crate::first_block::scatter_first_block;
use crate::order::Order;

/// Puts the samples of a block of 2^`bits` hierarchical addresses, of `size` bytes each, to the places of their points
/// in an answer: `into` holds a sample for each point that is asked for, in the order of those points. What stands at
/// the places of points outside the block stays, and samples of points that are not asked for are passed over (Pascucci
/// and Frank 2001; the OpenVisus IDX documentation).
pub fn scatter_block(
    order: &Order,
    bits: u32,
    block: u64,
    size: usize,
    samples: &[u8],
    into: &mut [u8],
)
    requires mask { IsMask order.now.mask }
    requires address { HasAddress order.now.mask (upper_ends order.now.region) }
    requires bits { bits ≤ length order.now.mask }
    requires few_bits { bits ≤ 20 }
    requires exists { block < 2 ^ (length order.now.mask - bits) }
    requires some { 1 ≤ size }
    requires few { size ≤ 64 }
    requires samples { length samples.now ≡ size * 2 ^ bits }
    requires room { length into.old ≡ size * length (asked_points order.now) }
    ensures { IsScattered order.now bits block size samples.now into.old into.new }
{
    if block == 0 {
        scatter_first_block(order, bits, size, samples, into);
    } else {
        scatter_by_lanes(order, bits, block, size, samples, into);
    }
}
