ghost use Rattle.std.specs.Prelude.{◌≡◌, ◌*◌, ◌^◌, ◌≤◌, length};
ghost use Rattle.idx_geom.specs.Region.{upper_ends};
ghost use Rattle.idx_hz.specs.Mask.{HasAddress, IsMask};
ghost use Rattle.idx_scatter.specs.Asked.{asked_points};
ghost use Rattle.idx_scatter.specs.Scatter.{AreFirstScattered};

use crate::by_lanes::scatter_by_lanes;
use crate::order::Order;

/// Puts the samples of block 0, of 2^`bits` addresses, to the places of their points in the answer. It has the sample
/// of address 0, and behind it the levels 1 to `bits`: each of them has as many addresses as all before it, and is
/// block 1 of blocks of so many.
pub(crate) fn scatter_first_block(
    order: &Order,
    bits: u32,
    size: usize,
    samples: &[u8],
    into: &mut [u8],
)
    requires mask { IsMask order.now.mask }
    requires address { HasAddress order.now.mask (upper_ends order.now.region) }
    requires bits { bits ≤ length order.now.mask }
    requires few_bits { bits ≤ 20 }
    requires some { 1 ≤ size }
    requires few { size ≤ 64 }
    requires samples { length samples.now ≡ size * 2 ^ bits }
    requires room { length into.old ≡ size * length (asked_points order.now) }
    ensures { AreFirstScattered order.now (2 ^ bits) size samples.now into.old into.new }
{
    put_first(order, &samples[..size], into);
    let mut put = size;
    for level in 0..bits {
        scatter_by_lanes(order, level, 1, size, &samples[put..2 * put], into);
        put *= 2;
    }
}

/// Puts the sample with the address 0 to the place of its point, if that is asked for.
fn put_first(order: &Order, sample: &[u8], into: &mut [u8])
    requires mask { IsMask order.now.mask }
    requires address { HasAddress order.now.mask (upper_ends order.now.region) }
    requires some { 1 ≤ length sample.now }
    requires few { length sample.now ≤ 64 }
    requires room { length into.old ≡ length sample.now * length (asked_points order.now) }
    ensures { AreFirstScattered order.now 1 (length sample.now) sample.now into.old into.new }
{
    let p = order.mask().point_of_hz(0, order.region().axes());
    if order.asks(0) && order.region().contains(&p) {
        let at = order.before(order.region().rank_of(&p) as usize) * sample.len();
        into[at..at + sample.len()].copy_from_slice(sample);
    }
}
