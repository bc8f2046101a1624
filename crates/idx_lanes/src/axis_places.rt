ghost use Rattle.std.specs.Prelude.{◌≡◌, ◌+◌, ◌*◌, ◌/◌, ◌%◌, ◌^◌, ◌<◌, ◌≤◌, if◌then◌else◌, length};
ghost use Rattle.idx_hz.specs.Mask.{IsMask};
ghost use Rattle.idx_lanes.specs.Lanes.{block_digits};
ghost use Rattle.idx_lanes.specs.Spread.{axis_bits, next_part, spread};

use idx_hz::Mask;

/// What an axis gives to the place of a sample in its block.
#[derive(Clone, Copy)]
pub(crate) struct AxisPlaces {
    /// The bits of the place that the axis gives.
    pub(crate) bits: usize,
    /// What a coordinate gives.
    pub(crate) first: usize,
    /// The bits of the coordinate that are left.
    rest: u64,
}

/// The bits that an axis gives to the places of a block, and what a coordinate in strides gives: the block's digits are
/// `bits` of the mask's, behind the first `k`.
pub(crate) fn axis_places(mask: &Mask, k: u32, bits: u32, axis: u32, x: u64) -> AxisPlaces
    requires mask { IsMask mask.now }
    requires digits { bits + k ≤ length mask.now }
    requires few { bits ≤ 20 }
    ensures bits { result.bits ≡ axis_bits axis (block_digits mask.now k bits) }
    ensures first { result.first ≡ spread axis (block_digits mask.now k bits) x }
{
    let mut places = AxisPlaces {
        bits: 0,
        first: 0,
        rest: x,
    };
    let mut unit = 1;
    for j in 0..bits {
        places = with_digit(places, mask.axis(k + bits - j) == axis, unit);
        unit *= 2;
    }
    places
}

/// The same with one digit more in front, whose place in the block is `unit`: one of the axis or not.
fn with_digit(places: AxisPlaces, own: bool, unit: usize) -> AxisPlaces
    requires unit { unit ≤ 2 ^ 20 }
    requires bits { places.bits < unit }
    requires first { places.first < unit }
    ensures bits { result.bits ≡ (if own then 1 else 0) * unit + places.bits }
    ensures first { result.first ≡ (if own then places.rest % 2 else 0) * unit + places.first }
    ensures rest { result.rest ≡ (if own then places.rest / 2 else places.rest) }
{
    if own {
        AxisPlaces {
            bits: unit + places.bits,
            first: places.rest as usize % 2 * unit + places.first,
            rest: places.rest / 2,
        }
    } else {
        places
    }
}

/// The next number whose bits are all among the given ones; behind the greatest one comes 0.
#[inline(always)]
pub fn next_part(bits: usize, part: usize) -> usize
    ensures { result ≡ next_part bits part }
{
    part.wrapping_sub(bits) & bits
}
