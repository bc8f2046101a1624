ghost use Rattle.std.specs.Prelude.{◌≡◌, ℕ, ◌-◌, ◌^◌, ◌<◌, ◌≤◌, length};
ghost use Rattle.idx_hz.specs.Mask.{IsMask, NamesAxes};
ghost use Rattle.idx_rowmajor.specs.Bits.{ArePlaces};
ghost use Rattle.idx_rowmajor.specs.Targets.{GiveRowPlaces};

use crate::bit_places::{MAX_BITS, mirrored, targets};
use idx_hz::Mask;

/// The place in the row place to which each bit of an offset of a block goes; in block 0 these are the bits of the
/// offset with those below its highest 1 reversed.
pub(crate) fn row_targets(mask: &Mask, bits: u32, block: u64) -> [u32; MAX_BITS]
    requires mask { IsMask mask.now }
    requires few { bits ≤ MAX_BITS }
    requires fits { bits ≤ length mask.now }
    requires exists { block < 2 ^ (length mask.now - bits) }
    ensures room { length result ≡ 20 }
    ensures places { ArePlaces bits result }
    ensures value { (axes : ℕ) → NamesAxes mask.now axes → GiveRowPlaces mask.now axes bits block result }
{
    if block == 0 {
        mirrored(&targets(mask, 0, bits), bits)
    } else {
        targets(mask, block.ilog2(), bits)
    }
}
