//! The row place of an offset of a block, and the offset of a row place.
ghost use Rattle.std.specs.Prelude.{◌≡◌, ℕ, ◌-◌, ◌^◌, ◌<◌, ◌≤◌, length};
ghost use Rattle.idx_hz.specs.Mask.{IsMask, NamesAxes};
ghost use Rattle.idx_rowmajor.specs.RowPlace.{offset_at, row_place};

use crate::bit_places::{MAX_BITS, inverse};
use crate::carried::carried;
use crate::row_targets::row_targets;
use crate::turned::bits_of;
use idx_hz::Mask;

/// The row place of an offset of a block of 2^bits addresses.
pub(crate) fn place_of_offset(mask: &Mask, bits: u32, block: u64, offset: u64) -> u64
    requires mask { IsMask mask.now }
    requires some { 1 ≤ bits }
    requires few { bits ≤ MAX_BITS }
    requires fits { bits ≤ length mask.now }
    requires exists { block < 2 ^ (length mask.now - bits) }
    requires offset { offset < 2 ^ bits }
    ensures small { result < 2 ^ bits }
    ensures value { (axes : ℕ) → NamesAxes mask.now axes → result ≡ row_place mask.now axes bits block offset }
{
    let targets = row_targets(mask, bits, block);
    carried(&targets, bits, bits_of(bits, block, offset as usize)) as u64
}

/// The offset in a block of 2^bits addresses whose point has a row place.
pub(crate) fn offset_of_place(mask: &Mask, bits: u32, block: u64, place: u64) -> u64
    requires mask { IsMask mask.now }
    requires some { 1 ≤ bits }
    requires few { bits ≤ MAX_BITS }
    requires fits { bits ≤ length mask.now }
    requires exists { block < 2 ^ (length mask.now - bits) }
    requires place { place < 2 ^ bits }
    ensures small { result < 2 ^ bits }
    ensures value { (axes : ℕ) → NamesAxes mask.now axes → result ≡ offset_at mask.now axes bits block place }
{
    let targets = row_targets(mask, bits, block);
    let carrying = carried(&inverse(&targets, bits), bits, place as usize);
    bits_of(bits, block, carrying) as u64
}
