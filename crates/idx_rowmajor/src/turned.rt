//! The bits below the highest 1 of a number, reversed.
ghost use Rattle.std.specs.Prelude.{◌≡◌, ℕ, ◌-◌, ◌^◌, ◌<◌, ◌≤◌, length, slice_index};
ghost use Rattle.idx_rowmajor.specs.Reverse.{reversed, turned};
ghost use Rattle.idx_rowmajor.specs.Tables.{partner_of};
ghost use Rattle.idx_rowmajor.specs.Targets.{bits_of};

use crate::bit_places::MAX_BITS;
use crate::bit_tables::BitTables;
use crate::passes::Pairing;

/// Places of so many bits, each with the place that has the bits below the highest 1 in reverse order. This and the
/// reversal of all bits take hierarchical addresses to Z addresses.
#[derive(Drop)]
pub(crate) struct BelowHighest {
    /// How many bits a place has.
    bits: u32,
    /// The places with all bits in reverse order.
    mirror: BitTables,
}

impl BelowHighest {
    /// The places of so many bits.
    pub(crate) fn of_bits(bits: u32) -> BelowHighest
        requires { bits ≤ MAX_BITS }
        ensures bits { result.bits ≡ bits }
        ensures mirror { (o : ℕ) → o < 2 ^ bits → partner_of result.mirror o ≡ reversed bits o }
    {
        BelowHighest {
            bits,
            mirror: BitTables::of_places(&mirror(bits), bits),
        }
    }
}

impl Pairing for BelowHighest {
    ghost use Rattle.std.specs.Prelude.{◌≡◌, ◌<◌, ◌≤◌, ◌^◌};
    ghost use Rattle.idx_rowmajor.specs.Reverse.{reversed, turned};
    ghost use Rattle.idx_rowmajor.specs.Tables.{partner_of};

    ghost partner = { λ s. turned s.bits };

    ghost is_ready = { λ s o. (s.bits ≤ 20) × (o < 2 ^ s.bits) × (partner_of s.mirror o ≡ reversed s.bits o) };

    #[inline(always)]
    fn partner(&self, place: usize) -> usize {
        if place == 0 {
            return 0;
        }
        let highest = place.ilog2();
        let behind = self.mirror.partner(place) >> (self.bits - 1 - highest);
        (1 << highest) + behind / 2
    }
}

/// The places of so many bits in reverse order.
fn mirror(bits: u32) -> [u32; MAX_BITS]
    requires { bits ≤ MAX_BITS }
    ensures room { length result ≡ 20 }
    ensures value { (j : ℕ) → j < bits → slice_index result j ≡ bits - 1 - j }
{
    let mut places = [0; MAX_BITS];
    for bit in 0..bits {
        places[bit as usize] = bits - 1 - bit;
    }
    places
}

/// The number whose bits go to their places in the row place of an offset: the offset, and in block 0 the offset with
/// the bits below its highest 1 reversed.
pub(crate) fn bits_of(bits: u32, block: u64, offset: usize) -> usize
    requires some { 1 ≤ bits }
    requires few { bits ≤ 32 }
    requires offset { offset < 2 ^ bits }
    ensures { result ≡ bits_of bits block offset }
{
    if block == 0 {
        turned(bits, offset)
    } else {
        offset
    }
}

/// The number of so many bits with those below its highest 1 reversed.
fn turned(bits: u32, place: usize) -> usize
    requires some { 1 ≤ bits }
    requires few { bits ≤ 32 }
    requires place { place < 2 ^ bits }
    ensures { result ≡ turned bits place }
{
    if place == 0 {
        return 0;
    }
    let mut left = place;
    let mut turned = 1;
    while left > 1 {
        turned = 2 * turned + left % 2;
        left /= 2;
    }
    turned
}
