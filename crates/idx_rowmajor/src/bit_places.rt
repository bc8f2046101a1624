//! The places to which the bits of a number go.
ghost use Rattle.std.specs.Prelude.{◌≡◌, ℕ, ◌+◌, ◌*◌, ◌<◌, ◌≤◌, length, slice_index, EachIndex};
ghost use Rattle.idx_hz.specs.Mask.{IsMask, bit_count};
ghost use Rattle.idx_rowmajor.specs.Bits.{ArePlaces};
ghost use Rattle.idx_rowmajor.specs.Digits.{digits_behind};
ghost use Rattle.idx_rowmajor.specs.Targets.{AreInverse, AreMirrored, AreTargets, first_place};

use idx_geom::MAX_AXES;
use idx_hz::Mask;

/// An offset has at most so many bits.
pub(crate) const MAX_BITS: usize = 20;

/// The place in a row place to which each bit of an offset goes, where the offset's bits are those of so many digits
/// behind the first ones.
pub(crate) fn targets(mask: &Mask, first: u32, bits: u32) -> [u32; MAX_BITS]
    requires mask { IsMask mask.now }
    requires digits { first + bits ≤ length mask.now }
    requires few { bits ≤ MAX_BITS }
    ensures room { length result ≡ 20 }
    ensures value { AreTargets bits (digits_behind mask.now first bits) result }
{
    let mut next = first_places(mask, first, bits);
    let mut targets = [0; MAX_BITS];
    for bit in 0..bits {
        let axis = mask.axis(first + bits - bit) as usize;
        targets[bit as usize] = next[axis];
        next[axis] += 1;
    }
    targets
}

/// The lowest place of each axis: as many as there are digits of the axes before it.
fn first_places(mask: &Mask, first: u32, bits: u32) -> [u32; MAX_AXES]
    requires mask { IsMask mask.now }
    requires digits { first + bits ≤ length mask.now }
    requires few { bits ≤ MAX_BITS }
    ensures room { length result ≡ 5 }
    ensures value { EachIndex result (λ a. slice_index result a ≡ first_place (digits_behind mask.now first bits) a) }
    ensures small { EachIndex result (λ a. slice_index result a ≤ 100) }
{
    let mut places = [0; MAX_AXES];
    for axis in 1..MAX_AXES {
        places[axis] = places[axis - 1] + digits_of(mask, first, bits, axis as u32 - 1);
    }
    places
}

/// How many of the digits name an axis.
fn digits_of(mask: &Mask, first: u32, bits: u32, axis: u32) -> u32
    requires mask { IsMask mask.now }
    requires digits { first + bits ≤ length mask.now }
    requires few { bits ≤ MAX_BITS }
    ensures value { result ≡ bit_count axis (digits_behind mask.now first bits) }
    ensures small { result ≤ bits }
{
    let mut count = 0;
    for bit in 0..bits {
        if mask.axis(first + bits - bit) == axis {
            count += 1;
        }
    }
    count
}

/// The places of the bits in reverse order.
pub(crate) fn mirrored(targets: &[u32; MAX_BITS], bits: u32) -> [u32; MAX_BITS]
    requires { bits ≤ MAX_BITS }
    ensures room { length result ≡ 20 }
    ensures value { AreMirrored bits targets.now result }
{
    let mut mirrored = [0; MAX_BITS];
    for bit in 0..bits {
        mirrored[bit as usize] = targets[(bits - 1 - bit) as usize];
    }
    mirrored
}

/// The places that take the bits back.
pub(crate) fn inverse(targets: &[u32; MAX_BITS], bits: u32) -> [u32; MAX_BITS]
    requires bits { bits ≤ MAX_BITS }
    requires places { ArePlaces bits targets.now }
    ensures room { length result ≡ 20 }
    ensures value { AreInverse bits targets.now result }
{
    let mut inverse = [0; MAX_BITS];
    for bit in 0..bits {
        inverse[targets[bit as usize] as usize] = bit;
    }
    inverse
}
