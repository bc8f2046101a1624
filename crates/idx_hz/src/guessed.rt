ghost use Rattle.std.specs.Prelude.{◌≡◌, ℕ, List, ◌+◌, ◌^◌, ◌<◌, ◌≤◌, ◌++◌, IfSome, length, map, sum, take};
ghost use Rattle.std.specs.Option.{SomeIff};
ghost use Rattle.idx_geom.specs.Region.{LiesIn};
ghost use Rattle.idx_hz.specs.Mask.{HasAddress};
ghost use Rattle.idx_hz.specs.Guess.{CanGuess, binary_digits, guessed_mask, round_axes, rounds, upper_bits};

use crate::Mask;
use crate::mask::MAX_DIGITS;
use idx_geom::{MAX_AXES, Region};

/// The guessed mask of a box: each axis gets as many bits as the box's upper end on it has binary digits, where 0 has
/// none. Digits are placed from the finest leftward in rounds; in each round the axes go from last to first, without
/// those whose bits are used up. `None` exactly where that gives no digit or more than 40.
pub fn guess(region: &Region) -> Option<Mask>
    ensures mask { SomeIff result (CanGuess region.now) (guessed_mask region.now) }

    // Each point of the box lies below the mask's size.
    ensures holds { IfSome result (λ mask. (p : List ℕ) → LiesIn region.now p → HasAddress mask p) }
{
    let bits = bits_of_axes(region);
    let bits = &bits[..region.axes() as usize];
    let total = sum_of(bits);
    if total < 1 || total > MAX_DIGITS as u32 {
        return None;
    }
    Some(mask_of_bits(bits, total))
}

/// How many bits each axis gets.
fn bits_of_axes(region: &Region) -> [u32; MAX_AXES]
    ensures room { length result ≡ 5 }
    ensures value { take (length region.now) result ≡ upper_bits region.now }
    ensures axes { length region.now ≤ 5 }
    ensures few { sum (upper_bits region.now) < 2 ^ 32 }
{
    let upper = region.hi();
    let mut bits = [0; MAX_AXES];
    for axis in 0..region.axes() {
        bits[axis as usize] = digit_count(upper.get(axis));
    }
    bits
}

/// How many binary digits an end of a region has.
fn digit_count(end: u64) -> u32
    requires { end ≤ 2 ^ 40 }
    ensures { result ≡ binary_digits end }
{
    u64::BITS - end.leading_zeros()
}

fn sum_of(bits: &[u32]) -> u32
    requires { sum bits.now < 2 ^ 32 }
    ensures { result ≡ sum bits.now }
{
    bits.iter().sum()
}

/// The mask of all rounds, where the axes have so many bits, `total` together.
fn mask_of_bits(bits: &[u32], total: u32) -> Mask
    requires axes { length bits.now ≤ 5 }
    requires all { total ≡ sum bits.now }
    requires some { 1 ≤ total }
    requires few { total ≤ MAX_DIGITS }
    ensures { result ≡ rounds bits.now total }
{
    let mut digits = [0; MAX_DIGITS];
    let mut len = 0;
    for round in (0..total).rev() {
        len = place_round(&mut digits, len, bits, round);
    }
    Mask::of_axes(&digits[..len])
}

/// Places the axes of a round behind so many digits, and answers how many digits there are then.
fn place_round(digits: &mut [u8; MAX_DIGITS], placed: usize, bits: &[u32], round: u32) -> usize
    requires axes { length bits.now ≤ 5 }
    requires room { placed + length (round_axes bits.now round) ≤ MAX_DIGITS }
    ensures count { result ≡ placed + length (round_axes bits.now round) }
    ensures digits { take result digits.new ≡ take placed digits.old ++ round_axes bits.now round }
    ensures room { length digits.new ≡ MAX_DIGITS }
{
    let mut len = placed;
    for (axis, count) in bits.iter().enumerate() {
        if round < *count {
            digits[len] = axis as u8;
            len += 1;
        }
    }
    len
}
