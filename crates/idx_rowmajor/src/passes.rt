//! Passes over the samples of a block, each of which exchanges pairs of them.
ghost use Rattle.std.specs.Prelude.{◌≡◌, ℕ, ◌+◌, ◌*◌, ◌<◌, ◌≤◌, length, take, drop};
ghost use Rattle.idx_lanes.specs.Written.{written};
ghost use Rattle.idx_rowmajor.specs.Exchange.{IsPairing, IsExchanged};
ghost use Rattle.idx_rowmajor.specs.Rows.{sample_of};

use crate::picks::pick_partners;
use idx_lanes::Sample;

/// A sample has at most so many bytes.
pub(crate) const MAX_BYTES: usize = 64;

/// Of a block of at most so many bytes a copy is made on the stack, which costs little.
pub(crate) const SMALL: usize = 1 << 16;

/// Of a larger one of at most so many bytes too; of others none is made.
pub(crate) const LARGE: usize = 1 << 18;

/// A pairing of places: each place has a partner, whose partner it is, or is its own.
pub(crate) trait Pairing {
    /// The partner of a place.
    ghost partner: { Self → ℕ → ℕ };

    /// What the computation of a place's partner needs.
    ghost is_ready: { Self → ℕ → Type 0 };

    /// The partner of a place.
    fn partner(&self, place: usize) -> usize
        requires { is_ready self.now place }
        ensures { result ≡ partner self.now place };
}

/// Exchanges the samples of each pair of places.
pub(crate) fn exchange<S: Sample, P: Pairing>(
    block: &mut [u8],
    sample: S,
    count: usize,
    pairing: &P,
)
    requires some { 0 < S.bytes sample }
    requires few { S.bytes sample ≤ MAX_BYTES }
    requires ready { (o : ℕ) → o < count → P.is_ready pairing.now o }
    requires pairing { IsPairing count (P.partner pairing.now) }
    requires room { count * S.bytes sample ≤ length block.old }
    ensures { IsExchanged count (P.partner pairing.now) (sample_of (S.bytes sample) block.old)
        (sample_of (S.bytes sample) block.new) }
{
    if block.len() <= SMALL {
        exchange_by_copy::<S, P, SMALL>(block, sample, count, pairing);
    } else if block.len() <= LARGE {
        exchange_by_copy::<S, P, LARGE>(block, sample, count, pairing);
    } else {
        exchange_in_place(block, sample, count, pairing);
    }
}

/// The same pair by pair.
fn exchange_in_place<S: Sample, P: Pairing>(block: &mut [u8], sample: S, count: usize, pairing: &P)
    requires some { 0 < S.bytes sample }
    requires few { S.bytes sample ≤ MAX_BYTES }
    requires ready { (o : ℕ) → o < count → P.is_ready pairing.now o }
    requires pairing { IsPairing count (P.partner pairing.now) }
    requires room { count * S.bytes sample ≤ length block.old }
    ensures { IsExchanged count (P.partner pairing.now) (sample_of (S.bytes sample) block.old)
        (sample_of (S.bytes sample) block.new) }
{
    let size = sample.bytes();
    for place in 0..count {
        let other = pairing.partner(place);
        if place < other {
            swap(block, sample, place * size, other * size);
        }
    }
}

/// The same out of a copy of the block, for which there is room for `N` bytes.
fn exchange_by_copy<S: Sample, P: Pairing, const N: usize>(
    block: &mut [u8],
    sample: S,
    count: usize,
    pairing: &P,
)
    requires some { 0 < S.bytes sample }
    requires few { S.bytes sample ≤ MAX_BYTES }
    requires ready { (o : ℕ) → o < count → P.is_ready pairing.now o }
    requires pairing { IsPairing count (P.partner pairing.now) }
    requires few_bytes { length block.old ≤ N }
    requires small { N ≤ LARGE }
    requires room { count * S.bytes sample ≤ length block.old }
    ensures { IsExchanged count (P.partner pairing.now) (sample_of (S.bytes sample) block.old)
        (sample_of (S.bytes sample) block.new) }
{
    let mut room = [0; N];
    let copy = &mut room[..block.len()];
    copy.copy_from_slice(block);
    pick_partners(copy, sample, count, pairing, block);
}

/// Exchanges the samples that begin at two bytes.
#[inline(always)]
fn swap<S: Sample>(block: &mut [u8], sample: S, a: usize, b: usize)
    requires some { 0 < S.bytes sample }
    requires few { S.bytes sample ≤ MAX_BYTES }
    requires first { a + S.bytes sample ≤ length block.old }
    requires second { b + S.bytes sample ≤ length block.old }
    ensures { block.new ≡ written b (take (S.bytes sample) (drop a block.old))
        (written a (take (S.bytes sample) (drop b block.old)) block.old) }
{
    let mut first = [0; MAX_BYTES];
    let mut second = [0; MAX_BYTES];
    sample.copy(block, a, &mut first, 0);
    sample.copy(block, b, &mut second, 0);
    sample.copy(&second, 0, block, a);
    sample.copy(&first, 0, block, b);
}
