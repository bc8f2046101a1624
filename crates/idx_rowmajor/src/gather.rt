//! The samples of a block, permuted by the bits of their places.
ghost use Rattle.std.specs.Prelude.{◌≡◌, ℕ, ◌*◌, ◌^◌, ◌<◌, ◌≤◌, length};
ghost use Rattle.idx_rowmajor.specs.Bits.{ArePlaces};
ghost use Rattle.idx_rowmajor.specs.Exchange.{AreGathered, AreTaken, IsExchanged};
ghost use Rattle.idx_rowmajor.specs.Rows.{sample_of};
ghost use Rattle.idx_rowmajor.specs.Targets.{bits_of};

use crate::bit_places::{MAX_BITS, inverse};
use crate::bit_tables::BitTables;
use crate::involutions::split;
use crate::passes::{LARGE, MAX_BYTES, SMALL, exchange};
use crate::picks::pick;
use crate::turned::BelowHighest;
use idx_lanes::{Sample, by_size};

/// Puts the samples of a block from their row places to their offsets. The targets are those of the offset's bits.
pub(crate) fn take_from_rows(
    bytes: &mut [u8],
    size: usize,
    bits: u32,
    block: u64,
    targets: &[u32; MAX_BITS],
)
    requires some { 0 < size }
    requires few { size ≤ MAX_BYTES }
    requires some_bits { 1 ≤ bits }
    requires few_bits { bits ≤ MAX_BITS }
    requires room { 2 ^ bits * size ≤ length bytes.old }
    requires places { ArePlaces bits targets.now }
    ensures { AreTaken bits block targets.now (sample_of size bytes.old) (sample_of size bytes.new) }
{
    by_size!(size, sample => rows_to_hz(bytes, sample, bits, block, targets));
}

/// Puts the samples of a block from their offsets to their row places.
pub(crate) fn put_into_rows(
    bytes: &mut [u8],
    size: usize,
    bits: u32,
    block: u64,
    targets: &[u32; MAX_BITS],
)
    requires some { 0 < size }
    requires few { size ≤ MAX_BYTES }
    requires some_bits { 1 ≤ bits }
    requires few_bits { bits ≤ MAX_BITS }
    requires room { 2 ^ bits * size ≤ length bytes.old }
    requires places { ArePlaces bits targets.now }
    ensures { AreTaken bits block targets.now (sample_of size bytes.new) (sample_of size bytes.old) }
{
    by_size!(size, sample => hz_to_rows(bytes, sample, bits, block, targets));
}

/// The same for one way to copy a sample.
fn rows_to_hz<S: Sample>(
    bytes: &mut [u8],
    sample: S,
    bits: u32,
    block: u64,
    targets: &[u32; MAX_BITS],
)
    requires some { 0 < S.bytes sample }
    requires few { S.bytes sample ≤ MAX_BYTES }
    requires some_bits { 1 ≤ bits }
    requires few_bits { bits ≤ MAX_BITS }
    requires room { 2 ^ bits * S.bytes sample ≤ length bytes.old }
    requires places { ArePlaces bits targets.now }
    ensures { AreTaken bits block targets.now (sample_of (S.bytes sample) bytes.old)
        (sample_of (S.bytes sample) bytes.new) }
{
    gather(bytes, sample, bits, targets);
    turn(bytes, sample, bits, block);
}

/// The same for one way to copy a sample.
fn hz_to_rows<S: Sample>(
    bytes: &mut [u8],
    sample: S,
    bits: u32,
    block: u64,
    targets: &[u32; MAX_BITS],
)
    requires some { 0 < S.bytes sample }
    requires few { S.bytes sample ≤ MAX_BYTES }
    requires some_bits { 1 ≤ bits }
    requires few_bits { bits ≤ MAX_BITS }
    requires room { 2 ^ bits * S.bytes sample ≤ length bytes.old }
    requires places { ArePlaces bits targets.now }
    ensures { AreTaken bits block targets.now (sample_of (S.bytes sample) bytes.new)
        (sample_of (S.bytes sample) bytes.old) }
{
    turn(bytes, sample, bits, block);
    gather(bytes, sample, bits, &inverse(targets, bits));
}

/// In block 0, exchanges the samples whose places have each other's bits below the highest 1 in reverse order.
fn turn<S: Sample>(bytes: &mut [u8], sample: S, bits: u32, block: u64)
    requires some { 0 < S.bytes sample }
    requires few { S.bytes sample ≤ MAX_BYTES }
    requires some_bits { 1 ≤ bits }
    requires few_bits { bits ≤ MAX_BITS }
    requires room { 2 ^ bits * S.bytes sample ≤ length bytes.old }
    ensures { IsExchanged (2 ^ bits) (bits_of bits block) (sample_of (S.bytes sample) bytes.old)
        (sample_of (S.bytes sample) bytes.new) }
{
    if block == 0 {
        exchange(bytes, sample, 1 << bits, &BelowHighest::of_bits(bits));
    }
}

/// Puts to each place the sample of the place that has its bits, each bit at its target.
fn gather<S: Sample>(bytes: &mut [u8], sample: S, bits: u32, targets: &[u32; MAX_BITS])
    requires some { 0 < S.bytes sample }
    requires few { S.bytes sample ≤ MAX_BYTES }
    requires few_bits { bits ≤ MAX_BITS }
    requires room { 2 ^ bits * S.bytes sample ≤ length bytes.old }
    requires places { ArePlaces bits targets.now }
    ensures { AreGathered bits targets.now (sample_of (S.bytes sample) bytes.old)
        (sample_of (S.bytes sample) bytes.new) }
{
    if bytes.len() <= SMALL {
        gather_by_copy::<S, SMALL>(bytes, sample, bits, targets);
    } else if bytes.len() <= LARGE {
        gather_by_copy::<S, LARGE>(bytes, sample, bits, targets);
    } else {
        gather_by_exchanges(bytes, sample, bits, targets);
    }
}

/// The same in one pass, out of a copy of the block, for which there is room for `N` bytes.
fn gather_by_copy<S: Sample, const N: usize>(
    bytes: &mut [u8],
    sample: S,
    bits: u32,
    targets: &[u32; MAX_BITS],
)
    requires some { 0 < S.bytes sample }
    requires few { S.bytes sample ≤ MAX_BYTES }
    requires few_bits { bits ≤ MAX_BITS }
    requires few_bytes { length bytes.old ≤ N }
    requires small { N ≤ LARGE }
    requires room { 2 ^ bits * S.bytes sample ≤ length bytes.old }
    requires places { ArePlaces bits targets.now }
    ensures { AreGathered bits targets.now (sample_of (S.bytes sample) bytes.old)
        (sample_of (S.bytes sample) bytes.new) }
{
    let mut room = [0; N];
    let copy = &mut room[..bytes.len()];
    copy.copy_from_slice(bytes);
    let tables = BitTables::of_places(targets, bits);
    pick(copy, sample, 1 << bits, &tables, bytes);
}

/// The same in two passes of exchanges.
fn gather_by_exchanges<S: Sample>(bytes: &mut [u8], sample: S, bits: u32, targets: &[u32; MAX_BITS])
    requires some { 0 < S.bytes sample }
    requires few { S.bytes sample ≤ MAX_BYTES }
    requires few_bits { bits ≤ MAX_BITS }
    requires room { 2 ^ bits * S.bytes sample ≤ length bytes.old }
    requires places { ArePlaces bits targets.now }
    ensures { AreGathered bits targets.now (sample_of (S.bytes sample) bytes.old)
        (sample_of (S.bytes sample) bytes.new) }
{
    let halves = split(targets, bits);
    let second = BitTables::of_places(&halves.second, bits);
    exchange(bytes, sample, 1 << bits, &second);
    let first = BitTables::of_places(&halves.first, bits);
    exchange(bytes, sample, 1 << bits, &first);
}
