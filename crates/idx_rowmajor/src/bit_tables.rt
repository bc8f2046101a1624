//! Bits that go to their places, by tables.
ghost use Rattle.std.specs.Prelude.{◌≡◌, ℕ, ◌+◌, ◌*◌, ◌^◌, ◌<◌, ◌≤◌, bit_or, length, slice_index};
ghost use Rattle.idx_rowmajor.specs.Bits.{ArePlaces, Carries};
ghost use Rattle.idx_rowmajor.specs.Tables.{AreApart, AreEntries, partner_of};

use crate::bit_places::MAX_BITS;
use crate::passes::Pairing;

/// How many bits the number of a table's entry has.
const ENTRY_BITS: u32 = 10;

/// How many entries a table has.
pub(crate) const ENTRIES: usize = 1 << ENTRY_BITS;

/// Places of at most 20 bits, each with the place that has its bits, each bit at its own place: by one table for the
/// ten lowest bits and one for those above.
#[derive(Drop)]
pub(crate) struct BitTables {
    /// The entries for the lowest bits.
    pub(crate) low: [u32; ENTRIES],
    /// Those for the bits above.
    pub(crate) high: [u32; ENTRIES],
}

impl BitTables {
    /// The tables for these places of so many bits.
    pub(crate) fn of_places(places: &[u32; MAX_BITS], bits: u32) -> BitTables
        requires bits { bits ≤ MAX_BITS }
        requires places { ArePlaces bits places.now }
        ensures { (from : ℕ) → from < 2 ^ bits → Carries bits places.now from (partner_of result from) }
    {
        BitTables {
            low: entries(places, 0, bits.min(ENTRY_BITS)),
            high: entries(places, ENTRY_BITS, bits.saturating_sub(ENTRY_BITS)),
        }
    }
}

impl Pairing for BitTables {
    ghost use Rattle.std.specs.Prelude.{◌<◌, ◌^◌};
    ghost use Rattle.idx_rowmajor.specs.Tables.{partner_of};

    ghost partner = { partner_of };

    ghost is_ready = { λ tables o. o < 2 ^ 20 };

    #[inline(always)]
    fn partner(&self, place: usize) -> usize {
        (self.low[place % ENTRIES] | self.high[place / ENTRIES]) as usize
    }
}

/// A table for so many bits from one on: at each number of so many bits stands the number that has its bits, each at
/// its place.
fn entries(places: &[u32; MAX_BITS], first: u32, bits: u32) -> [u32; ENTRIES]
    requires few { bits ≤ ENTRY_BITS }
    requires within { first + bits ≤ MAX_BITS }
    requires places { AreApart places.now first bits }
    ensures room { length result ≡ 1024 }
    ensures value { AreEntries places.now first bits result }
{
    let mut entries = [0; ENTRIES];
    for bit in 0..bits {
        add_bit(&mut entries, 1 << bit, 1 << places[(first + bit) as usize]);
    }
    entries
}

/// Fills the second half of a table's first entries: each entry of the first half with one more bit.
fn add_bit(entries: &mut [u32; ENTRIES], half: usize, bit: u32)
    requires { 2 * half ≤ 1024 }
    ensures first { (k : ℕ) → k < half → slice_index entries.new k ≡ slice_index entries.old k }
    ensures second { (k : ℕ) → k < half →
        slice_index entries.new (half + k) ≡ bit_or (slice_index entries.old k) bit }
{
    for entry in 0..half {
        entries[half + entry] = entries[entry] | bit;
    }
}
