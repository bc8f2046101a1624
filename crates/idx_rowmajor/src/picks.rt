//! A block out of a copy of it: at each place the sample of the place that tables give.
ghost use Rattle.std.specs.Prelude.{◌≡◌, ℕ, ◌+◌, ◌*◌, ◌^◌, ◌<◌, ◌≤◌, bit_or, length, slice_index};
ghost use Rattle.idx_rowmajor.specs.Exchange.{IsExchanged, IsPairing};
ghost use Rattle.idx_rowmajor.specs.Picks.{AddsBits, AreFirst, GoByEights};
ghost use Rattle.idx_rowmajor.specs.Rows.{sample_of};
ghost use Rattle.idx_rowmajor.specs.Tables.{partner_of};

use crate::bit_tables::{BitTables, ENTRIES};
use crate::passes::{MAX_BYTES, Pairing};
use idx_lanes::Sample;

/// Writes to each place the sample of the place that the tables give for it.
pub(crate) fn pick<S: Sample>(
    from: &[u8],
    sample: S,
    count: usize,
    tables: &BitTables,
    into: &mut [u8],
)
    requires some { 0 < S.bytes sample }
    requires few { S.bytes sample ≤ MAX_BYTES }
    requires few_places { count ≤ 2 ^ 20 }
    requires places { (o : ℕ) → o < count → partner_of tables.now o < count }
    requires bits { AddsBits count (partner_of tables.now) }
    requires read { count * S.bytes sample ≤ length from.now }
    requires write { count * S.bytes sample ≤ length into.old }
    ensures { IsExchanged count (partner_of tables.now) (sample_of (S.bytes sample) from.now)
        (sample_of (S.bytes sample) into.new) }
{
    let size = sample.bytes();
    let firsts = first_places(tables);
    for number in 0..count.div_ceil(ENTRIES) {
        let start = number * ENTRIES;
        let end = count.min(start + ENTRIES);
        pick_run(
            from,
            sample,
            &tables.low[..end - start],
            tables.high[number],
            &firsts,
            &mut into[start * size..end * size],
        );
    }
}

/// The places that the tables give for the first eight.
fn first_places(tables: &BitTables) -> [usize; 8]
    ensures room { length result ≡ 8 }
    ensures value { AreFirst (partner_of tables.now) result }
{
    let mut places = [0; 8];
    for place in 0..8 {
        places[place] = tables.partner(place);
    }
    places
}

/// The same for the places of one entry of the table for their upper bits, by eight places side by side.
fn pick_run<S: Sample>(
    from: &[u8],
    sample: S,
    low: &[u32],
    high: u32,
    firsts: &[usize; 8],
    into: &mut [u8],
)
    requires some { 0 < S.bytes sample }
    requires few { S.bytes sample ≤ MAX_BYTES }
    requires places { (l : ℕ) → l < length low.now →
        (bit_or (slice_index low.now l) high + 1) * S.bytes sample ≤ length from.now }
    requires eights { GoByEights low.now high firsts.now }
    requires write { length low.now * S.bytes sample ≤ length into.old }
    ensures { (l : ℕ) → l < length low.now → sample_of (S.bytes sample) into.new l ≡
        sample_of (S.bytes sample) from.now (bit_or (slice_index low.now l) high) }
{
    let size = sample.bytes();
    let eights = low.len() / 8;
    for k in 0..eights {
        pick_at(
            from,
            sample,
            (low[8 * k] | high) as usize,
            firsts,
            &mut into[8 * k * size..8 * (k + 1) * size],
        );
    }
    for l in 8 * eights..low.len() {
        let place = (low[l] | high) as usize;
        sample.copy(from, place * size, into, l * size);
    }
}

/// Writes the samples of eight places that lie so far behind a first one, the last of them farthest.
#[inline(always)]
fn pick_at<S: Sample>(from: &[u8], sample: S, first: usize, behind: &[usize; 8], into: &mut [u8])
    requires some { 0 < S.bytes sample }
    requires few { S.bytes sample ≤ MAX_BYTES }
    requires last { (i : ℕ) → i < 8 → slice_index behind.now i ≤ slice_index behind.now 7 }
    requires read { (first + slice_index behind.now 7 + 1) * S.bytes sample ≤ length from.now }
    requires write { 8 * S.bytes sample ≤ length into.old }
    ensures { (i : ℕ) → i < 8 → sample_of (S.bytes sample) into.new i ≡
        sample_of (S.bytes sample) from.now (first + slice_index behind.now i) }
{
    let size = sample.bytes();
    let window = &from[first * size..(first + behind[7] + 1) * size];
    pick_eight(window, sample, behind, into);
}

/// Writes the samples of eight places of a window.
#[inline(always)]
fn pick_eight<S: Sample>(window: &[u8], sample: S, places: &[usize; 8], into: &mut [u8])
    requires some { 0 < S.bytes sample }
    requires few { S.bytes sample ≤ MAX_BYTES }
    requires read { (i : ℕ) → i < 8 → (slice_index places.now i + 1) * S.bytes sample ≤ length window.now }
    requires write { 8 * S.bytes sample ≤ length into.old }
    ensures { (i : ℕ) → i < 8 → sample_of (S.bytes sample) into.new i ≡
        sample_of (S.bytes sample) window.now (slice_index places.now i) }
{
    let size = sample.bytes();
    for i in 0..8 {
        sample.copy(window, places[i] * size, into, i * size);
    }
}

/// Writes to each place the sample of its partner.
pub(crate) fn pick_partners<S: Sample, P: Pairing>(
    from: &[u8],
    sample: S,
    count: usize,
    pairing: &P,
    into: &mut [u8],
)
    requires some { 0 < S.bytes sample }
    requires few { S.bytes sample ≤ MAX_BYTES }
    requires ready { (o : ℕ) → o < count → P.is_ready pairing.now o }
    requires pairing { IsPairing count (P.partner pairing.now) }
    requires read { count * S.bytes sample ≤ length from.now }
    requires write { count * S.bytes sample ≤ length into.old }
    ensures { IsExchanged count (P.partner pairing.now) (sample_of (S.bytes sample) from.now)
        (sample_of (S.bytes sample) into.new) }
{
    let size = sample.bytes();
    for place in 0..count {
        let other = pairing.partner(place);
        sample.copy(from, other * size, into, place * size);
    }
}
