//! The two fastest lanes of a walk. Some neighbouring rows, a band, are copied side by side, so that more reads of the
//! raw samples are under way at a time.
ghost use Rattle.std.specs.Prelude.{◌≡◌, ℕ, ◌+◌, ◌*◌, ◌<◌, ◌≤◌, List, [], ◌∷◌, slice_index};
ghost use Rattle.idx_lanes.specs.Copies.{AreMade, EachCopy, HasCoordinate, IsWanted, IsWithin};
ghost use Rattle.idx_lanes.specs.Spread.{part_after};

use idx_lanes::{Lane, Sample, next_part};

/// Copies the samples along two lanes, in bands of `N` rows.
pub(crate) fn rows<S: Sample, const N: usize>(
    sample: S,
    slower: &Lane,
    lane: &Lane,
    samples: &[u8],
    from: usize,
    into: &mut [u8],
    place: usize,
)
    requires wide { 1 ≤ N }
    requires narrow { N ≤ 64 }
    requires some { 0 < S.bytes sample }
    requires few { S.bytes sample ≤ 64 }
    requires coordinates { HasCoordinate lane.now }
    requires within { EachCopy (IsWithin (S.bytes sample) samples.now into.old) (slower.now ∷ lane.now ∷ []) from place }
    ensures { (want : ℕ → List ℕ) →
        EachCopy (IsWanted want (S.bytes sample) samples.now) (slower.now ∷ lane.now ∷ []) from place →
        AreMade want (S.bytes sample) (slower.now ∷ lane.now ∷ []) from place into.old into.new }
{
    let mut part = slower.first;
    let mut k = 0;
    while k < slower.count {
        if slower.count - k >= N {
            let band = Lane {
                step: slower.step,
                count: N,
                bits: slower.bits,
                first: part,
            };
            part = band_rows::<S, N>(
                sample,
                &band,
                lane,
                samples,
                from + k * slower.step,
                into,
                place,
            );
            k += N;
        } else {
            row(
                sample,
                lane,
                samples,
                from + k * slower.step,
                into,
                place + part,
            );
            part = next_part(slower.bits, part);
            k += 1;
        }
    }
}

/// Copies the samples along a lane, at each of its coordinates those along a band. Answers what the coordinate behind
/// the band gives to the place.
fn band_rows<S: Sample, const N: usize>(
    sample: S,
    band: &Lane,
    lane: &Lane,
    samples: &[u8],
    from: usize,
    into: &mut [u8],
    place: usize,
) -> usize
    requires wide { 1 ≤ N }
    requires narrow { N ≤ 64 }
    requires some { 0 < S.bytes sample }
    requires few { S.bytes sample ≤ 64 }
    requires band { band.now.count ≡ N }
    requires within { EachCopy (IsWithin (S.bytes sample) samples.now into.old) (lane.now ∷ band.now ∷ []) from place }
    ensures part { result ≡ part_after band.now.bits band.now.first N }
    ensures made { (want : ℕ → List ℕ) →
        EachCopy (IsWanted want (S.bytes sample) samples.now) (lane.now ∷ band.now ∷ []) from place →
        AreMade want (S.bytes sample) (lane.now ∷ band.now ∷ []) from place into.old into.new }
{
    let parts = parts_of::<N>(band);
    let (step, bits) = (lane.step, lane.bits);
    let mut part = lane.first;
    for k in 0..lane.count {
        copy_column::<S, N>(
            sample,
            band,
            parts,
            samples,
            from + k * step,
            into,
            place + part,
        );
        part = next_part(bits, part);
    }
    next_part(band.bits, parts[N - 1])
}

/// What the coordinates of a band give to the place.
#[inline(always)]
fn parts_of<const N: usize>(band: &Lane) -> [usize; N]
    requires wide { 1 ≤ N }
    requires narrow { N ≤ 64 }
    ensures { (k : ℕ) → k < N → slice_index result k ≡ part_after band.now.bits band.now.first k }
{
    let mut parts = [band.first; N];
    for k in 1..N {
        parts[k] = next_part(band.bits, parts[k - 1]);
    }
    parts
}

/// Copies the samples along a band, whose coordinates' parts of the place are given.
#[inline(always)]
fn copy_column<S: Sample, const N: usize>(
    sample: S,
    band: &Lane,
    parts: [usize; N],
    samples: &[u8],
    from: usize,
    into: &mut [u8],
    place: usize,
)
    requires wide { 1 ≤ N }
    requires narrow { N ≤ 64 }
    requires some { 0 < S.bytes sample }
    requires few { S.bytes sample ≤ 64 }
    requires band { band.now.count ≡ N }
    requires parts { (k : ℕ) → k < N → slice_index parts k ≡ part_after band.now.bits band.now.first k }
    requires within { EachCopy (IsWithin (S.bytes sample) samples.now into.old) (band.now ∷ []) from place }
    ensures { (want : ℕ → List ℕ) → EachCopy (IsWanted want (S.bytes sample) samples.now) (band.now ∷ []) from place →
        AreMade want (S.bytes sample) (band.now ∷ []) from place into.old into.new }
{
    for k in 0..N {
        sample.copy(
            samples,
            from + k * band.step,
            into,
            (place + parts[k]) * sample.bytes(),
        );
    }
}

/// Copies the samples along one lane.
pub(crate) fn row<S: Sample>(
    sample: S,
    lane: &Lane,
    samples: &[u8],
    from: usize,
    into: &mut [u8],
    place: usize,
)
    requires some { 0 < S.bytes sample }
    requires few { S.bytes sample ≤ 64 }
    requires within { EachCopy (IsWithin (S.bytes sample) samples.now into.old) (lane.now ∷ []) from place }
    ensures { (want : ℕ → List ℕ) → EachCopy (IsWanted want (S.bytes sample) samples.now) (lane.now ∷ []) from place →
        AreMade want (S.bytes sample) (lane.now ∷ []) from place into.old into.new }
{
    let (step, bits) = (lane.step, lane.bits);
    let mut part = lane.first;
    for k in 0..lane.count {
        sample.copy(
            samples,
            from + k * step,
            into,
            (place + part) * sample.bytes(),
        );
        part = next_part(bits, part);
    }
}
