ghost use Rattle.std.specs.Prelude.{◌≡◌, ℕ, ◌+◌, ◌*◌, ◌<◌, ◌≤◌, All, List, [], ◌∷◌, length};
ghost use Rattle.idx_lanes.specs.Copies.{HasCoordinate};
ghost use Rattle.idx_lanes.specs.Spread.{part_after};
ghost use Rattle.idx_scatter.specs.Legs.{AllFit, EachMove, leg_of, place_by, tally_at};
ghost use Rattle.idx_scatter.specs.Scatter.{sample_of};
ghost use Rattle.idx_scatter.specs.Moves.{AreApart, AreMoved, IsRoom, IsSpot, IsWanted};

use crate::leg::Leg;
use crate::tally::Tally;
use idx_geom::MAX_AXES;
use idx_lanes::{Lane, Sample, next_part};

/// Moves the samples along these lanes, the slowest first, out of a block. The first one comes from the place `place`
/// with what each lane's first coordinate gives to it. The legs, axis 0 first, and what comes before the row of the
/// lanes say where the samples go.
pub(crate) fn walk<S: Sample>(
    sample: S,
    legs: &[Leg; MAX_AXES],
    lanes: &[Lane],
    samples: &[u8],
    place: usize,
    into: &mut [u8],
    rows: &Tally,
)
    requires some { 0 < S.bytes sample }
    requires few { S.bytes sample ≤ 64 }
    requires axes { length lanes.now ≤ 5 }
    requires lanes { All HasCoordinate lanes.now }
    requires fits { AllFit legs.now lanes.now rows.now }
    requires within { EachMove (IsRoom (S.bytes sample) samples.now into.old) legs.now lanes.now place rows.now }
    ensures { (want : ℕ → List ℕ) →
        EachMove (IsWanted want (S.bytes sample) samples.now) legs.now lanes.now place rows.now →
        AreMoved want (S.bytes sample) legs.now lanes.now place rows.now into.old into.new }
{
    match lanes {
        [] => move_sample(sample, legs, samples, place, into, rows),
        [lane] => row(sample, legs, lane, samples, place, into, rows),
        [slower, lane] => plane(sample, legs, slower, lane, samples, place, into, rows),
        [slowest, faster @ ..] => {
            let leg = &legs[faster.len()];
            let mut part = slowest.first;
            for k in 0..slowest.count {
                let tally = leg.at(rows, k);
                walk(sample, legs, faster, samples, place + part, into, &tally);
                part = next_part(slowest.bits, part);
            }
        }
    }
}

/// Moves the samples along two lanes, those of the axes 1 and 0.
fn plane<S: Sample>(
    sample: S,
    legs: &[Leg; MAX_AXES],
    slower: &Lane,
    lane: &Lane,
    samples: &[u8],
    place: usize,
    into: &mut [u8],
    rows: &Tally,
)
    requires some { 0 < S.bytes sample }
    requires few { S.bytes sample ≤ 64 }
    requires slower { HasCoordinate slower.now }
    requires counted { HasCoordinate lane.now }
    requires fits { AllFit legs.now (slower.now ∷ lane.now ∷ []) rows.now }
    requires within { EachMove (IsRoom (S.bytes sample) samples.now into.old) legs.now (slower.now ∷ lane.now ∷ [])
        place rows.now }
    ensures { (want : ℕ → List ℕ) →
        EachMove (IsWanted want (S.bytes sample) samples.now) legs.now (slower.now ∷ lane.now ∷ []) place rows.now →
        AreMoved want (S.bytes sample) legs.now (slower.now ∷ lane.now ∷ []) place rows.now into.old into.new }
{
    match legs[1].paces(&legs[0], rows) {
        Some((across, along)) => even_plane(
            sample, legs, slower, lane, samples, place, into, rows, across, along,
        ),
        None => odd_plane(sample, legs, slower, lane, samples, place, into, rows),
    }
}

/// Moves the samples along two lanes, where the rows lie `across` places apart in the answer, and the points of each
/// row `along`.
#[inline(always)]
fn even_plane<S: Sample>(
    sample: S,
    legs: &[Leg; MAX_AXES],
    slower: &Lane,
    lane: &Lane,
    samples: &[u8],
    place: usize,
    into: &mut [u8],
    rows: &Tally,
    across: usize,
    along: usize,
)
    requires some { 0 < S.bytes sample }
    requires few { S.bytes sample ≤ 64 }
    requires slower { HasCoordinate slower.now }
    requires counted { HasCoordinate lane.now }
    requires fits { AllFit legs.now (slower.now ∷ lane.now ∷ []) rows.now }
    requires within { EachMove (IsRoom (S.bytes sample) samples.now into.old) legs.now (slower.now ∷ lane.now ∷ [])
        place rows.now }
    requires even { (j k : ℕ) → j < slower.now.count → k < lane.now.count →
        place_by (tally_at (leg_of legs.now []) (tally_at (leg_of legs.now (lane.now ∷ [])) rows.now j) k) ≡
        place_by (tally_at (leg_of legs.now []) (tally_at (leg_of legs.now (lane.now ∷ [])) rows.now 0) 0) +
        j * across + k * along }
    ensures { (want : ℕ → List ℕ) →
        EachMove (IsWanted want (S.bytes sample) samples.now) legs.now (slower.now ∷ lane.now ∷ []) place rows.now →
        AreMoved want (S.bytes sample) legs.now (slower.now ∷ lane.now ∷ []) place rows.now into.old into.new }
{
    let first = legs[0].at(&legs[1].at(rows, 0), 0).place();
    let bits = slower.bits;
    let mut part = slower.first;
    for j in 0..slower.count {
        even_row(
            sample,
            lane,
            samples,
            place + part,
            into,
            first + j * across,
            along,
        );
        part = next_part(bits, part);
    }
}

/// Moves the samples along two lanes, row by row.
fn odd_plane<S: Sample>(
    sample: S,
    legs: &[Leg; MAX_AXES],
    slower: &Lane,
    lane: &Lane,
    samples: &[u8],
    place: usize,
    into: &mut [u8],
    rows: &Tally,
)
    requires some { 0 < S.bytes sample }
    requires few { S.bytes sample ≤ 64 }
    requires counted { HasCoordinate lane.now }
    requires fits { AllFit legs.now (slower.now ∷ lane.now ∷ []) rows.now }
    requires within { EachMove (IsRoom (S.bytes sample) samples.now into.old) legs.now (slower.now ∷ lane.now ∷ [])
        place rows.now }
    ensures { (want : ℕ → List ℕ) →
        EachMove (IsWanted want (S.bytes sample) samples.now) legs.now (slower.now ∷ lane.now ∷ []) place rows.now →
        AreMoved want (S.bytes sample) legs.now (slower.now ∷ lane.now ∷ []) place rows.now into.old into.new }
{
    let leg = legs[1];
    let bits = slower.bits;
    let mut part = slower.first;
    for k in 0..slower.count {
        let tally = leg.at(rows, k);
        row(sample, legs, lane, samples, place + part, into, &tally);
        part = next_part(bits, part);
    }
}

/// Moves the samples along one lane, that of axis 0.
fn row<S: Sample>(
    sample: S,
    legs: &[Leg; MAX_AXES],
    lane: &Lane,
    samples: &[u8],
    place: usize,
    into: &mut [u8],
    rows: &Tally,
)
    requires some { 0 < S.bytes sample }
    requires few { S.bytes sample ≤ 64 }
    requires counted { HasCoordinate lane.now }
    requires fits { AllFit legs.now (lane.now ∷ []) rows.now }
    requires within { EachMove (IsRoom (S.bytes sample) samples.now into.old) legs.now (lane.now ∷ []) place rows.now }
    ensures { (want : ℕ → List ℕ) →
        EachMove (IsWanted want (S.bytes sample) samples.now) legs.now (lane.now ∷ []) place rows.now →
        AreMoved want (S.bytes sample) legs.now (lane.now ∷ []) place rows.now into.old into.new }
{
    match legs[0].more_each(rows) {
        Some(more) => {
            let first = legs[0].at(rows, 0).place();
            even_row(sample, lane, samples, place, into, first, more);
        }
        None => odd_row(sample, legs, lane, samples, place, into, rows),
    }
}

/// Moves the samples along one lane to the places from `first` on that lie `more` apart.
#[inline(always)]
fn even_row<S: Sample>(
    sample: S,
    lane: &Lane,
    samples: &[u8],
    place: usize,
    into: &mut [u8],
    first: usize,
    more: usize,
)
    requires some { 0 < S.bytes sample }
    requires few { S.bytes sample ≤ 64 }
    requires within { (k : ℕ) → k < lane.now.count → IsSpot (S.bytes sample) samples.now into.old
        (place + part_after lane.now.bits lane.now.first k) (first + k * more) }
    ensures { (want : ℕ → List ℕ) →
        ((k : ℕ) → k < lane.now.count →
        sample_of (S.bytes sample) samples.now (place + part_after lane.now.bits lane.now.first k) ≡
        want (first + k * more)) →
        AreApart want (S.bytes sample) lane.now.count first more into.old into.new }
{
    let size = sample.bytes();
    let bits = lane.bits;
    let mut part = lane.first;
    for k in 0..lane.count {
        sample.copy(
            samples,
            (place + part) * size,
            into,
            (first + k * more) * size,
        );
        part = next_part(bits, part);
    }
}

/// Moves the samples along one lane, whose places in the answer are found one by one.
fn odd_row<S: Sample>(
    sample: S,
    legs: &[Leg; MAX_AXES],
    lane: &Lane,
    samples: &[u8],
    place: usize,
    into: &mut [u8],
    rows: &Tally,
)
    requires some { 0 < S.bytes sample }
    requires few { S.bytes sample ≤ 64 }
    requires fits { AllFit legs.now (lane.now ∷ []) rows.now }
    requires within { EachMove (IsRoom (S.bytes sample) samples.now into.old) legs.now (lane.now ∷ []) place rows.now }
    ensures { (want : ℕ → List ℕ) →
        EachMove (IsWanted want (S.bytes sample) samples.now) legs.now (lane.now ∷ []) place rows.now →
        AreMoved want (S.bytes sample) legs.now (lane.now ∷ []) place rows.now into.old into.new }
{
    let leg = legs[0];
    let bits = lane.bits;
    let mut part = lane.first;
    for k in 0..lane.count {
        let tally = leg.at(rows, k);
        move_sample(sample, legs, samples, place + part, into, &tally);
        part = next_part(bits, part);
    }
}

/// Moves one sample.
#[inline(always)]
fn move_sample<S: Sample>(
    sample: S,
    legs: &[Leg; MAX_AXES],
    samples: &[u8],
    place: usize,
    into: &mut [u8],
    tally: &Tally,
)
    requires some { 0 < S.bytes sample }
    requires few { S.bytes sample ≤ 64 }
    requires within { IsRoom (S.bytes sample) samples.now into.old place tally.now }
    ensures { (want : ℕ → List ℕ) → IsWanted want (S.bytes sample) samples.now place tally.now →
        AreMoved want (S.bytes sample) legs.now [] place tally.now into.old into.new }
{
    let size = sample.bytes();
    sample.copy(samples, place * size, into, tally.place() * size);
}
