//! Eight samples that go to neighbouring places, a tile, and the walk along lanes of them.
ghost use Rattle.std.specs.Prelude.{◌≡◌, ℕ, ◌+◌, ◌*◌, ◌<◌, ◌≤◌, All, List, [], ◌∷◌, ◌++◌};
ghost use Rattle.idx_lanes.specs.Copies.{AreMade, EachCopy, HasCoordinate, IsWanted, IsWithin};
ghost use Rattle.idx_block.specs.Tiles.{pair_of, tile_lanes};

use idx_lanes::{Lane, Sample, next_part};

/// How eight samples that go to neighbouring places lie in the raw samples: what each of the three lowest bits of the
/// place adds to the byte.
#[derive(Clone, Copy)]
pub(crate) struct Tile {
    pub(crate) one: usize,
    pub(crate) two: usize,
    pub(crate) four: usize,
}

/// Copies the samples of a tile.
#[inline(always)]
fn copy_tile<S: Sample>(
    sample: S,
    tile: Tile,
    samples: &[u8],
    from: usize,
    into: &mut [u8],
    place: usize,
)
    requires some { 0 < S.bytes sample }
    requires few { S.bytes sample ≤ 64 }
    requires within { EachCopy (IsWithin (S.bytes sample) samples.now into.old) (tile_lanes tile.one tile.two tile.four)
        from place }
    ensures { (want : ℕ → List ℕ) →
        EachCopy (IsWanted want (S.bytes sample) samples.now) (tile_lanes tile.one tile.two tile.four) from place →
        AreMade want (S.bytes sample) (tile_lanes tile.one tile.two tile.four) from place into.old into.new }
{
    if sample.bytes() == 1 {
        copy_bytes(tile, samples, from, into, place);
    } else {
        copy_four(sample, tile.one, tile.two, samples, from, into, place);
        copy_four(
            sample,
            tile.one,
            tile.two,
            samples,
            from + tile.four,
            into,
            place + 4,
        );
    }
}

/// Copies the samples of a tile that have one byte. They are put together before they are written, by one write.
#[inline(always)]
fn copy_bytes(tile: Tile, samples: &[u8], from: usize, into: &mut [u8], place: usize)
    requires within { EachCopy (IsWithin 1 samples.now into.old) (tile_lanes tile.one tile.two tile.four) from place }
    ensures { (want : ℕ → List ℕ) →
        EachCopy (IsWanted want 1 samples.now) (tile_lanes tile.one tile.two tile.four) from place →
        AreMade want 1 (tile_lanes tile.one tile.two tile.four) from place into.old into.new }
{
    let eight = [
        samples[from],
        samples[from + tile.one],
        samples[from + tile.two],
        samples[from + tile.two + tile.one],
        samples[from + tile.four],
        samples[from + tile.four + tile.one],
        samples[from + tile.four + tile.two],
        samples[from + tile.four + tile.two + tile.one],
    ];
    into[place..place + 8].copy_from_slice(&eight);
}

/// Copies the four samples of half a tile.
#[inline(always)]
fn copy_four<S: Sample>(
    sample: S,
    one: usize,
    two: usize,
    samples: &[u8],
    from: usize,
    into: &mut [u8],
    place: usize,
)
    requires some { 0 < S.bytes sample }
    requires few { S.bytes sample ≤ 64 }
    requires within { EachCopy (IsWithin (S.bytes sample) samples.now into.old) (pair_of two 2 ∷ pair_of one 1 ∷ [])
        from place }
    ensures { (want : ℕ → List ℕ) →
        EachCopy (IsWanted want (S.bytes sample) samples.now) (pair_of two 2 ∷ pair_of one 1 ∷ []) from place →
        AreMade want (S.bytes sample) (pair_of two 2 ∷ pair_of one 1 ∷ []) from place into.old into.new }
{
    copy_two(sample, one, samples, from, into, place);
    copy_two(sample, one, samples, from + two, into, place + 2);
}

/// Copies two samples that go to neighbouring places.
#[inline(always)]
fn copy_two<S: Sample>(
    sample: S,
    one: usize,
    samples: &[u8],
    from: usize,
    into: &mut [u8],
    place: usize,
)
    requires some { 0 < S.bytes sample }
    requires few { S.bytes sample ≤ 64 }
    requires within { EachCopy (IsWithin (S.bytes sample) samples.now into.old) (pair_of one 1 ∷ []) from place }
    ensures { (want : ℕ → List ℕ) →
        EachCopy (IsWanted want (S.bytes sample) samples.now) (pair_of one 1 ∷ []) from place →
        AreMade want (S.bytes sample) (pair_of one 1 ∷ []) from place into.old into.new }
{
    copy_one(sample, samples, from, into, place);
    copy_one(sample, samples, from + one, into, place + 1);
}

/// Copies a sample.
#[inline(always)]
fn copy_one<S: Sample>(sample: S, samples: &[u8], from: usize, into: &mut [u8], place: usize)
    requires some { 0 < S.bytes sample }
    requires few { S.bytes sample ≤ 64 }
    requires within { IsWithin (S.bytes sample) samples.now into.old from place }
    ensures { (want : ℕ → List ℕ) → IsWanted want (S.bytes sample) samples.now from place →
        AreMade want (S.bytes sample) [] from place into.old into.new }
{
    sample.copy(samples, from, into, place * sample.bytes());
}

/// Copies the tiles along these lanes, the slowest first, into a block.
pub(crate) fn walk_tiles<S: Sample>(
    sample: S,
    tile: Tile,
    lanes: &[Lane],
    samples: &[u8],
    from: usize,
    into: &mut [u8],
    place: usize,
)
    requires some { 0 < S.bytes sample }
    requires few { S.bytes sample ≤ 64 }
    requires lanes { All HasCoordinate lanes.now }
    requires within { EachCopy (IsWithin (S.bytes sample) samples.now into.old)
        (lanes.now ++ tile_lanes tile.one tile.two tile.four) from place }
    ensures { (want : ℕ → List ℕ) →
        EachCopy (IsWanted want (S.bytes sample) samples.now)
        (lanes.now ++ tile_lanes tile.one tile.two tile.four) from place →
        AreMade want (S.bytes sample) (lanes.now ++ tile_lanes tile.one tile.two tile.four)
        from place into.old into.new }
{
    match lanes {
        [] => copy_tile(sample, tile, samples, from, into, place),
        [lane] => row_of_tiles(sample, tile, lane, samples, from, into, place),
        [slowest, faster @ ..] => {
            let mut part = slowest.first;
            for k in 0..slowest.count {
                walk_tiles(
                    sample,
                    tile,
                    faster,
                    samples,
                    from + k * slowest.step,
                    into,
                    place + part,
                );
                part = next_part(slowest.bits, part);
            }
        }
    }
}

/// Copies the tiles along one lane.
fn row_of_tiles<S: Sample>(
    sample: S,
    tile: Tile,
    lane: &Lane,
    samples: &[u8],
    from: usize,
    into: &mut [u8],
    place: usize,
)
    requires some { 0 < S.bytes sample }
    requires few { S.bytes sample ≤ 64 }
    requires within { EachCopy (IsWithin (S.bytes sample) samples.now into.old)
        (lane.now ∷ tile_lanes tile.one tile.two tile.four) from place }
    ensures { (want : ℕ → List ℕ) →
        EachCopy (IsWanted want (S.bytes sample) samples.now)
        (lane.now ∷ tile_lanes tile.one tile.two tile.four) from place →
        AreMade want (S.bytes sample) (lane.now ∷ tile_lanes tile.one tile.two tile.four) from place into.old into.new }
{
    let (step, bits) = (lane.step, lane.bits);
    let mut part = lane.first;
    for k in 0..lane.count {
        copy_tile(sample, tile, samples, from + k * step, into, place + part);
        part = next_part(bits, part);
    }
}
