ghost use Rattle.std.specs.Prelude.{ℕ, ◌<◌, ◌≤◌, All, List};
ghost use Rattle.idx_lanes.specs.Copies.{AreMade, EachCopy, HasCoordinate, IsWanted, IsWithin};

use crate::rows::{row, rows};
use idx_lanes::{Lane, Sample, next_part};

/// How many neighbouring rows are copied side by side. More are slower: the places that they are copied to lie too far
/// apart.
const BAND: usize = 4;

/// Copies the samples along these lanes, the slowest first, into a block. The first one begins at byte `from` of the
/// raw samples, and goes to the place `place` with what each lane's first coordinate gives to it.
pub(crate) fn walk<S: Sample>(
    sample: S,
    lanes: &[Lane],
    samples: &[u8],
    from: usize,
    into: &mut [u8],
    place: usize,
)
    requires some { 0 < S.bytes sample }
    requires few { S.bytes sample ≤ 64 }
    requires lanes { All HasCoordinate lanes.now }
    requires within { EachCopy (IsWithin (S.bytes sample) samples.now into.old) lanes.now from place }
    ensures { (want : ℕ → List ℕ) → EachCopy (IsWanted want (S.bytes sample) samples.now) lanes.now from place →
        AreMade want (S.bytes sample) lanes.now from place into.old into.new }
{
    match lanes {
        [] => sample.copy(samples, from, into, place * sample.bytes()),
        [lane] => row(sample, lane, samples, from, into, place),
        [slower, lane] => {
            rows::<S, BAND>(sample, slower, lane, samples, from, into, place);
        }
        [slowest, faster @ ..] => {
            let mut part = slowest.first;
            for k in 0..slowest.count {
                walk(
                    sample,
                    faster,
                    samples,
                    from + k * slowest.step,
                    into,
                    place + part,
                );
                part = next_part(slowest.bits, part);
            }
        }
    }
}
