ghost use Rattle.std.specs.Prelude.{◌≡◌, ℕ, ◌+◌, ◌*◌, ◌≤◌, ◌<◌, All, length};
ghost use Rattle.idx_stride.specs.Strides.{IsAxis, reach};
ghost use Rattle.idx_stride.specs.Written.{WritesAt, gathered};

use crate::Axis;
use crate::axes::has_fine;
use crate::row::row;
use idx_lanes::Sample;

/// Copies the samples along these axes, of more than one coordinate each, from place `base` of the window on to place
/// `at` of `out`. Where `coarse` is true the points that are coarse on all axes are left out. Answers the place behind
/// them. No part without a sample is visited.
pub(crate) fn gather<S: Sample>(
    sample: S,
    axes: &[Axis],
    window: &[u8],
    base: usize,
    coarse: bool,
    out: &mut [u8],
    at: usize,
) -> usize
    requires axes { All IsAxis axes.now }
    requires wide { All (λ a. 1 < a.count) axes.now }
    requires some { 0 < S.bytes sample }
    requires few { S.bytes sample ≤ 64 }
    requires read { base + reach axes.now + S.bytes sample ≤ length window.now }
    requires write { at + length (gathered (S.bytes sample) window.now base coarse axes.now) ≤ length out.old }
    ensures { WritesAt at result (gathered (S.bytes sample) window.now base coarse axes.now) out.old out.new }
{
    match axes {
        [] if coarse => at,
        [] => {
            sample.copy(window, base, out, at);
            at + sample.bytes()
        }
        [axis] => row(sample, axis, window, base, coarse, out, at),
        [faster @ .., slowest] => {
            let some_fine = has_fine(faster);
            let mut next = at;
            for k in 0..slowest.count {
                let coarse_here = slowest.stays_coarse(coarse, k);
                if some_fine || !coarse_here {
                    let first = base + (k * slowest.step) as usize;
                    next = gather(sample, faster, window, first, coarse_here, out, next);
                }
            }
            next
        }
    }
}
