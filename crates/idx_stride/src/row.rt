ghost use Rattle.std.specs.Prelude.{◌≡◌, ℕ, ◌+◌, ◌-◌, ◌*◌, ◌≤◌, ◌<◌, [], ◌∷◌, true, length};
ghost use Rattle.idx_stride.specs.Strides.{IsAxis};
ghost use Rattle.idx_stride.specs.Written.{WritesAt, gathered};

use crate::Axis;
use crate::run::run;
use idx_lanes::Sample;

/// Copies the samples along one axis to place `at` of `out`, without the coarse ones where `coarse` is true. Answers
/// the place behind them.
pub(crate) fn row<S: Sample>(
    sample: S,
    axis: &Axis,
    window: &[u8],
    base: usize,
    coarse: bool,
    out: &mut [u8],
    at: usize,
) -> usize
    requires axis { IsAxis axis.now }
    requires wide { 1 < axis.now.count }
    requires some { 0 < S.bytes sample }
    requires few { S.bytes sample ≤ 64 }
    requires read { base + (axis.now.count - 1) * axis.now.step + S.bytes sample ≤ length window.now }
    requires write { at + length (gathered (S.bytes sample) window.now base coarse (axis.now ∷ [])) ≤ length out.old }
    ensures { WritesAt at result (gathered (S.bytes sample) window.now base coarse (axis.now ∷ [])) out.old out.new }
{
    if !coarse {
        run(
            sample,
            window,
            base,
            axis.step as usize,
            axis.count as usize,
            out,
            at,
        )
    } else if axis.ratio == 2 {
        every_other(sample, axis, window, base, out, at)
    } else {
        between_coarse(sample, axis, window, base, out, at)
    }
}

/// The same where every second coordinate is coarse.
fn every_other<S: Sample>(
    sample: S,
    axis: &Axis,
    window: &[u8],
    base: usize,
    out: &mut [u8],
    at: usize,
) -> usize
    requires axis { IsAxis axis.now }
    requires wide { 1 < axis.now.count }
    requires ratio { axis.now.ratio ≡ 2 }
    requires some { 0 < S.bytes sample }
    requires few { S.bytes sample ≤ 64 }
    requires read { base + (axis.now.count - 1) * axis.now.step + S.bytes sample ≤ length window.now }
    requires write { at + length (gathered (S.bytes sample) window.now base true (axis.now ∷ [])) ≤ length out.old }
    ensures { WritesAt at result (gathered (S.bytes sample) window.now base true (axis.now ∷ [])) out.old out.new }
{
    let first = 1 - axis.before_coarse() as usize;
    let count = (axis.count as usize - first + 1) / 2;
    let step = axis.step as usize;
    run(
        sample,
        window,
        base + first * step,
        2 * step,
        count,
        out,
        at,
    )
}

/// The same by runs between the coarse coordinates.
fn between_coarse<S: Sample>(
    sample: S,
    axis: &Axis,
    window: &[u8],
    base: usize,
    out: &mut [u8],
    at: usize,
) -> usize
    requires axis { IsAxis axis.now }
    requires wide { 1 < axis.now.count }
    requires some { 0 < S.bytes sample }
    requires few { S.bytes sample ≤ 64 }
    requires read { base + (axis.now.count - 1) * axis.now.step + S.bytes sample ≤ length window.now }
    requires write { at + length (gathered (S.bytes sample) window.now base true (axis.now ∷ [])) ≤ length out.old }
    ensures { WritesAt at result (gathered (S.bytes sample) window.now base true (axis.now ∷ [])) out.old out.new }
{
    let step = axis.step as usize;
    let mut next = at;
    let mut coordinate = 0;
    let mut fine = axis.before_coarse();
    while coordinate < axis.count {
        let count = fine.min(axis.count - coordinate);
        let first = base + coordinate as usize * step;
        next = run(sample, window, first, step, count as usize, out, next);
        coordinate = (coordinate + count + 1).min(axis.count);
        fine = axis.ratio - 1;
    }
    next
}
