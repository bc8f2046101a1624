ghost use Rattle.std.specs.Prelude.{◌≡◌, ℕ, ◌+◌, ◌-◌, ◌*◌, ◌≤◌, ◌<◌, length};
ghost use Rattle.idx_lanes.specs.Written.{written};
ghost use Rattle.idx_stride.specs.Places.{samples_at, progression};
ghost use Rattle.idx_stride.specs.Written.{WritesAt};

use idx_lanes::Sample;

/// Copies so many samples, each `step` bytes behind the one before, to place `at` of `out`. Answers the place behind
/// them.
pub(crate) fn run<S: Sample>(
    sample: S,
    window: &[u8],
    first: usize,
    step: usize,
    count: usize,
    out: &mut [u8],
    at: usize,
) -> usize
    requires some { 0 < S.bytes sample }
    requires few { S.bytes sample ≤ 64 }
    requires read { 0 < count → first + (count - 1) * step + S.bytes sample ≤ length window.now }
    requires write { at + count * S.bytes sample ≤ length out.old }
    ensures { WritesAt at result (samples_at (S.bytes sample) window.now (progression first step count)) out.old out.new }
{
    let size = sample.bytes();
    let next = at + count * size;
    if step == size && count > 0 {
        out[at..next].copy_from_slice(&window[first..first + count * size]);
    } else {
        strided(sample, window, first, step, count, out, at);
    }
    next
}

/// Copies the samples one by one.
fn strided<S: Sample>(
    sample: S,
    window: &[u8],
    first: usize,
    step: usize,
    count: usize,
    out: &mut [u8],
    at: usize,
)
    requires some { 0 < S.bytes sample }
    requires few { S.bytes sample ≤ 64 }
    requires read { (k : ℕ) → k < count → first + k * step + S.bytes sample ≤ length window.now }
    requires write { at + count * S.bytes sample ≤ length out.old }
    ensures { out.new ≡ written at (samples_at (S.bytes sample) window.now (progression first step count)) out.old }
{
    for k in 0..count {
        sample.copy(window, first + k * step, out, at + k * sample.bytes());
    }
}
