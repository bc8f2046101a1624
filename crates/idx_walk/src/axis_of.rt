ghost use Rattle.std.specs.Prelude.{◌≡◌, ◌-◌, ◌*◌, ◌^◌, ◌<◌, ◌≤◌};
ghost use Rattle.std.specs.Option.{SomeIff};
ghost use Rattle.idx_walk.specs.Progression.{axis_at, count_of, phase_of};

use idx_lanes::step_of;
use idx_stride::Axis;

/// The axis of the multiples of a stride between two bounds, both among them, where neighbouring coordinates lie
/// `weight` bytes apart, and each multiple of `ratio` strides is coarse: `None` where there is no multiple.
pub(crate) fn axis_of(bounds: (u64, u64), stride: u64, ratio: u64, weight: u64) -> Option<Axis>
    requires ordered { bounds.0 ≤ bounds.1 }
    requires small { bounds.1 ≤ 2 ^ 40 }
    requires some { 1 ≤ stride }
    requires few { (bounds.1 - bounds.0) * weight < 2 ^ 64 }
    ensures { SomeIff result (1 ≤ count_of stride bounds) (axis_at weight stride ratio bounds) }
{
    let (lo, hi) = bounds;
    let phase = first_multiple(lo, stride);
    let behind = hi / stride + 1;
    if phase >= behind {
        return None;
    }
    let count = behind - phase;
    Some(Axis {
        step: step_of(weight, stride, count),
        count,
        phase,
        ratio,
    })
}

/// How many strides the first multiple from a lower end on has.
fn first_multiple(lo: u64, stride: u64) -> u64
    requires small { lo ≤ 2 ^ 40 }
    requires some { 1 ≤ stride }
    ensures { result ≡ phase_of stride lo }
{
    lo.div_ceil(stride)
}
